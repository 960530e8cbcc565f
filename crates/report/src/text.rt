//! The text of a report: a line for each address, and the counts.
ghost use Rattle.std.specs.Prelude.{◌≡◌, ◌++◌, IfOk, OnOk, length, map, string_bytes};
ghost use Rattle.harvest.specs.Gathered.{AreEntries, AreRecords};
ghost use Rattle.report.specs.Report.{outcome_word, is_failed, fate_word, was_asked, was_refused, has_failed, is_kept, report_text, counts_text, line_text, count_of, count_kept};
ghost use Rattle.report.specs.inner.Fates.{fate_of};
ghost use Rattle.report.specs.Entries.{harvest_lines_of};
ghost use Rattle.report.specs.inner.OutcomeWord.{word_bytes};

use crate::rows::{Fate, ReportRow, rows_of};
use fetcher::{FaultKind, Outcome};
use harvest::Harvest;
use std::alloc::{AllocError, Global};
use std::fmt;

// The word of a fate.
#[derive(Clone, Copy)]
enum Word {
    Status(u16),
    Fault(FaultKind),
    Robots,
}

impl fmt::Display for Word {
    ghost use Rattle.std.specs.Prelude.{Some};
    ghost use Rattle.report.specs.inner.OutcomeWord.{word_bytes};

    ghost output = { λ word. Some (word_bytes word) };

    fn fmt<W: fmt::Write>(&self, f: &mut fmt::Formatter<W>) -> fmt::Result {
        match self {
            Word::Status(status) => write!(f, "{status}"),
            Word::Fault(kind) => write!(f, "{kind}"),
            Word::Robots => f.write_str("rob"),
        }
    }
}

// The status of an outcome, or its fault.
fn outcome_word(outcome: &Outcome) -> Word
    ensures { word_bytes result ≡ outcome_word outcome.now }
{
    match outcome {
        Outcome::Page(status, _) | Outcome::Moved(status, _) | Outcome::Leaf(status) => {
            Word::Status(*status)
        }
        Outcome::Fault(kind) => Word::Fault(*kind),
    }
}

// The word of a fate.
fn word_of(fate: Fate<'_>) -> Word
    ensures { word_bytes result ≡ fate_word (fate_of fate.entry) }
{
    match fate {
        Fate::Asked(outcome) => outcome_word(outcome),
        Fate::Refused => Word::Robots,
    }
}

// A fault, or a status of 400 or more.
pub(crate) fn is_failed(outcome: &Outcome) -> bool
    ensures { result ≡ is_failed outcome.now }
{
    match outcome {
        Outcome::Page(status, _) | Outcome::Moved(status, _) | Outcome::Leaf(status) => {
            *status >= 400
        }
        Outcome::Fault(_) => true,
    }
}

// How many addresses of a report were requested, how many pages are kept, how many addresses robots
// rules refuse, and how many failed.
#[derive(Clone, Copy)]
struct ReportCounts {
    asked: usize,
    kept: usize,
    refused: usize,
    failed: usize,
}

impl ReportCounts {
    ghost use Rattle.std.specs.Prelude.{◌≡◌};
    ghost use Rattle.report.specs.Report.{was_asked, was_refused, has_failed, count_of, count_kept};

    // The counts of these rows.
    fn of(rows: &[ReportRow<'_>]) -> ReportCounts
        ensures asked { result.asked ≡ count_of was_asked rows.now }
        ensures kept { result.kept ≡ count_kept rows.now }
        ensures refused { result.refused ≡ count_of was_refused rows.now }
        ensures failed { result.failed ≡ count_of has_failed rows.now }
    {
        ReportCounts {
            asked: count_asked(rows),
            kept: count_kept(rows),
            refused: count_refused(rows),
            failed: count_failed(rows),
        }
    }
}

// How many of these rows were requested.
fn count_asked(rows: &[ReportRow<'_>]) -> usize
    ensures { result ≡ count_of was_asked rows.now }
{
    rows.iter().filter(|row| was_asked(row.fate)).count()
}

// How many of their pages are kept.
fn count_kept(rows: &[ReportRow<'_>]) -> usize
    ensures { result ≡ count_kept rows.now }
{
    rows.iter().filter(|row| is_kept(row)).count()
}

// How many of them robots rules refuse.
fn count_refused(rows: &[ReportRow<'_>]) -> usize
    ensures { result ≡ count_of was_refused rows.now }
{
    rows.iter().filter(|row| was_refused(row.fate)).count()
}

// How many of them were requested, and failed.
fn count_failed(rows: &[ReportRow<'_>]) -> usize
    ensures { result ≡ count_of has_failed rows.now }
{
    rows.iter().filter(|row| has_failed(row.fate)).count()
}

// Whether it was requested.
fn was_asked(fate: Fate<'_>) -> bool
    ensures { result ≡ was_asked (fate_of fate.entry) }
{
    matches!(fate, Fate::Asked(_))
}

// Whether robots rules refuse it.
fn was_refused(fate: Fate<'_>) -> bool
    ensures { result ≡ was_refused (fate_of fate.entry) }
{
    matches!(fate, Fate::Refused)
}

// Whether its page is kept.
fn is_kept(row: &ReportRow<'_>) -> bool
    ensures { result ≡ is_kept row.now }
{
    row.name.is_some()
}

// Whether it was requested, and failed.
fn has_failed(fate: Fate<'_>) -> bool
    ensures { result ≡ has_failed (fate_of fate.entry) }
{
    match fate {
        Fate::Asked(outcome) => is_failed(outcome),
        Fate::Refused => false,
    }
}

// Adds the line of one address.
fn push_line(text: &mut String, row: &ReportRow<'_>) -> Result<(), AllocError>
    ensures ok { OnOk result (string_bytes text.new ≡ string_bytes text.old ++ line_text row.now) }
{
    let depth = row.depth;
    let word = word_of(row.fate);
    let address = row.address;
    let name = row.name.unwrap_or("-");
    writeln!(text, "{depth} {word} {address} {name}")
}

// Adds the counts.
fn push_counts(text: &mut String, counts: ReportCounts) -> Result<(), AllocError>
    ensures ok { OnOk result (string_bytes text.new ≡ string_bytes text.old ++ counts_text counts.asked counts.kept counts.refused counts.failed) }
{
    let ReportCounts {
        asked,
        kept,
        refused,
        failed,
    } = counts;
    writeln!(
        text,
        "fetched {asked} kept {kept} refused {refused} failed {failed}"
    )
}

/// Adds the report over these rows.
pub(crate) fn push_report(text: &mut String, rows: &[ReportRow<'_>]) -> Result<(), AllocError>
    ensures ok { OnOk result (string_bytes text.new ≡ string_bytes text.old ++ report_text rows.now) }
{
    for row in rows {
        push_line(text, row)?;
    }
    push_counts(text, ReportCounts::of(rows))
}

/// The report of a harvest whose kept pages have these names, each in its page's place: a line
/// `depth word address name` for each address that was requested or that robots rules refuse, in
/// address order, the name `-` if the page isn't kept, and last the line
/// `fetched A kept B refused C failed D`. Fails only if memory runs out.
pub fn report_text<B: Drop>(
    alloc: Global,
    harvest: &Harvest<B>,
    names: &[String],
) -> Result<String, AllocError>
    requires { length names.now ≡ length harvest.now.kept }
    ensures text { IfOk result (λ text. string_bytes text ≡ report_text (harvest_lines_of harvest.now (map string_bytes names.now))) }
    ensures entries { AreEntries harvest.now }
    ensures records { AreRecords harvest.now }
{
    let rows = rows_of(alloc, harvest, names)?;
    let mut text = String::new(alloc);
    push_report(&mut text, &rows)?;
    Ok(text)
}
