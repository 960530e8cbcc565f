//! Entries within which a text ends, for example because it was cut.
ghost use Rattle.std.specs.Prelude.{◌↔◌, IsTrue};
ghost use Rattle.site_records.specs.Fronts.{IsTornEntry, IsTornRow, RunsOut, RunsOutIn};
ghost use Rattle.site_records.specs.inner.Said.{said, said_hop};

use crate::entry_line::EntryLine;
use crate::first_line::{counted, first_line, first_text_line};
use crate::hop_line::HopLine;
use crate::version::Version;

/// Whether a text ends, by what its lines count, within the entry that it begins with. Takes no memory.
pub(crate) fn is_torn(version: Version, text: &[u8]) -> bool
    ensures { IsTrue result ↔ IsTornEntry version text.now }
{
    let Some((line, behind)) = first_text_line(text) else {
        return first_line(text).is_none();
    };
    let Some(line) = EntryLine::of(line) else {
        return false;
    };
    line.is_of(version) && runs_out(&line, behind)
}

// Whether what a line counts goes beyond the end of what follows it.
fn runs_out(line: &EntryLine<'_>, behind: &[u8]) -> bool
    ensures { IsTrue result ↔ RunsOut (said line.now) behind.now }
{
    match line {
        EntryLine::Page(_, count) | EntryLine::Robots(_, count) => behind.len() <= *count,
        EntryLine::Chain(_, count) => is_torn_row(*count, behind),
        EntryLine::Fault(_, _) | EntryLine::Free(_) | EntryLine::Closed(_) => false,
    }
}

// Whether a text ends within one of so many hops.
fn is_torn_row(count: usize, text: &[u8]) -> bool
    ensures { IsTrue result ↔ IsTornRow count text.now }
{
    if count == 0 {
        return false;
    }
    let Some((line, behind)) = first_text_line(text) else {
        return first_line(text).is_none();
    };
    match HopLine::of(line) {
        Some(HopLine::Whole(_, len)) => match counted(behind, len) {
            Some((_, after)) => is_torn_row(count - 1, after),
            None => behind.len() <= len,
        },
        Some(HopLine::Failed(_, _)) => is_torn_row(count - 1, behind),
        None => false,
    }
}
