//! Reading a journal.
ghost use Rattle.std.specs.Prelude.{◌≡◌, ◌++◌, ◌+◌, ◌<◌, ◌^◌, ◌∷◌, ℕ, List, [], Err, IfOk, IfSome, MatchBool, MatchOption, MatchResult, OnOk, Some, length, string_bytes};
ghost use Rattle.address.specs.Address.{AddressText, IsAddress};
ghost use Rattle.disk_folder.specs.Disks.{Holed};
ghost use Rattle.mirror_index.specs.Cuts.{Lacks};
ghost use Rattle.mirror_index.specs.Entries.{Entry, IsEntry, Text, entry_line};
ghost use Rattle.mirror_upkeep.specs.Journals.{Answer, AreWritten, Begins, HasUnwritten, IsFirstBad, IsJournal, IsOther, IsRunOf, Page, Said, StartsWith, before_zero, first_line, lines, version};
ghost use Rattle.mirror_upkeep.specs.inner.Reading.{Holds, IsAdded, IsAfterFirst, IsFaultIn, IsFaultOfFirst, IsSaidIn, SaysNothing};
ghost use Rattle.mirror_upkeep.specs.Reasons.{reason_of};
ghost use Rattle.mirror_upkeep.specs.declared.reading.JournalFault.TheVariants.{Entry as EntryFault, Line, Memory, Starts, Version};

use crate::latest::index_of;
use memchr::memchr;
use mirror_index::{Entry, MAX_LINE, MirrorIndex, read_line, read_text};
use std::alloc::{AllocError, Global};

/// Why bytes aren't the journal of a run with certain starts.
#[derive(Clone, Copy, PartialEq, Eq, Debug)]
pub enum JournalFault {
    /// It is of another version.
    Version,
    /// It is of other starts.
    Starts,
    /// This line is the first that is neither a page's nor an answer's.
    Line(usize),
    /// Some page is none that an index may have, or there are more than 10,000,000.
    Entry,
    /// Memory ran out.
    Memory,
}

impl From<AllocError> for JournalFault {
    ghost use Rattle.std.specs.Prelude.{◌≡◌};
    ghost use Rattle.mirror_upkeep.specs.declared.reading.JournalFault.TheVariants.{Memory};

    ghost from_gives = { λ e fault. fault ≡ Memory };

    fn from(_error: AllocError) -> JournalFault {
        JournalFault::Memory
    }
}

/// What a run that was stopped left, by its journal.
pub struct StoppedRun {
    /// Its pages that have their files. Of several of one address it is the last.
    pub pages: MirrorIndex,
    /// Its answers without a file, in the order of their lines.
    pub answers: Vec<Vec<u8>>,
}

// Written by hand: a user that drops one proves a call, and nothing about its fields.
impl Drop for StoppedRun {
    fn drop(self) {
        let StoppedRun {
            pages: _pages,
            answers: _answers,
        } = self;
    }
}

impl StoppedRun {
    /// Its pages and its answers.
    pub fn into_parts(self) -> (MirrorIndex, Vec<Vec<u8>>)
        ensures pages { result.0 ≡ self.pages }
        ensures answers { result.1 ≡ self.answers }
    {
        let StoppedRun { pages, answers } = self;
        (pages, answers)
    }
}

// What lines say: the pages, and the answers, each in order.
#[derive(Drop)]
struct Lines {
    pages: Vec<Entry>,
    answers: Vec<Vec<u8>>,
}

/// How the first line begins.
const VERSION: &[u8] = b"wgetr-journal 1 ";

// What follows the first line, which is to be this one. A front of that has nothing after it.
fn after_first<'a>(bytes: &'a [u8], first: &[u8]) -> Result<&'a [u8], JournalFault>
    ensures { MatchResult result (λ rest. IsAfterFirst bytes.now first.now rest.now) (IsFaultOfFirst bytes.now first.now) }
{
    if bytes.starts_with(first) {
        return Ok(&bytes[first.len()..]);
    }
    if first.starts_with(bytes) {
        return Ok(&[]);
    }
    if bytes.starts_with(VERSION) {
        return Err(JournalFault::Starts);
    }
    Err(JournalFault::Version)
}

// The first line of a text without its end, and what is after that.
fn cut_line(text: &[u8]) -> Option<(&[u8], &[u8])>
    ensures { MatchOption result (Lacks 10 text.now) (λ parts. Lacks 10 parts.0.now × (text.now ≡ parts.0.now ++ 10 ∷ parts.1.now)) }
{
    match memchr(b'\n', text) {
        Some(at) => Some((&text[..at], &text[at + 1..])),
        None => None,
    }
}

// The entry whose line this is, if it is one's and not too long.
fn short_line(alloc: Global, line: &[u8]) -> Result<Option<Entry>, AllocError>
    ensures is { IfOk result (λ entry. IfSome entry (λ e. line.now ≡ entry_line e)) }
    ensures back { IfOk result (λ entry. (e : Entry) → IsEntry e → line.now ≡ entry_line e → entry ≡ Some e) }
{
    if line.len() > MAX_LINE {
        return Ok(None);
    }
    read_line(alloc, line)
}

// Adds a page.
fn add_page(read: &mut Lines, entry: Entry) -> Result<(), AllocError>
    ensures { OnOk result ((said : List Said) → Holds said read.old → Holds (said ++ Page entry ∷ []) read.new) }
{
    read.pages.push(entry)?;
    Ok(())
}

// Adds an answer.
fn add_answer(read: &mut Lines, answer: Vec<u8>) -> Result<(), AllocError>
    ensures { OnOk result ((said : List Said) → Holds said read.old → Holds (said ++ Answer answer.items ∷ []) read.new) }
{
    read.answers.push(answer)?;
    Ok(())
}

// Adds what a line says, and says whether it did: not if it is neither a page's nor an answer's.
fn add_line(alloc: Global, read: &mut Lines, line: &[u8]) -> Result<bool, AllocError>
    ensures { IfOk result (λ added. MatchBool added (IsAdded read.old read.new line.now) ((read.new ≡ read.old) × SaysNothing line.now)) }
{
    let page = short_line(alloc, line)?;
    if let Some(entry) = page {
        add_page(read, entry)?;
        return Ok(true);
    }
    let answer = read_text(alloc, line)?;
    if let Some(answer) = answer {
        add_answer(read, answer)?;
        return Ok(true);
    }
    Ok(false)
}

// What whole lines say. What is after the last end of a line isn't whole.
fn lines_in(alloc: Global, text: &[u8]) -> Result<Lines, JournalFault>
    ensures { MatchResult result (λ read. IsSaidIn text.now read) (IsFaultIn text.now) }
{
    let mut read = Lines {
        pages: Vec::new(alloc),
        answers: Vec::new(alloc),
    };
    let mut rest = text;
    'lines: while let Some((line, after)) = cut_line(rest) {
        let added = add_line(alloc, &mut read, line)?;
        if !added {
            return Err(JournalFault::Line(read.pages.len() + read.answers.len() + 2));
        }
        rest = after;
    }
    Ok(read)
}

// What a text says as a journal of this first line has it, without a zero.
fn read_said(alloc: Global, text: &[u8], first: &[u8]) -> Result<StoppedRun, JournalFault>
    ensures is { IfOk result (λ run. (said : List Said) × IsJournal text.now first.now said × IsRunOf said run) }
    ensures back { (said : List Said) → AreWritten said → Begins (first.now ++ lines said []) text.now
        → MatchResult result (λ run. (read : List Said) × IsJournal text.now first.now read × StartsWith said read × IsRunOf read run) (λ fault. fault ≡ Memory) }
    ensures version { result ≡ Err Version → IsOther text.now first.now × (¬ Begins text.now version) }
    ensures starts { result ≡ Err Starts → IsOther text.now first.now × Begins text.now version }
    ensures line { (line : ℕ) → result ≡ Err (Line line) → IsFirstBad text.now first.now line }
    ensures entry { result ≡ Err EntryFault → HasUnwritten text.now first.now }
{
    let rest = after_first(text, first)?;
    let read = lines_in(alloc, rest)?;
    let Lines { pages, answers } = read;
    let made = index_of(alloc, pages)?;
    if made.is_whole {
        Ok(StoppedRun {
            pages: made.index,
            answers,
        })
    } else {
        Err(JournalFault::Entry)
    }
}

// What is before the first zero.
fn before_zero(bytes: &[u8]) -> &[u8]
    ensures { result.now ≡ before_zero bytes.now }
{
    match memchr(0, bytes) {
        Some(at) => &bytes[..at],
        None => bytes,
    }
}

/// The pages and the answers of a journal that begins with this line, by whole lines: what is after the last end of a line is of a write
/// that wasn't finished. Nor does anything count from the first zero on, which is a byte that the disk lost. Of several pages of one
/// address the last counts.
pub fn read_journal(alloc: Global, bytes: &[u8], first: &[u8]) -> Result<StoppedRun, JournalFault>
    ensures is { IfOk result (λ run. (said : List Said) × IsJournal (before_zero bytes.now) first.now said × IsRunOf said run) }
    ensures back { (said : List Said) → AreWritten said → Begins (first.now ++ lines said []) (before_zero bytes.now)
        → MatchResult result (λ run. (read : List Said) × IsJournal (before_zero bytes.now) first.now read × StartsWith said read × IsRunOf read run) (λ fault. fault ≡ Memory) }
    // Whatever a crash at any moment leaves of a journal, of which nothing was brought onto the disk: a front of its lines is read.
    ensures crash { (start : AddressText) (others : List AddressText) (said : List Said) → IsAddress start → first.now ≡ first_line start others → AreWritten said
        → Holed (first.now ++ lines said []) bytes.now
        → MatchResult result (λ run. (read : List Said) × StartsWith said read × IsRunOf read run) (λ fault. fault ≡ Memory) }
    ensures version { result ≡ Err Version → IsOther (before_zero bytes.now) first.now × (¬ Begins (before_zero bytes.now) version) }
    ensures starts { result ≡ Err Starts → IsOther (before_zero bytes.now) first.now × Begins (before_zero bytes.now) version }
    ensures line { (line : ℕ) → result ≡ Err (Line line) → IsFirstBad (before_zero bytes.now) first.now line }
    ensures entry { result ≡ Err EntryFault → HasUnwritten (before_zero bytes.now) first.now }
{
    read_said(alloc, before_zero(bytes), first)
}

/// What is wrong with a journal, for a person. The error is that memory ran out.
pub fn reason(alloc: Global, fault: JournalFault) -> Result<String, AllocError>
    ensures { IfOk result (λ text. reason_of fault ≡ Some (string_bytes text)) }
{
    match fault {
        JournalFault::Version => String::from_str(alloc, "is of another version"),
        JournalFault::Starts => String::from_str(alloc, "is of other STARTs"),
        JournalFault::Line(line) => format!(in alloc; "line {line} is damaged"),
        JournalFault::Entry => String::from_str(alloc, "has an entry that isn't written"),
        JournalFault::Memory => Err(AllocError),
    }
}
