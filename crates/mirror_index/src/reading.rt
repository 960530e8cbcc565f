//! Reading an index, and writing one.
ghost use Rattle.std.specs.Prelude.{◌≡◌, ◌≢◌, ◌++◌, ◌+◌, ◌∷◌, [], ℕ, List, Err, IfOk, IfSome, IsTrue, ◌↔◌, MatchBool, MatchOption, MatchResult, OnErr, OnOk, Some, length};
ghost use Rattle.std.specs.Io.KnownBytes.{Appends};
ghost use Rattle.streams.specs.Streams.{AppendsFront};
ghost use Rattle.mirror_index.specs.Entries.{Entry, IsEntry, entry_line};
ghost use Rattle.mirror_index.specs.Indexes.{IsFirstBad, IsIndex, IsOther, end_text, first_line, index_text, last_line, lines};
ghost use Rattle.mirror_index.specs.inner.Steps.{IsAdded, MayNot, Stepped};
ghost use Rattle.mirror_index.specs.declared.reading.IndexFault.TheVariants.{Line, Memory, Version};

use crate::cut::cut_at;
use crate::entry::{Entry, MAX_LINE};
use crate::index::MirrorIndex;
use crate::line::{entry_line, read_line};
use std::alloc::{AllocError, Global};
use std::io::Write;
use streams::write_text;

/// The most bytes of an index that is read.
pub const MAX_INDEX: usize = 1 << 30;

/// Why a text is no index.
#[derive(Clone, Copy, PartialEq, Eq, Debug)]
pub enum IndexFault {
    /// It isn't one of this version.
    Version,
    /// This line is the first that none has.
    Line(usize),
    /// Memory ran out.
    Memory,
}

impl From<AllocError> for IndexFault {
    ghost use Rattle.std.specs.Prelude.{◌≡◌};
    ghost use Rattle.mirror_index.specs.declared.reading.IndexFault.TheVariants.{Memory};

    ghost from_gives = { λ e fault. fault ≡ Memory };

    fn from(_error: AllocError) -> IndexFault {
        IndexFault::Memory
    }
}

/// Why an index wasn't written.
#[derive(Clone, Copy, PartialEq, Eq, Debug)]
pub enum IndexWriteFault {
    /// A write failed.
    Device,
    /// Memory ran out. Nothing was written.
    Memory,
}

const FIRST_LINE: &[u8] = b"wgetr-index 1";

// What follows of a text.
enum Step<'a> {
    // An entry, which was added, and this after it.
    More(&'a [u8]),
    // The last line, and nothing after it.
    End,
    // Neither.
    Bad,
}

// Whether a line is the last one of so many entries.
fn is_last(alloc: Global, line: &[u8], count: usize) -> Result<bool, AllocError>
    ensures { IfOk result (λ is. IsTrue is ↔ (line.now ≡ last_line count)) }
{
    let last = format!(in alloc; "end {count}")?;
    Ok(line == last.as_bytes())
}

// The line of an entry, or none if it isn't one, or too long.
fn short_line(alloc: Global, line: &[u8]) -> Result<Option<Entry>, AllocError>
    ensures is { IfOk result (λ entry. IfSome entry (λ e. line.now ≡ entry_line e)) }
    ensures back { IfOk result (λ entry. (e : Entry) → IsEntry e → line.now ≡ entry_line e → entry ≡ Some e) }
{
    if line.len() > MAX_LINE {
        return Ok(None);
    }
    read_line(alloc, line)
}

// Adds the entry of a line, and says whether it did.
fn add_line(alloc: Global, index: &mut MirrorIndex, line: &[u8]) -> Result<bool, AllocError>
    ensures { IfOk result (λ added. MatchBool added (IsAdded index.old index.new line.now) ((index.new ≡ index.old) × MayNot index.old line.now)) }
{
    let read = short_line(alloc, line)?;
    match read {
        Some(entry) => index.add(alloc, entry),
        None => Ok(false),
    }
}

// What follows of a text after so many entries. A line that is an entry's isn't the last.
fn next_step<'a>(
    alloc: Global,
    index: &mut MirrorIndex,
    rest: &'a [u8],
) -> Result<Step<'a>, AllocError>
    ensures { IfOk result (λ step. Stepped index.old index.new rest.now step) }
{
    let Some((line, after)) = cut_at(b'\n', rest) else {
        return Ok(Step::Bad);
    };
    let count = index.len();
    if after.is_empty() {
        let ends = is_last(alloc, line, count)?;
        if ends {
            return Ok(Step::End);
        }
        return Ok(Step::Bad);
    }
    let added = add_line(alloc, index, line)?;
    if added {
        return Ok(Step::More(after));
    }
    Ok(Step::Bad)
}

// Whether a line is the first of an index.
fn is_first_line(line: &[u8]) -> bool
    ensures { IsTrue result ↔ (line.now ≡ first_line) }
{
    line == FIRST_LINE
}

// What follows the first line, if that is an index's.
fn after_first(bytes: &[u8]) -> Option<&[u8]>
    ensures { MatchOption result (IsOther bytes.now) (λ rest. bytes.now ≡ first_line ++ 10 ∷ rest.now) }
{
    let Some((line, rest)) = cut_at(b'\n', bytes) else {
        return None;
    };
    if !is_first_line(line) {
        return None;
    }
    Some(rest)
}

/// Reads an index. What was written is read back as exactly its entries, in order; a fault is the first line that no index has.
pub fn read_index(alloc: Global, bytes: &[u8]) -> Result<MirrorIndex, IndexFault>
    ensures is { IfOk result (λ index. (bytes.now ≡ index_text index) × IsIndex index) }
    ensures version { result ≡ Err Version → IsOther bytes.now }
    ensures line { (line : ℕ) → result ≡ Err (Line line) → IsFirstBad bytes.now line }
    ensures back { (entries : List Entry) → IsIndex entries → bytes.now ≡ index_text entries → MatchResult result (λ index. index ≡ entries) (λ fault. fault ≡ Memory) }
{
    let Some(first) = after_first(bytes) else {
        return Err(IndexFault::Version);
    };
    let mut index = MirrorIndex::new(alloc);
    let mut rest = first;
    'lines: loop {
        let step = next_step(alloc, &mut index, rest)?;
        match step {
            Step::More(after) => rest = after,
            Step::End => return Ok(index),
            Step::Bad => return Err(IndexFault::Line(index.len() + 2)),
        }
    }
}

// Adds the lines of entries.
fn push_lines(alloc: Global, text: &mut Vec<u8>, entries: &[Entry]) -> Result<(), AllocError>
    ensures { OnOk result (text.new.items ≡ text.old.items ++ lines entries.now []) }
{
    let mut rest = entries;
    'entries: while let Some((entry, later)) = rest.split_first() {
        let line = entry_line(alloc, entry)?;
        text.extend_from_slice(line.as_slice())?;
        text.push(b'\n')?;
        rest = later;
    }
    Ok(())
}

// The text of an index of these entries.
fn text_of(alloc: Global, entries: &[Entry]) -> Result<Vec<u8>, AllocError>
    ensures { IfOk result (λ text. text.items ≡ index_text entries.now) }
{
    let mut text = Vec::new(alloc);
    text.extend_from_slice(FIRST_LINE)?;
    text.push(b'\n')?;
    push_lines(alloc, &mut text, entries)?;
    let count = entries.len();
    let last = format!(in alloc; "end {count}\n")?;
    text.extend_from_slice(last.as_bytes())?;
    Ok(text)
}

/// Writes an index, and doesn't flush it. After a fault of the writer a front of it was written, which no index is.
pub fn write_index<W: Write>(
    alloc: Global,
    writer: &mut W,
    index: &MirrorIndex,
) -> Result<(), IndexWriteFault>
    ensures written { OnOk result (Appends (W.contents writer.old) (W.contents writer.new) (index_text index.now)) }
    ensures part { OnErr result (AppendsFront (W.contents writer.old) (W.contents writer.new) (index_text index.now)) }
    // What is written is read back as these entries.
    ensures index { IsIndex index.now }
{
    let entries = index.entries();
    match text_of(alloc, entries) {
        Ok(text) => match write_text(writer, text.as_slice()) {
            Ok(()) => Ok(()),
            Err(_) => Err(IndexWriteFault::Device),
        },
        Err(_) => Err(IndexWriteFault::Memory),
    }
}
