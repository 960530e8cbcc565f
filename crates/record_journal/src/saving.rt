//! Where a run saves its answers, and what an earlier run left there.
use crate::disk_journal::DiskJournal;
use crate::held_journal::{HeldJournal, look_for_file};
use crate::journal_fault::OpenJournalFault;
use crate::saved_file::can_be_made;
use answer_notes::{Noted, Received};
use html_links::LinkRules;
use site_inputs::InputFault;
use site_records::{
    MAX_RECORD, RecordFault, RecordFront, RecordedSite, SECOND_VERSION_LINE, read_front,
    write_record,
};
use std::alloc::{AllocError, Global};
use std::fs::{File, Files};
use std::io::ErrorKind;
use std::sync::{Mutex, OnceLock, Wait};
use std::time::Clock;
use streams::{Lock, ReadInputFault, read_input};
use thiserror::Error;

/// Why a run may not save there.
#[derive(Clone, Copy, Debug, PartialEq, Eq, Error)]
pub enum SaveFault {
    /// Another run saves there, answers are there that this run would lose, or no file can be made. It is reported.
    #[error("answers can't be saved there")]
    Refused,
    /// Memory ran out.
    #[error("out of memory")]
    Memory,
}

/// Where a run saves its answers: nowhere, until it holds the file of a record. All its workers share it.
pub struct Saving<R: Files> {
    journal: OnceLock<DiskJournal<R>>,
    // What the journal had that is resumed, until it is taken.
    left: Mutex<Option<LeftRecord>>,
}

// What an earlier run left in a journal: a record, or nothing if there was no journal.
#[derive(Drop)]
struct LeftRecord {
    text: Vec<u8>,
    // Whether it is the journal of the file that is resumed, and not of another that is saved to.
    is_beside: bool,
}

// Written by hand: a user that drops one proves a call, and nothing about its fields.
impl<R: Files> Drop for Saving<R> {
    fn drop(self) {
        let Saving {
            journal: _journal,
            left: _left,
        } = self;
    }
}

// The contents of a journal, from its beginning.
fn text_of<R: Eprint + Files>(
    rt: &R,
    alloc: Global,
    held: &mut HeldJournal<R>,
) -> Result<Vec<u8>, SaveFault> {
    match read_input(alloc, held.file(), MAX_RECORD) {
        Ok(text) => Ok(text),
        Err(ReadInputFault::Memory) => Err(SaveFault::Memory),
        Err(_) => {
            let path = held.path();
            let _ = eprintln!(rt;
                "{path}: can't be read, or is longer than {MAX_RECORD} bytes; move it away, or remove it"
            );
            Err(SaveFault::Refused)
        }
    }
}

// Whether a journal is a record of version 2, or was cut within its first line.
fn is_journal(text: &[u8]) -> bool {
    text.starts_with(SECOND_VERSION_LINE) || SECOND_VERSION_LINE.starts_with(text)
}

// Reports to a person which line of a journal isn't one of a record, and refuses it.
fn refuse_line<R: Eprint, T>(rt: &R, path: &str, line: usize) -> Result<T, SaveFault> {
    let _ = eprintln!(rt;
        "{path}: line {line} is none of a record of version 2; mend it, or move the journal away"
    );
    Err(SaveFault::Refused)
}

// The whole entries at the front of a journal.
fn front_of<R: Eprint>(
    rt: &R,
    alloc: Global,
    path: &str,
    text: &[u8],
) -> Result<RecordFront, SaveFault> {
    if !is_journal(text) {
        return refuse_line(rt, path, 1);
    }
    match read_front(alloc, text, LinkRules::all(false)) {
        Ok(front) => Ok(front),
        Err(InputFault::Memory) => Err(SaveFault::Memory),
        Err(InputFault::Line(line) | InputFault::Address(line)) => refuse_line(rt, path, line),
    }
}

// A number with its thousands apart.
fn grouped(alloc: Global, number: usize) -> Result<String, AllocError> {
    let digits = format!(in alloc; "{number}")?;
    let mut text = String::new(alloc);
    let mut left = digits.len();
    for digit in digits.chars() {
        if left % 3 == 0 && !text.is_empty() {
            text.push(',')?;
        }
        text.push(digit)?;
        left = left.saturating_sub(1);
    }
    Ok(text)
}

// Reports to a person how many answers of a journal are taken, and how many bytes of one that isn't whole are left out.
fn report_taken<R: Eprint>(
    rt: &R,
    alloc: Global,
    path: &str,
    answers: usize,
    torn: usize,
) -> Result<(), AllocError> {
    let answers = grouped(alloc, answers)?;
    if torn == 0 {
        let _ = eprintln!(rt; "{path}: {answers} answers taken");
        return Ok(());
    }
    let torn = grouped(alloc, torn)?;
    let _ = eprintln!(rt;
        "{path}: {answers} answers taken, {torn} bytes of one that wasn't whole dropped"
    );
    Ok(())
}

// Cuts a journal to its front, and reports this to a person. One without a whole first line is a record without entries.
fn cut_to<R: Eprint>(
    rt: &R,
    alloc: Global,
    path: &str,
    text: &mut Vec<u8>,
    front: &RecordFront,
) -> Result<(), AllocError> {
    let torn = text.len().saturating_sub(front.len);
    text.truncate(front.len);
    if text.is_empty() {
        text.extend_from_slice(SECOND_VERSION_LINE)?;
    }
    report_taken(rt, alloc, path, front.site.entry_count(), torn)
}

// All bytes of the file at a path, at most this many; none if there is no file.
fn read_at<R: Files>(
    rt: &R,
    alloc: Global,
    path: &str,
    limit: usize,
) -> Result<Option<Vec<u8>>, ReadInputFault> {
    match File::open(rt, path) {
        Ok(mut file) => Ok(Some(read_input(alloc, &mut file, limit)?)),
        Err(e) if e.kind() == ErrorKind::NotFound => Ok(None),
        Err(e) if e.kind() == ErrorKind::OutOfMemory => Err(ReadInputFault::Memory),
        Err(_) => Err(ReadInputFault::Failed),
    }
}

// Whether a file is at a path that a record may replace. What none may replace is refused, and a person gets a message.
fn is_file<R: Eprint + Files>(rt: &R, saved: &str) -> Result<bool, SaveFault> {
    match look_for_file(rt, saved) {
        Ok(is_there) => Ok(is_there),
        Err(e) if e.kind() == ErrorKind::AlreadyExists => {
            let _ = eprintln!(rt;
                "{saved}: a link, a folder or a device isn't replaced; name a file"
            );
            Err(SaveFault::Refused)
        }
        Err(_) => Ok(false),
    }
}

// Refuses a file that a run would replace by a record without its answers, and reports this to a person.
fn refuse_other<R: Eprint + Files>(
    rt: &R,
    saved: &str,
    resumed: Option<&str>,
) -> Result<(), SaveFault> {
    if is_file(rt, saved)? && resumed != Some(saved) {
        let _ = eprintln!(rt;
            "{saved}: is there; resume it by --resume {saved}, remove it, or save to another file"
        );
        return Err(SaveFault::Refused);
    }
    Ok(())
}

// Refuses a journal that has answers if the run goes on from nothing, and reports this to a person.
fn refuse_left<R: Eprint>(
    rt: &R,
    path: &str,
    saved: &str,
    front: &RecordFront,
) -> Result<(), SaveFault> {
    if front.site.entry_count() == 0 {
        return Ok(());
    }
    let _ = eprintln!(rt;
        "{path}: has answers of a run that was stopped; resume them by --resume {saved}, or by the file that it resumed, or remove it"
    );
    Err(SaveFault::Refused)
}

// Refuses a path at which no record can be made, and reports this to a person.
fn refuse_unmade<R: Eprint + Files>(rt: &R, alloc: Global, saved: &str) -> Result<(), SaveFault> {
    if can_be_made(rt, alloc, saved)? {
        return Ok(());
    }
    let _ = eprintln!(rt; "{saved}: no file can be made there");
    Err(SaveFault::Refused)
}

// Whether a journal is at a path. What is neither a file nor nothing is refused with a message: a link isn't followed, and
// nobody waits at a pipe.
fn is_beside<R: Eprint + Files>(rt: &R, path: &str) -> Result<bool, ReadInputFault> {
    match look_for_file(rt, path) {
        Ok(is_there) => Ok(is_there),
        Err(e) if e.kind() == ErrorKind::AlreadyExists => {
            let _ = eprintln!(rt;
                "{path}: a link, a folder or a device isn't read as a journal; remove it"
            );
            Err(ReadInputFault::Failed)
        }
        Err(_) => Err(ReadInputFault::Failed),
    }
}

// The whole entries of the journal beside a record that isn't saved to; nothing if there is no journal. One that is none is
// handed out as it is, so that its line is reported.
fn left_beside<R: Eprint + Files>(
    rt: &R,
    alloc: Global,
    saved: &str,
) -> Result<Vec<u8>, ReadInputFault> {
    let path = format!(in alloc; "{saved}.journal")?;
    if !is_beside(rt, path.as_str())? {
        return Ok(Vec::new(alloc));
    }
    let Some(mut text) = read_at(rt, alloc, path.as_str(), MAX_RECORD)? else {
        return Ok(Vec::new(alloc));
    };
    match front_of(rt, alloc, path.as_str(), text.as_slice()) {
        Ok(front) => {
            cut_to(rt, alloc, path.as_str(), &mut text, &front)?;
            Ok(text)
        }
        Err(SaveFault::Refused) => Ok(text),
        Err(SaveFault::Memory) => Err(ReadInputFault::Memory),
    }
}

// Whether a note says that no response was received.
fn is_fault(note: &Noted) -> bool {
    match note {
        Noted::Page(_, received) => matches!(received, Received::Fault(_)),
        // A fault ends a chain.
        Noted::Chain(chain) => matches!(chain.hops(), [.., (_, Received::Fault(_))]),
    }
}

// Adds those of these notes that are faults, or those that aren't, each as a part of its own.
fn push_notes<'a>(
    parts: &mut Vec<&'a [Noted]>,
    notes: &'a [Noted],
    are_faults: bool,
) -> Result<(), AllocError> {
    for (at, note) in notes.iter().enumerate() {
        if is_fault(note) == are_faults {
            parts.push(&notes[at..=at])?;
        }
    }
    Ok(())
}

// The notes of a record and of what was received after it, in the order in which the first of an address counts: a fault gives way
// to what was received later.
fn parts_of<'a>(
    alloc: Global,
    record: &'a [Noted],
    later: &'a [Noted],
) -> Result<Vec<&'a [Noted]>, AllocError> {
    let mut parts = Vec::new(alloc);
    push_notes(&mut parts, record, false)?;
    parts.push(later)?;
    push_notes(&mut parts, record, true)?;
    Ok(parts)
}

// The record of a record's answers and of those of a journal that it doesn't have, or has as faults. If one of both is no record it
// is handed out as it is, so that its line is reported.
fn joined(alloc: Global, record: Vec<u8>, journal: Vec<u8>) -> Result<Vec<u8>, ReadInputFault> {
    if journal.is_empty() {
        return Ok(record);
    }
    let first = match RecordedSite::read_noted(alloc, record.as_slice(), LinkRules::all(false)) {
        Ok(first) => first,
        Err(InputFault::Memory) => return Err(ReadInputFault::Memory),
        Err(_) => return Ok(record),
    };
    drop(record);
    let more = match RecordedSite::read_noted(alloc, journal.as_slice(), LinkRules::all(false)) {
        Ok(more) => more,
        Err(InputFault::Memory) => return Err(ReadInputFault::Memory),
        Err(_) => return Ok(journal),
    };
    drop(journal);
    let parts = parts_of(alloc, first.notes(), more.notes())?;
    let mut text = Vec::new(alloc);
    match write_record(alloc, &mut text, parts.as_slice()) {
        Ok(()) => Ok(text),
        Err(RecordFault::Device | RecordFault::Memory) => Err(ReadInputFault::Memory),
    }
}

// The record at a path, of at most so many bytes, and what the journal beside it has. If one of both is missing it is the other.
fn read_with<R: Files>(
    rt: &R,
    alloc: Global,
    path: &str,
    limit: usize,
    journal: Vec<u8>,
) -> Result<Vec<u8>, ReadInputFault> {
    match read_at(rt, alloc, path, limit)? {
        Some(record) => joined(alloc, record, journal),
        None if journal.is_empty() => Err(ReadInputFault::Failed),
        None => Ok(journal),
    }
}

// The same of a record that isn't saved to.
fn read_beside<R: Eprint + Files>(
    rt: &R,
    alloc: Global,
    path: &str,
    limit: usize,
) -> Result<Vec<u8>, ReadInputFault> {
    let journal = left_beside(rt, alloc, path)?;
    read_with(rt, alloc, path, limit, journal)
}

impl From<AllocError> for SaveFault {
    fn from(_: AllocError) -> SaveFault {
        SaveFault::Memory
    }
}

impl<R: Files> Saving<R> {
    /// Nowhere. Takes no memory.
    pub fn new() -> Saving<R> {
        Saving {
            journal: OnceLock::new(),
            left: Mutex::new(None),
        }
    }

    /// The journal of the run, if one is held.
    pub fn journal(&self) -> Option<&DiskJournal<R>> {
        self.journal.get()
    }

    /// Holds the file of a record, so that no other run saves there, and begins its journal. Answers that are left in the journal
    /// stay there. `resumed` is the file that the run goes on from, if there is one: this, or another, and then what the journal has
    /// is resumed too. The run is refused if it would lose that, or a file that is there, and if the file is a link, a folder or a
    /// device. If the journal can't be opened, that is reported, and the run goes on without it, unless no file can be made there
    /// at all. To be called once, before anything is requested.
    pub fn hold(
        &self,
        rt: &R,
        alloc: Global,
        saved: &str,
        resumed: Option<&str>,
    ) -> Result<(), SaveFault>
    where
        R: Wait + Clock + Eprint,
        R::File: Lock,
    {
        refuse_other(rt, saved, resumed)?;
        match HeldJournal::open(rt, alloc, saved) {
            Ok(held) => self.begin(rt, alloc, held, saved, resumed),
            Err(OpenJournalFault::Memory) => Err(SaveFault::Memory),
            Err(OpenJournalFault::Held) => {
                let _ = eprintln!(rt; "{saved}: another run saves there");
                Err(SaveFault::Refused)
            }
            Err(OpenJournalFault::Device) => {
                refuse_unmade(rt, alloc, saved)?;
                let _ = eprintln!(rt;
                    "{saved}.journal: can't be opened; answers are kept in memory, and lost if this run is killed"
                );
                Ok(())
            }
        }
    }

    // Begins a journal after what is left there.
    fn begin(
        &self,
        rt: &R,
        alloc: Global,
        mut held: HeldJournal<R>,
        saved: &str,
        resumed: Option<&str>,
    ) -> Result<(), SaveFault>
    where
        R: Wait + Clock + Eprint,
    {
        let whole = self.take_left(rt, alloc, &mut held, saved, resumed)?;
        let journal = held.begin(rt, alloc, whole);
        if !journal.is_open(rt) {
            journal.report_closed(rt);
        }
        let _ = self.journal.try_set(journal);
        Ok(())
    }

    // Keeps what is left in a journal, if it is resumed. Returns how many bytes of it stay there.
    fn take_left(
        &self,
        rt: &R,
        alloc: Global,
        held: &mut HeldJournal<R>,
        saved: &str,
        resumed: Option<&str>,
    ) -> Result<u64, SaveFault>
    where
        R: Wait + Eprint,
    {
        let mut text = text_of(rt, alloc, held)?;
        let front = front_of(rt, alloc, held.path(), text.as_slice())?;
        let Some(from) = resumed else {
            refuse_left(rt, held.path(), saved, &front)?;
            return Ok(front.len as u64);
        };
        if !held.is_new() {
            cut_to(rt, alloc, held.path(), &mut text, &front)?;
        }
        let is_beside = from == saved;
        *self.left.lock(rt) = Some(LeftRecord { text, is_beside });
        Ok(front.len as u64)
    }

    /// The record at a path, of at most so many bytes, with what the journal beside it has, and then the journal that is held: of
    /// two answers of one address, or of one origin, the first that is no fault. If the record or the journal beside it is missing it
    /// is the other. What of journals is taken is reported.
    pub fn read(
        &self,
        rt: &R,
        alloc: Global,
        path: &str,
        limit: usize,
    ) -> Result<Vec<u8>, ReadInputFault>
    where
        R: Wait + Eprint,
    {
        let left = self.left.lock(rt).take();
        match left {
            Some(
                LeftRecord {
                    text,
                    is_beside: true,
                },
            ) => read_with(rt, alloc, path, limit, text),
            Some(LeftRecord { text, .. }) => {
                let record = read_beside(rt, alloc, path, limit)?;
                joined(alloc, record, text)
            }
            None => read_beside(rt, alloc, path, limit),
        }
    }

    /// Ends the run: a journal that has no answer is removed.
    pub fn end(&self, rt: &R)
    where
        R: Wait,
    {
        if let Some(journal) = self.journal.get() {
            journal.remove_if_empty(rt);
        }
    }
}
