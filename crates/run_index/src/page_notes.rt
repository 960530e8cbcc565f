//! What one worker notes of what it received, for the run's journal and its index.
use crate::index_run::{BegunRun, IndexRun};
use crate::journal::JOURNAL;
use address::Address;
use earlier_pages::{changed_at, shows_changes};
use earlier_runs::IndexNote;
use mirror_index::{Entry, Mark};
use mirror_upkeep::{is_anothers, push_answer, push_entry};
use program_io::SharedFailures;
use std::alloc::{AllocError, Global};
use std::fs::Files;
use std::io;
use std::io::Write;
use std::sync::{Arc, Wait};
use streams::Lock;

/// What one worker notes of what it received. It shares once what the run was begun with, and keeps the room for a path and for lines: a
/// page takes no lock for these, and mostly no memory.
pub struct PageNotes<'a, F: Drop> {
    alloc: Global,
    index: &'a IndexRun<F>,
    // None if no run was begun.
    begun: Option<Arc<BegunRun>>,
    // The path of the last page's file.
    path: String,
    // Lines that the journal hasn't yet: it begins once the run has a directory of its own.
    lines: Vec<u8>,
}

// Written by hand: a user that drops one proves a call, and nothing about its fields.
impl<'a, F: Drop> Drop for PageNotes<'a, F> {
    fn drop(self) {
        let PageNotes {
            alloc: _alloc,
            index: _index,
            begun: _begun,
            path: _path,
            lines: _lines,
        } = self;
    }
}

// Makes it the path of the file of this name below a folder.
fn set_path(path: &mut String, folder: &str, name: &str) -> Result<(), AllocError> {
    path.clear();
    path.push_str(folder)?;
    path.push_str("/")?;
    path.push_str(name)
}

// By what one sees later that a page's file has the bytes of its body: by what it is known, or when the file of this name was changed last,
// whose path is in `path` then. None if nothing is known and the page has no file yet, or the disk keeps no more than seconds.
fn mark_of<R: Files>(
    rt: &R,
    path: &mut String,
    folder: &str,
    name: Option<&str>,
    known: Option<Mark>,
) -> io::Result<Option<Mark>> {
    if known.is_some() {
        return Ok(known);
    }
    let Some(name) = name else {
        return Ok(None);
    };
    set_path(path, folder, name)?;
    let found = rt.symlink_metadata(path.as_str())?;
    match changed_at(&found) {
        Some(time) if shows_changes(time) => Ok(Some(Mark::Changed(time))),
        _ => Ok(None),
    }
}

// The entry of a noted page, which has this name and this mark.
fn entry_of(note: IndexNote, name: String, mark: Mark) -> Entry {
    let IndexNote {
        at,
        len,
        mark: _known,
        head,
    } = note;
    Entry::new(at, name, len, mark, head)
}

impl<'a, F: Drop> PageNotes<'a, F> {
    /// What a worker of this run notes, which has begun. Takes no memory.
    pub fn new<R: Wait>(rt: &R, alloc: Global, index: &'a IndexRun<F>) -> PageNotes<'a, F> {
        PageNotes {
            alloc,
            index,
            begun: index.begun(rt),
            path: String::new(alloc),
            lines: Vec::new(alloc),
        }
    }

    /// Whether the page of an address may have this name early: not if an earlier run gave it to another page, whose file may be read yet.
    pub fn may_name(&self, at: &Address, name: &str) -> bool {
        match &self.begun {
            Some(begun) => {
                let entries = begun.earlier.pages.index().entries();
                !is_anothers(entries, begun.by_name.as_slice(), name, at)
            }
            None => true,
        }
    }

    /// The name that an earlier run gave the page of an address, if it gave it to no other page. None, too, if there is no memory for it.
    pub fn name_before(&self, at: &Address) -> Option<String> {
        let Some(begun) = &self.begun else {
            return None;
        };
        let entry = begun.earlier.pages.index().entry(at)?;
        if !self.may_name(at, entry.name()) {
            return None;
        }
        String::from_str(self.alloc, entry.name()).ok()
    }

    // Adds the lines to the journal that it hasn't yet.
    fn add_lines<R: Wait + Files<File = F>>(&mut self, rt: &R, own: &str) -> io::Result<()>
    where
        F: Write + Lock,
    {
        let added = self.index.add_line(rt, own, self.lines.as_slice());
        self.lines.clear();
        added
    }

    // Notes what was received without a file, by its text.
    fn try_note_answer<R: Wait + Files<File = F>>(
        &mut self,
        rt: &R,
        own: &str,
        text: Vec<u8>,
    ) -> io::Result<()>
    where
        F: Write + Lock,
    {
        let Some(begun) = &self.begun else {
            return Ok(());
        };
        let is_noted = begun.notes_pages();
        push_answer(self.alloc, &mut self.lines, text.as_slice())?;
        if is_noted {
            self.index.add_answer(rt, text)?;
        }
        if own.is_empty() {
            return Ok(());
        }
        self.add_lines(rt, own)
    }

    /// Notes what was received without a file, by its text; `own` is the run's own directory, or empty if it has none yet. What can't be
    /// noted is requested by the next run, too.
    pub fn note_answer<R: Wait + Files<File = F>>(
        &mut self,
        rt: &R,
        failures: &SharedFailures,
        own: &str,
        text: Vec<u8>,
    )
    where
        F: Write + Lock,
    {
        if let Err(error) = self.try_note_answer(rt, own, text) {
            failures.fail(rt, JOURNAL, &error);
        }
    }

    // Notes a page that has this name early, if it has one.
    fn try_note<R: Wait + Files<File = F>>(
        &mut self,
        rt: &R,
        own: &str,
        note: IndexNote,
        name: Option<String>,
    ) -> io::Result<()>
    where
        F: Write + Lock,
    {
        let Some(begun) = &self.begun else {
            return Ok(());
        };
        let folder = begun.folder.as_str();
        let Some(mark) = mark_of(rt, &mut self.path, folder, name.as_deref(), note.mark)? else {
            return Ok(());
        };
        let is_named = name.is_some();
        let entry = entry_of(note, name.unwrap_or(String::new(self.alloc)), mark);
        let is_noted = begun.notes_pages();
        if is_named {
            push_entry(self.alloc, &mut self.lines, &entry)?;
            self.add_lines(rt, own)?;
        }
        if is_noted {
            self.index.add_page(rt, entry)?;
        }
        Ok(())
    }

    /// Notes a page that has this name early, if it has one, for the journal and for the index; `own` is the run's own directory. A page
    /// that can't be noted is requested by the next run, too.
    pub fn note<R: Wait + Files<File = F>>(
        &mut self,
        rt: &R,
        failures: &SharedFailures,
        own: &str,
        note: IndexNote,
        name: Option<String>,
    )
    where
        F: Write + Lock,
    {
        if let Err(error) = self.try_note(rt, own, note, name) {
            failures.fail(rt, JOURNAL, &error);
        }
    }
}
