//! The file of a record, which gets its name when it is whole.
ghost use Rattle.std.specs.Prelude.{None};

use crate::disk_journal::DiskJournal;
use crate::held_journal::look_for_file;
use site_records::{MAX_RECORD, SECOND_VERSION_LINE};
use std::alloc::{AllocError, Global};
use std::fs::{File, Files, OpenFile};
use std::io;
use std::io::{Error, ErrorKind, Write};
use std::sync::Wait;
use streams::Close;

/// A record's file in the making. What is written goes into `SAVED.part`. When it is flushed, the entries of the run's journal
/// are added after it, all is brought onto the disk, the part gets the file's name, and the journal is removed. If nothing but
/// the first line was written, the journal is that record, and gets the file's name itself. So the file is the old one or the new
/// one at any moment, and an answer is in the file or in the journal. If a call fails, the old file and the journal stay.
///
/// A link, a directory or a device isn't replaced.
pub struct SavedFile<'a, R: Wait + Eprint + Files> {
    rt: &'a R,
    path: String,
    part: String,
    file: Option<R::File>,
    // Whether a write failed for good.
    is_lost: bool,
    journal: Option<&'a DiskJournal<R>>,
}

// Written by hand: a user that drops one proves a call, and nothing about its fields.
impl<'a, R: Wait + Eprint + Files> Drop for SavedFile<'a, R> {
    fn drop(self) {
        let SavedFile {
            rt: _rt,
            path: _path,
            part: _part,
            file: _file,
            is_lost: _is_lost,
            journal: _journal,
        } = self;
    }
}

// Makes a new file. What a killed run left there is taken away first; a link isn't followed.
fn create_new<R: Files>(rt: &R, path: &str) -> io::Result<R::File> {
    match File::create_new(rt, path) {
        Err(e) if e.kind() == ErrorKind::AlreadyExists => {
            rt.remove_file(path)?;
            File::create_new(rt, path)
        }
        made => made,
    }
}

// Whether a record's file can be made at a path: its part is made, and taken away. One that is there was made by a run.
pub(crate) fn can_be_made<R: Files>(rt: &R, alloc: Global, path: &str) -> Result<bool, AllocError> {
    let part = format!(in alloc; "{path}.part")?;
    match File::create_new(rt, part.as_str()) {
        Ok(file) => {
            drop(file);
            let _ = rt.remove_file(part.as_str());
            Ok(true)
        }
        Err(e) => Ok(e.kind() == ErrorKind::AlreadyExists),
    }
}

// The file that is being made, which is made now if there is none.
fn opened<'a, R: Files>(
    rt: &R,
    path: &str,
    file: &'a mut Option<R::File>,
) -> io::Result<&'a mut R::File> {
    if file.is_none() {
        *file = Some(create_new(rt, path)?);
    }
    match file {
        Some(file) => Ok(file),
        None => Err(Error::from(ErrorKind::NotFound)),
    }
}

// Brings a file onto the disk and closes it. Gives its length in bytes.
fn finish<F: OpenFile + Close + Drop>(file: F) -> io::Result<u64> {
    let len = file.metadata()?.len();
    file.sync_all()?;
    file.close()?;
    Ok(len)
}

impl<'a, R: Wait + Eprint + Files> SavedFile<'a, R>
where
    R::File: Close,
{
    /// The file at this path, with the run's journal beside it, if there is one. Nothing is made before the first write. Fails
    /// only if memory runs out.
    pub fn new(
        rt: &'a R,
        alloc: Global,
        path: &str,
        journal: Option<&'a DiskJournal<R>>,
    ) -> Result<SavedFile<'a, R>, AllocError> {
        Ok(SavedFile {
            rt,
            path: String::from_str(alloc, path)?,
            part: format!(in alloc; "{path}.part")?,
            file: None,
            is_lost: false,
            journal,
        })
    }

    // Refuses to go on after a write that failed: bytes are missing in the part.
    fn writable(&self) -> io::Result<()> {
        if self.is_lost {
            return Err(Error::from(ErrorKind::BrokenPipe));
        }
        Ok(())
    }

    // Takes the part away if a write failed for good, so that a full disk isn't kept full by it.
    fn give_up(&mut self, kind: ErrorKind) {
        if kind == ErrorKind::Interrupted {
            return;
        }
        self.is_lost = true;
        self.file = None;
        let _ = self.rt.remove_file(self.part.as_str());
    }

    // Puts the part in place, or the journal if nothing else is saved.
    fn put(&self, file: R::File) -> io::Result<()> {
        let _ = look_for_file(self.rt, self.path.as_str())?;
        if file.metadata()?.len() == SECOND_VERSION_LINE.len() as u64 && self.is_journal_put()? {
            let _ = self.rt.remove_file(self.part.as_str());
            return Ok(());
        }
        self.put_part(file)
    }

    // Gives the journal the file's name, if it is the record. Returns whether it did.
    fn is_journal_put(&self) -> io::Result<bool> {
        match self.journal {
            Some(journal) => journal.become_record(
                self.rt,
                self.path.as_str(),
                SECOND_VERSION_LINE.len() as u64,
                MAX_RECORD as u64,
            ),
            None => Ok(false),
        }
    }

    // Adds the journal's entries, and gives the part the file's name.
    fn put_part(&self, mut file: R::File) -> io::Result<()> {
        if let Some(journal) = self.journal {
            journal.copy_added(self.rt, &mut file)?;
        }
        let len = finish(file)?;
        let _ = look_for_file(self.rt, self.path.as_str())?;
        self.rt.rename(self.part.as_str(), self.path.as_str())?;
        if len > MAX_RECORD as u64 {
            self.report_long(len);
        } else {
            self.drop_journal();
        }
        Ok(())
    }

    // Removes the journal: all that it has is in the file. If it stays, a later run takes from it what the file has too.
    fn drop_journal(&self) {
        if let Some(journal) = self.journal {
            journal.remove(self.rt);
        }
    }

    // Reports to a person that the file is whole, and that no run will take it.
    fn report_long(&self, len: u64) {
        let path = self.path.as_str();
        let _ = eprintln!(self.rt;
            "{path}: {len} bytes, more than the {MAX_RECORD} that can be resumed"
        );
    }
}

impl<'a, R: Wait + Eprint + Files> Write for SavedFile<'a, R>
where
    R::File: Close,
{
    ghost contents = { λ _. None };

    fn write(&mut self, bytes: &[u8]) -> io::Result<usize> {
        self.writable()?;
        let written = opened(self.rt, self.part.as_str(), &mut self.file)?.write(bytes);
        if let Err(e) = &written {
            self.give_up(e.kind());
        }
        written
    }

    fn write_all(&mut self, bytes: &[u8]) -> io::Result<()> {
        self.writable()?;
        let written = opened(self.rt, self.part.as_str(), &mut self.file)?.write_all(bytes);
        if let Err(e) = &written {
            self.give_up(e.kind());
        }
        written
    }

    /// Puts what was written in place; if nothing was, it changes nothing.
    fn flush(&mut self) -> io::Result<()> {
        self.writable()?;
        let Some(file) = self.file.take() else {
            return Ok(());
        };
        let put = self.put(file);
        if put.is_err() {
            let _ = self.rt.remove_file(self.part.as_str());
        }
        put
    }
}
