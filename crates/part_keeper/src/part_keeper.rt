//! What keeps bodies in files.
ghost use Rattle.std.specs.Prelude.{◌≡◌, ◌+◌, ℕ, List, length, OnOk, IfOk, OnErr};

use crate::file_time::{file_time, set_time};
use crate::part::{KeptPart, Standing, part_path};
use crate::parts_dir::{PartsDir, WorkerDir, lacks_descriptor};
use kept_bodies::{BodyKind, Keeper};
use std::alloc::{AllocError, Global};
use std::fs::{File, Files};
use std::io::{Error, Write};
use std::sync::Wait;
use std::time::SystemTime;
use std::{io, mem};
use streams::{Close, Lock};

/// How many bytes of a body are in memory before it gets a file.
const BUFFER: usize = 64 * 1024;

/// Keeps the bodies of one worker, each in a file of its own below the directory of a run's parts. A short body is written in one
/// call once it is whole, so a file is open for long only if a body is long. If there is no descriptor for a file, its body waits in
/// memory. If it can't be written for another reason, what arrives of its body is counted and not kept, and the part says so.
pub struct PartKeeper<'a, R: Files> {
    rt: &'a R,
    alloc: Global,
    parts: &'a PartsDir<R::File>,
    // The path of the run's directory; empty before the first file.
    dir: String,
    worker: u32,
    number: u32,
    buffer: Vec<u8>,
    file: Option<R::File>,
    len: u64,
    takes_times: bool,
    // When the page of the body that was begun changed, if its file is to say so.
    changed: Option<SystemTime>,
    // Why the body that was begun isn't kept.
    error: Option<Error>,
}

// By hand: who drops one proves a call, and nothing of what it holds.
impl<'a, R: Files> Drop for PartKeeper<'a, R> {
    fn drop(self) {
        let PartKeeper {
            rt: _rt,
            alloc: _alloc,
            parts: _parts,
            dir: _dir,
            worker: _worker,
            number: _number,
            buffer: _buffer,
            file: _file,
            len: _len,
            takes_times: _takes_times,
            changed: _changed,
            error: _error,
        } = self;
    }
}

impl<'a, R: Files + Wait> PartKeeper<'a, R>
where
    R::File: Close + Lock,
{
    /// Keeps the bodies of one worker below this directory. If `takes_times`, a file gets the time at which its page changed, if that is
    /// said. Takes no memory, and makes nothing before a body comes.
    pub fn new(
        rt: &'a R,
        alloc: Global,
        parts: &'a PartsDir<R::File>,
        takes_times: bool,
    ) -> PartKeeper<'a, R> {
        PartKeeper {
            rt,
            alloc,
            parts,
            dir: String::new(alloc),
            worker: 0,
            number: 0,
            buffer: Vec::new(alloc),
            file: None,
            len: 0,
            takes_times,
            changed: None,
            error: None,
        }
    }

    // The path of the body's file.
    fn path(&self) -> Result<String, AllocError> {
        part_path(self.alloc, self.dir.as_str(), self.worker, self.number)
    }

    // Makes the file of the body; the first has the worker's directory made.
    fn create(&mut self) -> io::Result<R::File>
        ensures { self.new.len ≡ self.old.len }
    {
        if self.dir.is_empty() {
            let WorkerDir { dir, worker } = self.parts.enter(self.rt)?;
            self.dir = dir;
            self.worker = worker;
        }
        let path = self.path()?;
        File::create_new(self.rt, path.as_str())
    }

    // Writes what is in memory, and then these bytes, into the file of the body, which is made if there is none.
    fn write(&mut self, bytes: &[u8]) -> io::Result<()>
        ensures { self.new.len ≡ self.old.len }
    {
        let mut file = match self.file.take() {
            Some(file) => file,
            None => self.create()?,
        };
        file.write_all(self.buffer.as_slice())?;
        self.buffer.clear();
        file.write_all(bytes)?;
        self.file = Some(file);
        Ok(())
    }

    // Takes away what is there of the body.
    fn take_away(&mut self)
        ensures { self.new.len ≡ self.old.len }
    {
        self.buffer.clear();
        self.file = None;
        if self.dir.is_empty() {
            return;
        }
        if let Ok(path) = self.path() {
            let _ = self.rt.remove_file(path.as_str());
        }
    }

    // Nothing of the body is kept any more, for this reason.
    fn lose(&mut self, error: Error)
        ensures { self.new.len ≡ self.old.len }
    {
        self.take_away();
        self.error = Some(error);
    }

    // Keeps these bytes, or nothing of the body any more. If there is no descriptor for its file they wait in memory.
    fn keep(&mut self, bytes: &[u8]) -> Result<(), AllocError>
        ensures { self.new.len ≡ self.old.len }
    {
        if self.error.is_some() {
            return Ok(());
        }
        match self.write(bytes) {
            Err(error) if lacks_descriptor(&error) && !self.dir.is_empty() => {
                drop(error);
                self.buffer.extend_from_slice(bytes)
            }
            Err(error) => {
                self.lose(error);
                Ok(())
            }
            Ok(()) => Ok(()),
        }
    }

    // Closes the file of the body, which then says when its page changed.
    fn close(&mut self) -> io::Result<()>
        ensures { self.new.len ≡ self.old.len }
    {
        match self.file.take() {
            Some(file) => {
                set_time(&file, self.changed);
                file.close()
            }
            None => Ok(()),
        }
    }

    // Has a body written later for whose file there was no descriptor.
    fn put_off(&mut self) -> Result<(), AllocError>
        ensures { self.new.len ≡ self.old.len }
    {
        let path = self.path()?;
        let bytes = mem::replace(&mut self.buffer, Vec::new(self.alloc));
        self.parts.put_off(self.rt, path, bytes, self.changed)
    }

    // The number of the reason for which the body was lost. If there is no memory for it, it isn't reported.
    fn reason(&self, error: Error) -> u32 {
        match self.parts.lose(self.rt, error) {
            Ok(number) => u32::try_from(number).unwrap_or(u32::MAX),
            Err(_) => u32::MAX,
        }
    }

    // Ends the body. What is there of it then.
    fn end(&mut self) -> Result<Standing, AllocError>
        ensures { self.new.len ≡ self.old.len }
    {
        self.keep(&[])?;
        if self.error.is_some() {
            return Ok(Standing::Lost);
        }
        if self.file.is_none() {
            self.put_off()?;
            return Ok(Standing::Waiting);
        }
        match self.close() {
            Ok(()) => Ok(Standing::Whole),
            Err(error) => {
                self.lose(error);
                Ok(Standing::Lost)
            }
        }
    }
}

impl<'a, R: Files + Wait> Keeper for PartKeeper<'a, R>
where
    R::File: Close + Lock,
{
    type Kept = KeptPart;

    ghost use Rattle.part_keeper.specs.Parts.{holds_received};

    ghost holds = { holds_received };

    ghost begun = { λ keeper bytes. length bytes ≡ keeper.len };

    fn begin(&mut self) {
        if self.file.is_some() {
            self.take_away();
        }
        self.buffer.clear();
        self.changed = None;
        self.error = None;
        self.len = 0;
    }

    fn note_changed(&mut self, last_modified: Option<&[u8]>) {
        self.changed = file_time(self.takes_times, last_modified);
    }

    fn add(&mut self, piece: &[u8]) -> Result<(), AllocError> {
        let Some(len) = self.len.checked_add(piece.len() as u64) else {
            return Err(AllocError);
        };
        self.len = len;
        if self.file.is_none() && self.error.is_none() && len <= BUFFER as u64 {
            return self.buffer.extend_from_slice(piece);
        }
        self.keep(piece)
    }

    fn finish(&mut self, kind: BodyKind) -> Result<KeptPart, AllocError> {
        let standing = self.end()?;
        let mut part = KeptPart {
            worker: self.worker,
            number: self.number,
            kind,
            len: self.len,
            is_received: true,
            standing,
        };
        self.number = self.number.saturating_add(1);
        if let Some(error) = self.error.take() {
            part.number = self.reason(error);
        }
        Ok(part)
    }

    fn empty(&mut self) -> Result<KeptPart, AllocError> {
        Ok(KeptPart {
            worker: self.worker,
            number: self.number,
            kind: BodyKind::Other,
            len: 0,
            is_received: true,
            standing: Standing::Absent,
        })
    }
}
