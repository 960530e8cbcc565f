//! What keeps a body that is in a file already.
ghost use Rattle.std.specs.Prelude.{◌≡◌, IfSome};
ghost use Rattle.part_keeper.specs.declared.part.Standing.TheVariants.{Named, Whole};

use crate::part::{Standing, part_path};
use crate::part_counter::PartCounter;
use crate::parts_dir::{PartsDir, WorkerDir};
use std::alloc::Global;
use std::fs::{Files, Metadata, OpenFile};
use std::io;
use std::os::unix::fs::MetadataExt;
use std::sync::Wait;
use streams::{Close, Lock};

// By what the system knows a file: its disk, and its number there.
#[derive(Clone, Copy, PartialEq, Eq)]
struct FileId {
    dev: u64,
    ino: u64,
}

// That of the file of which this was found.
fn id_of(found: &Metadata) -> FileId {
    FileId {
        dev: found.dev(),
        ino: found.ino(),
    }
}

// A file that stays at its path.
#[derive(Drop)]
struct StayingFile {
    path: String,
    id: FileId,
}

impl StayingFile {
    // Whether it is still there.
    fn is_there<R: Files>(&self, rt: &R) -> bool {
        match rt.symlink_metadata(self.path.as_str()) {
            Ok(found) => id_of(&found) == self.id,
            Err(_) => false,
        }
    }
}

/// Makes parts of files that are there already. Either the file has the name that its page is to have, and stays as it is, or its part is a
/// further name of it (a hard link), so that nothing is copied. On a disk that has no such names it makes none.
pub struct PartLinker<'a, R: Files> {
    rt: &'a R,
    alloc: Global,
    parts: &'a PartsDir<R::File>,
    // The path of the run's directory; empty before the first part.
    dir: String,
    worker: u32,
    number: u32,
    // The file of the last part, if it stays where it is.
    staying: Option<StayingFile>,
}

// By hand: who drops one proves a call, and nothing of what it holds.
impl<'a, R: Files> Drop for PartLinker<'a, R> {
    fn drop(self) {
        let PartLinker {
            rt: _rt,
            alloc: _alloc,
            parts: _parts,
            dir: _dir,
            worker: _worker,
            number: _number,
            staying: _staying,
        } = self;
    }
}

impl<'a, R: Files + Wait> PartLinker<'a, R>
where
    R::File: Close + Lock,
{
    /// Makes parts of one worker below this directory. Takes no memory, and makes nothing before the first part.
    pub fn new(rt: &'a R, alloc: Global, parts: &'a PartsDir<R::File>) -> PartLinker<'a, R> {
        PartLinker {
            rt,
            alloc,
            parts,
            dir: String::new(alloc),
            worker: 0,
            number: 0,
            staying: None,
        }
    }

    // Has the worker's directory made, unless it is there.
    fn enter(&mut self) -> io::Result<()> {
        if self.dir.is_empty() {
            let WorkerDir { dir, worker } = self.parts.enter(self.rt)?;
            self.dir = dir;
            self.worker = worker;
        }
        Ok(())
    }

    // The number of the next part.
    fn next_number(&mut self) -> u32 {
        let number = self.number;
        self.number = number.saturating_add(1);
        number
    }

    // Makes a part of the open file at a path.
    fn try_link(&mut self, path: &str, file: &R::File) -> io::Result<bool> {
        self.enter()?;
        let part = part_path(self.alloc, self.dir.as_str(), self.worker, self.number)?;
        self.rt.hard_link(path, part.as_str())?;
        // Another file may have taken the place of the open one meanwhile.
        let linked = self.rt.symlink_metadata(part.as_str())?;
        let opened = file.metadata()?;
        if id_of(&linked) == id_of(&opened) {
            return Ok(true);
        }
        self.rt.remove_file(part.as_str())?;
        Ok(false)
    }

    /// What counts the bytes of the open file at a path, whose part is made. None if it can't be made: then its bytes have to be copied.
    pub fn link(&mut self, path: &str, file: &R::File) -> Option<PartCounter>
        ensures { IfSome result (λ counter. counter.standing ≡ Whole) }
    {
        self.staying = None;
        let is_linked = self.try_link(path, file).unwrap_or(false);
        // What an attempt may have left is no part.
        let number = self.next_number();
        if is_linked {
            Some(PartCounter::of_part(self.worker, number, Standing::Whole))
        } else {
            None
        }
    }

    // The open file at a path, which stays there. Its part has a place to which it can be moved later.
    fn try_stay(&mut self, path: &str, file: &R::File) -> io::Result<StayingFile> {
        self.enter()?;
        let opened = file.metadata()?;
        Ok(StayingFile {
            path: String::from_str(self.alloc, path)?,
            id: id_of(&opened),
        })
    }

    /// What counts the bytes of the open file at a path, which has its page's name and stays there: it is its part, if
    /// [`PartLinker::is_in_place`] says so once it was read. None if the part would have no place to which it can be moved later.
    pub fn stay(&mut self, path: &str, file: &R::File) -> Option<PartCounter>
        ensures { IfSome result (λ counter. counter.standing ≡ Named) }
    {
        self.staying = Some(self.try_stay(path, file).ok()?);
        let number = self.next_number();
        Some(PartCounter::of_part(self.worker, number, Standing::Named))
    }

    /// Whether the last part is there, now that its file was read: if that was to stay at its path, no other has taken its place meanwhile.
    pub fn is_in_place(&self) -> bool {
        match &self.staying {
            Some(file) => file.is_there(self.rt),
            None => true,
        }
    }
}
