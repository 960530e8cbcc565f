//! Files that are changed side by side: each lane takes some of them, one after another.
use super::file_changes::FileChange;
use super::originals::Keeping;
use super::places::Known;
use crate::body_change::BodyChange;
use part_keeper::KeptPart;
use std::alloc::Global;
use std::fs::Files;
use std::io::Error;
use std::{io, mem};
use streams::Close;

/// How many lanes there are at most.
pub(crate) const LANES: usize = 4;

/// A file that is to have other bytes in place of its body.
#[derive(Clone, Copy)]
pub struct FileToChange<'a> {
    /// The place of its page among those that are kept.
    pub place: usize,
    /// Its name below the folder.
    pub name: &'a str,
    /// Its part, which was put.
    pub part: &'a KeptPart,
}

/// The files that have their bodies as they came, though others were to be in their places.
#[derive(Drop)]
pub struct Unchanged<'a> {
    // The name of each, and why.
    files: Vec<(&'a str, Error)>,
    has_more: bool,
}

impl<'a> Unchanged<'a> {
    // No file, or, if this is so, some that it doesn't tell of.
    pub(crate) fn none(alloc: Global, has_more: bool) -> Unchanged<'a> {
        Unchanged {
            files: Vec::new(alloc),
            has_more,
        }
    }

    // All of these, for the same reason, which is kept of the first.
    pub(crate) fn all(alloc: Global, files: &[FileToChange<'a>], error: Error) -> Unchanged<'a> {
        let mut unchanged = Unchanged::none(alloc, files.len() > 1);
        if let Some(first) = files.first() {
            unchanged.push(first.name, error);
        }
        unchanged
    }

    // The file of this name too. Without memory for the reason there are more than it tells of.
    pub(crate) fn push(&mut self, name: &'a str, error: Error) {
        self.has_more |= self.files.push((name, error)).is_err();
    }

    /// Whether there is none.
    pub fn is_empty(&self) -> bool {
        self.files.is_empty() && !self.has_more
    }

    /// Their names in the order in which they were to change, each with why: the system's error, `InvalidData` if what would be written
    /// reads otherwise, or that memory ran out. Some may be missing if memory ran out.
    pub fn reasons(&self) -> &[(&'a str, Error)] {
        self.files.as_slice()
    }
}

/// Files that lanes left as they were, to be tried once more alone: another lane may have had the room that one needs.
#[derive(Drop)]
pub(crate) struct Left<'f> {
    pub(crate) files: Vec<FileToChange<'f>>,
    // Whether there are others, which there was no memory to keep.
    pub(crate) has_more: bool,
}

impl<'f> Left<'f> {
    // No file.
    pub(crate) fn none(alloc: Global) -> Left<'f> {
        Left {
            files: Vec::new(alloc),
            has_more: false,
        }
    }

    // This one too.
    fn push(&mut self, file: FileToChange<'f>) {
        self.has_more |= self.files.push(file).is_err();
    }

    // These too.
    pub(crate) fn add(&mut self, others: &Left<'f>) {
        for file in &others.files {
            self.push(*file);
        }
        self.has_more |= others.has_more;
    }
}

/// Some of the files that are to change, and a directory for what is to take their places.
// The disk has a handle here whose type is known, since a lane is sent to a thread.
#[derive(Drop)]
pub struct ChangeLane<'a, 'f> {
    disk: &'a HostRuntime,
    alloc: Global,
    folder: &'a str,
    dir: String,
    files: &'a [FileToChange<'f>],
    keeping: &'a Keeping,
    // The directory of hidden bodies that was last found or made.
    known: Known,
    left: Left<'f>,
    // Whether its files were gone through.
    is_done: bool,
}

impl<'a, 'f> ChangeLane<'a, 'f> {
    // These files below a folder of this disk, of which bodies are kept so, and a directory that is there.
    pub(crate) fn new(
        disk: &'a HostRuntime,
        alloc: Global,
        folder: &'a str,
        dir: String,
        files: &'a [FileToChange<'f>],
        keeping: &'a Keeping,
    ) -> ChangeLane<'a, 'f> {
        ChangeLane {
            disk,
            alloc,
            folder,
            dir,
            files,
            keeping,
            known: Known::nothing(alloc),
            left: Left::none(alloc),
            is_done: false,
        }
    }

    // Has a file have what is to be in place of its body.
    fn change_file<C: BodyChange>(
        &mut self,
        file: &FileToChange<'_>,
        change: &C,
    ) -> io::Result<()> {
        let originals = self.keeping.place_of(file.name)?;
        let made = FileChange::new(self.alloc, self.folder, self.dir.as_str(), file, originals)?;
        made.finish(self.disk, self.alloc, self.folder, &mut self.known, change)
    }

    /// Has each of its files have what is to be in place of its body, unless that was done before. Opens two files at a time at most.
    pub fn run<C: BodyChange>(&mut self, change: &C) {
        if self.is_done {
            return;
        }
        self.is_done = true;
        let files = self.files;
        for file in files {
            if self.change_file(file, change).is_err() {
                self.left.push(*file);
            }
        }
    }

    // The same, and then its directory is removed. Gives the files that were left as they were.
    pub(crate) fn finish<C: BodyChange>(mut self, change: &C) -> Left<'f> {
        self.run(change);
        let _ = self.disk.remove_dir(self.dir.as_str());
        let ChangeLane { left, .. } = self;
        left
    }
}

/// Who goes through lanes, perhaps several side by side.
pub trait ChangeCrew {
    /// Has [`ChangeLane::run`] called at each lane, in any order, with what files are to have. A lane at which it isn't called is gone
    /// through after it.
    fn run_lanes(&self, lanes: &mut [ChangeLane<'_, '_>]);
}
