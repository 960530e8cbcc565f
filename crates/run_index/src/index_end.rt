//! What the end of a run leaves of the index, and of the files of gone pages.
use crate::gone_pages::{remove_page, split_files};
use crate::index_file::{index_at, is_absent, put_index, sight_of};
use crate::index_run::{BegunRun, Put};
use crate::index_starts::{put_starts, remove_starts, says_starts};
use mirror_index::Entry;
use mirror_upkeep::{is_anothers, is_same, joined};
use program_io::SharedFailures;
use std::alloc::{AllocError, Global};
use std::fs::Files;
use std::io;
use std::sync::Wait;
use streams::Close;

/// The end of a run that keeps an index.
#[derive(Drop)]
pub(crate) struct IndexEnd<'a> {
    pub(crate) alloc: Global,
    pub(crate) failures: &'a SharedFailures,
    /// What it was begun with.
    pub(crate) begun: &'a BegunRun,
    /// What it put.
    pub(crate) put: &'a Put,
    /// The path of the index.
    pub(crate) path: &'a str,
}

impl<'a> IndexEnd<'a> {
    // Whether an index of what is known and of what was put is of this run's STARTs alone. The file that says so is read before one looks
    // for an index: who adds other pages to that takes the file away first.
    fn is_ours<R: Files>(&self, rt: &R) -> bool {
        let begun = self.begun;
        let says = says_starts(
            rt,
            self.alloc,
            begun.folder.as_str(),
            begun.starts.as_slice(),
        );
        begun.is_ours && (says || is_absent(rt, self.path))
    }

    // Whether what this run didn't put is gone, so that it may be removed. If not, a line for a person says so.
    fn may_remove<R: Wait + Files>(&self, rt: &R) -> bool {
        if !self.put.is_sure {
            self.failures
                .say(rt, "files of gone pages stay: not all was answered\n");
            return false;
        }
        let has_gone = !self.put.gone.is_empty() || !self.put.gone_before.is_empty();
        if has_gone && !self.is_ours(rt) {
            self.failures.say(
                rt,
                "files of gone pages stay: the folder may have pages of other STARTs\n",
            );
            return false;
        }
        true
    }

    // Whether the name of an entry that the index had before is that of a known page, by which its file is judged.
    fn knows(&self, before: &Entry) -> bool {
        let known = self.begun.earlier.pages.index();
        match known.entry(before.address()) {
            Some(same) if same.name() == before.name() => true,
            _ => is_anothers(
                known.entries(),
                self.begun.by_name.as_slice(),
                before.name(),
                before.address(),
            ),
        }
    }

    // Removes the files of a gone page, as far as that is right.
    fn remove<R: Wait + Files>(
        &self,
        rt: &R,
        entry: &Entry,
        files: &[String],
    ) -> Result<(), AllocError> {
        let folder = self.begun.folder.as_str();
        remove_page(rt, self.alloc, self.failures, folder, entry, files)
    }

    // Removes the files of gone pages.
    fn remove_gone<R: Wait + Files>(&self, rt: &R) -> Result<(), AllocError> {
        let mut names = self.put.gone.as_slice();
        for entry in self.begun.earlier.pages.index().entries() {
            if let Some((files, later)) = split_files(names, entry.name()) {
                names = later;
                self.remove(rt, entry, files)?;
            }
        }
        let mut names = self.put.gone_before.as_slice();
        for entry in self.begun.before.entries() {
            if let Some((files, later)) = split_files(names, entry.name()) {
                names = later;
                if !self.knows(entry) {
                    self.remove(rt, entry, files)?;
                }
            }
        }
        Ok(())
    }

    // Has the file beside the index say of which STARTs that is, before it is put: a kill in between leaves no page of others under these. An
    // index that is there, and isn't of this run's STARTs alone, is of several from now on.
    fn note_starts<R: Files>(&self, rt: &R, own: &str) -> io::Result<()>
    where
        R::File: Close,
    {
        let folder = self.begun.folder.as_str();
        if !self.is_ours(rt) {
            return remove_starts(rt, self.alloc, folder);
        }
        if is_absent(rt, self.path) {
            put_starts(rt, self.alloc, own, folder, self.begun.starts.as_slice())?;
        }
        Ok(())
    }

    // Writes the index of what was put, and of earlier pages unless these are gone. If another run has put its own since this one began, it
    // has the pages of that, too.
    fn write<R: Files>(&self, rt: &R, own: &str, is_as_read: bool, are_gone: bool) -> io::Result<()>
    where
        R::File: Close,
    {
        let pages = &self.put.pages;
        if !is_as_read {
            if let Some(others) = index_at(rt, self.alloc, self.path)? {
                let index = joined(self.alloc, &others, pages)?;
                return put_index(rt, self.alloc, own, self.path, &index);
            }
        }
        if are_gone {
            return put_index(rt, self.alloc, own, self.path, pages);
        }
        let index = joined(self.alloc, self.begun.earlier.pages.index(), pages)?;
        put_index(rt, self.alloc, own, self.path, &index)
    }

    /// Puts the index of what was put by way of the run's own directory, after the files of gone pages were removed if they are to be. An
    /// index that says so already stays.
    pub(crate) fn put<R: Wait + Files>(&self, rt: &R, own: &str, removes: bool) -> io::Result<()>
    where
        R::File: Close,
    {
        let begun = self.begun;
        let are_gone = removes && self.may_remove(rt);
        if are_gone {
            self.remove_gone(rt)?;
        }
        let is_as_read = sight_of(rt, self.path) == begun.sight;
        let earlier = begun.earlier.pages.index();
        if is_as_read && begun.is_index_there && is_same(earlier, &self.put.pages) {
            return Ok(());
        }
        // One that couldn't be used goes first, so that the next has pages of these STARTs alone.
        if is_as_read && begun.sight.is_some() && !begun.uses_index {
            rt.remove_file(self.path)?;
        }
        self.note_starts(rt, own)?;
        self.write(rt, own, is_as_read, are_gone)
    }
}
