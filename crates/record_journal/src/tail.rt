//! The end of a journal, where entries are added.
ghost use Rattle.std.specs.Prelude.{◌≡◌, true, false};
ghost use Rattle.record_journal.specs.inner.Tails.{AddsToTail};

use std::fs::OpenFile;
use std::io::Write;
use streams::write_text;

/// What became of an entry.
#[derive(Clone, Copy, PartialEq, Eq)]
pub(crate) enum Added {
    /// It is there whole.
    Whole,
    /// It doesn't, and nothing more will be added.
    Failed,
    /// Nothing is added since an entry before it failed.
    Closed,
}

/// The end of a journal. Nothing is added after an entry that isn't whole.
#[derive(Drop)]
pub(crate) struct Tail<F: Write + OpenFile + Drop> {
    pub(crate) file: F,
    // How many bytes the first line and the whole entries have.
    pub(crate) whole: u64,
    pub(crate) is_open: bool,
}

impl<F: Write + OpenFile + Drop> Tail<F> {
    /// Adds an entry. If the file takes only a front of it, the file is cut to what is whole, and nothing is added any more.
    pub(crate) fn append(&mut self, entry: &[u8]) -> Added
        ensures { AddsToTail F.contents self.old entry.now result self.new }
    {
        if !self.is_open {
            return Added::Closed;
        }
        let Some(whole) = self.whole.checked_add(entry.len() as u64) else {
            self.is_open = false;
            return Added::Failed;
        };
        if write_text(&mut self.file, entry).is_err() {
            self.is_open = false;
            // If it can't be cut, what isn't whole is passed over when it is read.
            let _ = self.file.set_len(self.whole);
            return Added::Failed;
        }
        self.whole = whole;
        Added::Whole
    }
}
