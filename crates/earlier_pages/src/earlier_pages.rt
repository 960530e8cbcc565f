//! What an earlier run left in a folder.
ghost use Rattle.std.specs.Prelude.{◌≡◌, IfSome};
ghost use Rattle.mirror_index.specs.Indexes.{HasThis};

use crate::change_time::{changed_at, shows_changes};
use crate::earlier_page::{EarlierPage, FoundFile};
use address::Address;
use mirror_index::{Entry, Mark, MirrorIndex};
use std::alloc::Global;
use std::fs::{File, Files, Metadata};
use std::marker::Model;

/// The pages of an earlier run, by the index that it left in their folder.
pub struct EarlierPages {
    alloc: Global,
    folder: String,
    index: MirrorIndex,
}

// Written by hand: a user that drops one proves a call, and nothing about its fields.
impl Drop for EarlierPages {
    fn drop(self) {
        let EarlierPages {
            alloc: _alloc,
            folder: _folder,
            index: _index,
        } = self;
    }
}

// Contracts see what the index says.
impl Model for EarlierPages {
    ghost use Rattle.std.specs.Prelude.{List};
    ghost use Rattle.mirror_index.specs.Entries.{Entry};

    ghost Value = { List Entry };

    ghost view = { λ p. p.index };
}

// Whether what is found at a path may be the file of an entry: it has as many bytes, and wasn't changed since if the entry says when it
// was changed last.
fn may_be_of(found: &Metadata, entry: &Entry) -> bool {
    if !found.is_file() || found.len() != entry.size() {
        return false;
    }
    match entry.mark() {
        Mark::Digest(_) => true,
        Mark::Changed(time) => shows_changes(time) && changed_at(found) == Some(time),
    }
}

// The file at a path, if it may be that of an entry. A link isn't followed, and nothing but a file is opened.
fn file_at<R: Files>(rt: &R, path: &str, entry: &Entry) -> Option<R::File> {
    let found = rt.symlink_metadata(path).ok()?;
    if may_be_of(&found, entry) {
        File::open(rt, path).ok()
    } else {
        None
    }
}

impl EarlierPages {
    /// Those of this index, whose files are below this folder.
    pub fn new(alloc: Global, folder: String, index: MirrorIndex) -> EarlierPages
        ensures { result ≡ index }
    {
        EarlierPages {
            alloc,
            folder,
            index,
        }
    }

    /// The index.
    pub fn index(&self) -> &MirrorIndex
        ensures { result.now ≡ self.now }
    {
        &self.index
    }

    // The file of an entry's name with this before it and this ending, if it may be the entry's.
    fn file<R: Files>(
        &self,
        rt: &R,
        entry: &Entry,
        before: &str,
        ending: &str,
    ) -> Option<FoundFile<R::File>> {
        let folder = self.folder.as_str();
        let name = entry.name();
        let path = format!(in self.alloc; "{folder}/{before}{name}{ending}").ok()?;
        let opened = file_at(rt, path.as_str(), entry)?;
        Some(FoundFile {
            path,
            is_own: before.is_empty() && ending.is_empty(),
            opened,
        })
    }

    /// The page of an address, if one was kept and its file has as many bytes as it had, and wasn't changed since if the entry says when it
    /// was changed last; otherwise who reads its bytes finds out whether they are the same. Its file is what was kept of it before its links
    /// were changed, beside it or else in the program's own directory, or else the one of its own name; if several have so many bytes, the
    /// next is its other. What can't be opened isn't there.
    pub fn page<R: Files>(&self, rt: &R, at: &Address) -> Option<EarlierPage<'_, R::File>>
        ensures { IfSome result (λ page. HasThis self.now at.now page.entry) }
    {
        let entry = self.index.entry(at)?;
        let own = self.file(rt, entry, "", "");
        let hidden = self.file(rt, entry, ".wgetr%orig/", "");
        match (self.file(rt, entry, "", ".orig"), hidden) {
            (Some(beside), Some(hidden)) => Some(EarlierPage::new(
                self.alloc,
                entry,
                beside,
                Some(hidden),
                own,
            )),
            (Some(file), None) | (None, Some(file)) => {
                Some(EarlierPage::new(self.alloc, entry, file, own, None))
            }
            (None, None) => Some(EarlierPage::new(self.alloc, entry, own?, None, None)),
        }
    }
}
