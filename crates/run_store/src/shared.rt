//! An index that several workers add to, each under a lock.
ghost use Rattle.std.specs.Prelude.{◌≡◌, ◌++◌, [], ◌∷◌, List, ℕ, true, string_bytes, OnOk};
ghost use Rattle.disk_folder.specs.Disks.{LeavesOnly};
ghost use Rattle.entry_lines.specs.Lines.{ArePlain};
ghost use Rattle.run_store.specs.Indexes.{IsIndex, StandsForEntries, LeavesFront};

use crate::Index;
use disk_folder::{Disk, DiskError};
use std::alloc::Global;

/// An index that represents entries, as long as entries are added: what is known of it whenever a lock is taken.
#[derive(Drop)]
pub struct SharedIndex<D: Disk> {
    index: Index<D>,
    ghost stands: { StandsForEntries D.tells D.opened D.seen D.named D.kept index },
}

impl<D: Disk> SharedIndex<D> {
    /// An index that was made ready.
    pub fn new(index: Index<D>) -> SharedIndex<D>
        requires { StandsForEntries D.tells D.opened D.seen D.named D.kept index }
        ensures { result.index ≡ index }
    {
        SharedIndex { index }
    }

    /// Adds an entry after those that others added, in one write.
    pub fn append(&mut self, alloc: Global, entry: &[u8]) -> Result<(), DiskError>
        requires { ArePlain entry.now }
        ensures appended { D.tells → self.old.index.is_open ≡ true → ∥ ((done : List (List ℕ)) × (added : List (List ℕ)) × IsIndex D.opened D.seen D.named D.kept self.old.index done added
            × OnOk result (IsIndex D.opened D.seen D.named D.kept self.new.index done (added ++ entry.now ∷ []))
            × LeavesOnly D.moment D.since (string_bytes self.old.index.name) self.old.index.disk self.new.index.disk (LeavesFront done (added ++ entry.now ∷ []))) ∥₁ }
    {
        match self.index.append(alloc, entry) {
            Ok(()) => Ok(()),
            Err(e) => Err(e),
        }
    }

    /// Brings the entries of all workers onto the disk.
    pub fn sync(&mut self) -> Result<(), DiskError>
        ensures synced { D.tells → self.old.index.is_open ≡ true → ∥ ((done : List (List ℕ)) × (added : List (List ℕ)) × IsIndex D.opened D.seen D.named D.kept self.old.index done added
            × OnOk result (IsIndex D.opened D.seen D.named D.kept self.new.index (done ++ added) [])
            × LeavesOnly D.moment D.since (string_bytes self.old.index.name) self.old.index.disk self.new.index.disk (LeavesFront done added)) ∥₁ }
    {
        match self.index.sync() {
            Ok(()) => Ok(()),
            Err(e) => Err(e),
        }
    }
}
