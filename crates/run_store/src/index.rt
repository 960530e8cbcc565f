//! An index that is open.
ghost use Rattle.std.specs.Prelude.{◌≡◌, ◌≢◌, ◌⊎◌, ◌++◌, [], ◌∷◌, List, ℕ, Option, true, false, IfOk, IfErr, OnOk, OnErr, string_bytes};
ghost use Rattle.disk_folder.specs.Disks.{LeavesOnly};
ghost use Rattle.entry_lines.specs.Lines.{ArePlain, recovered};
ghost use Rattle.run_store.specs.Indexes.{IsIndex, LeavesFront};
ghost use Rattle.run_store.specs.Recoveries.{IsReady};
ghost use Rattle.run_store.specs.Lives.{Run, read_of, MayHold, IsOpened, Passing, Lived};
ghost use Rattle.run_store.specs.Runs.{Answers, appends, syncs};

use crate::recovery::recover;
use disk_folder::{Disk, DiskError};
use entry_lines::line_of;
use std::alloc::Global;

/// An index of a run, to which entries are added. After a call that failed nothing more is added.
#[derive(Drop)]
pub struct Index<D: Disk> {
    disk: D,
    name: String,
    is_open: bool,
}

impl<D: Disk> Index<D> {
    /// The index that `recover` made ready under a name.
    pub fn new(disk: D, name: String) -> Index<D>
        ensures made { (result.disk ≡ disk) × (result.name ≡ name) × (result.is_open ≡ true) }
        ensures ready { (bytes : List ℕ) → IsReady D.opened D.seen D.named D.kept disk (string_bytes name) (recovered bytes)
            → IsIndex D.opened D.seen D.named D.kept result (recovered bytes) [] }
    {
        Index {
            disk,
            name,
            is_open: true,
        }
    }

    /// Opens the index of this name, or makes one if there is none, and gives the lines that it has. A crash in an earlier run may
    /// have left it; the lines that are whole are taken, and no others. They are written under the other name first, in which nothing
    /// else may be. An error hands the disk back.
    pub fn open(
        mut disk: D,
        alloc: Global,
        name: String,
        spare: &str,
    ) -> Result<(Index<D>, Vec<u8>), (DiskError, D)>
        requires { string_bytes name ≢ spare.now }
        ensures opened { IfOk result (λ r. IsOpened D.opened D.seen D.named D.kept D.left D.moment D.since (string_bytes name) disk r.0) }
        ensures stopped { IfErr result (λ e. Passing D.opened D.seen D.named D.kept D.left D.moment D.since (string_bytes name) disk e.1) }
        ensures lines { IfOk result (λ r. (found : Option (List ℕ)) → D.seen disk (string_bytes name) found → recovered r.1.items ≡ read_of found) }
        // Whatever runs there were, of any calls each, and at whatever moment each stopped: of each run the lines have a front of what
        // it added, each entry once, with at least those that it had synced.
        ensures lives { (runs : List Run) → Lived D.opened D.seen D.named D.kept D.left D.moment D.since (string_bytes name) runs disk
            → (found : Option (List ℕ)) → D.seen disk (string_bytes name) found → IfOk result (λ r. MayHold runs (recovered r.1.items)) }
    {
        match recover(&mut disk, alloc, name.as_str(), spare) {
            Ok(lines) => Ok((Index::new(disk, name), lines)),
            Err(e) => Err((e, disk)),
        }
    }

    /// The disk. Nothing is added any more.
    pub fn into_disk(self) -> D
        ensures { result ≡ self.disk }
    {
        let Index {
            disk,
            name: _name,
            is_open: _,
        } = self;
        disk
    }

    /// Adds an entry, in one write. After an error nothing is added.
    pub fn append(&mut self, alloc: Global, entry: &[u8]) -> Result<(), DiskError>
        requires { ArePlain entry.now }
        ensures appended { (done added : List (List ℕ)) → IsIndex D.opened D.seen D.named D.kept self.old done added
            → OnOk result (IsIndex D.opened D.seen D.named D.kept self.new done (added ++ entry.now ∷ [])) }
        // A crash at any moment of the call leaves the entries that are on the disk, and a front of the others with this one.
        ensures any_moment { (done added : List (List ℕ)) → IsIndex D.opened D.seen D.named D.kept self.old done added
            → LeavesOnly D.moment D.since (string_bytes self.old.name) self.old.disk self.new.disk (LeavesFront done (added ++ entry.now ∷ [])) }
        ensures closed { self.old.is_open ≡ false → self.new ≡ self.old }
        // A call that fails changes nothing, or nothing is added any more.
        ensures shut { OnErr result ((self.new ≡ self.old) ⊎ (self.new.is_open ≡ false)) }
        ensures name { self.new.name ≡ self.old.name }
        // It is a step of any list of calls.
        ensures step { Answers D.opened D.seen D.named D.kept D.moment D.since (λ ending. appends entry.now ending) result self.old self.new }
    {
        if !self.is_open {
            return Err(DiskError::Closed);
        }
        let line = line_of(alloc, entry)?;
        match self.disk.add(line.as_slice()) {
            Ok(()) => Ok(()),
            Err(e) => {
                self.is_open = false;
                Err(e)
            }
        }
    }

    /// Brings all entries onto the disk. After an error nothing is added.
    pub fn sync(&mut self) -> Result<(), DiskError>
        ensures synced { (done added : List (List ℕ)) → IsIndex D.opened D.seen D.named D.kept self.old done added
            → OnOk result (IsIndex D.opened D.seen D.named D.kept self.new (done ++ added) []) }
        ensures any_moment { (done added : List (List ℕ)) → IsIndex D.opened D.seen D.named D.kept self.old done added
            → LeavesOnly D.moment D.since (string_bytes self.old.name) self.old.disk self.new.disk (LeavesFront done added) }
        ensures closed { self.old.is_open ≡ false → self.new ≡ self.old }
        // A call that fails changes nothing, or nothing is added any more.
        ensures shut { OnErr result ((self.new ≡ self.old) ⊎ (self.new.is_open ≡ false)) }
        ensures name { self.new.name ≡ self.old.name }
        // It is a step of any list of calls.
        ensures step { Answers D.opened D.seen D.named D.kept D.moment D.since (λ ending. syncs ending) result self.old self.new }
    {
        if !self.is_open {
            return Err(DiskError::Closed);
        }
        // Nothing is known of what is on the disk then.
        match self.disk.sync() {
            Ok(()) => Ok(()),
            Err(e) => {
                self.is_open = false;
                Err(e)
            }
        }
    }
}
