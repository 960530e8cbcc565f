//! A journal to which lines are added.
ghost use Rattle.std.specs.Prelude.{◌≡◌, ◌≢◌, ◌⊎◌, ◌++◌, List, ℕ, Option, None, IfOk, OnOk, OnErr, true, false, string_bytes, is_some};
ghost use Rattle.disk_folder.specs.Disks.{LeavesOnly};
ghost use Rattle.run_journal.specs.Written.{IsMade, IsWritten, LeavesText, Writes, added_of};
ghost use Rattle.run_journal.specs.declared.journal.Adding.TheVariants.{Added, Nothing};

use disk_folder::{Disk, DiskError};
use std::alloc::Global;

/// What became of a line.
#[derive(Clone, Copy, Debug, PartialEq, Eq)]
pub enum Adding {
    /// It was added.
    Added,
    /// It wasn't: nothing is added any more, or another run that is at work has its journal there.
    Nothing,
}

/// A journal, which begins as soon as its first line is added. What was left at its place is held by an `L` until then.
#[derive(Drop)]
pub struct Journal<L: Drop> {
    alloc: Global,
    name: String,
    // Whether lines are added.
    is_open: bool,
    // Whether its own file has its name.
    is_placed: bool,
    // What it begins with. Nothing once it is placed.
    front: Vec<u8>,
    // What holds the one that was left at its place. None once it is placed.
    left: Option<L>,
}

// Makes a file of these bytes, which is open, and held before anybody else knows its name.
fn make_part<D: Disk>(disk: &mut D, part: &str, bytes: &[u8]) -> Result<(), DiskError>
    ensures made { D.tells → OnOk result (IsMade D.opened D.held D.seen D.kept bytes.now disk.new part.now) }
    ensures any_moment { D.tells → (n : List ℕ) → n ≢ part.now → LeavesOnly D.moment D.since n disk.old disk.new (D.left disk.old n) }
    ensures others { D.tells → (n : List ℕ) (c : Option (List ℕ)) → n ≢ part.now → D.left disk.new n c → D.left disk.old n c }
{
    disk.make(part)?;
    if !disk.hold()? {
        return Err(DiskError::Name);
    }
    disk.add(bytes)
}

// Makes a file of these bytes and gives it a name, in place of what is there. It stays open and held.
fn put<D: Disk>(disk: &mut D, part: &str, name: &str, bytes: &[u8]) -> Result<(), DiskError>
    ensures written { D.tells → OnOk result (IsWritten D.opened D.held D.seen D.kept D.stale (D.left disk.old name.now) bytes.now disk.new name.now) }
    ensures any_moment { D.tells → LeavesOnly D.moment D.since name.now disk.old disk.new (LeavesText (D.left disk.old name.now) bytes.now) }
{
    if part == name {
        return Err(DiskError::Name);
    }
    make_part(disk, part, bytes)?;
    disk.rename(part, name)
}

impl<L: Drop> Journal<L> {
    /// None is kept: no line is ever added. Takes no memory.
    pub fn none(alloc: Global) -> Journal<L>
        ensures { result.is_open ≡ false }
    {
        Journal {
            alloc,
            name: String::new(alloc),
            is_open: false,
            is_placed: false,
            front: Vec::new(alloc),
            left: None,
        }
    }

    /// One of this name, which has no line yet and will begin with this text. What was left under its name is held by `left`, and removed
    /// after a run that is whole, also if this run has added nothing.
    pub fn new(alloc: Global, name: String, front: Vec<u8>, left: Option<L>) -> Journal<L>
        ensures made { (result.name ≡ name) × (result.front ≡ front) × (result.left ≡ left) }
        ensures waits { (result.is_open ≡ true) × (result.is_placed ≡ false) }
    {
        Journal {
            alloc,
            name,
            is_open: true,
            is_placed: false,
            front,
            left,
        }
    }

    // It gets its file, if it has none yet, in place of the one that was left, unless another run has its journal there by now. Whether
    // it has one.
    fn begin<D: Disk>(&mut self, disk: &mut D, part: &str) -> Result<bool, DiskError>
        ensures lives { D.tells → (text : List ℕ) (start : D) → self.old.is_open ≡ true
            → Writes D.opened D.held D.seen D.kept D.stale D.left D.moment D.since text start disk.old self.old
            → Writes D.opened D.held D.seen D.kept D.stale D.left D.moment D.since text start disk.new self.new }
        ensures begun { IfOk result (λ is_begun. is_begun ≡ true → (self.new.is_open ≡ self.old.is_open) × (self.new.is_placed ≡ true)) }
        ensures theirs { IfOk result (λ is_begun. is_begun ≡ false → self.new.is_open ≡ false) }
        ensures alone { D.tells → IfOk result (λ is_begun. is_begun ≡ true) }
        ensures shut { OnErr result (self.new.is_open ≡ false) }
        ensures found { self.old.is_placed ≡ false → is_some self.old.left ≡ false → (disk.new ≡ disk.old) ⊎ D.found_free disk.old (string_bytes self.old.name) }
        ensures begun_found { IfOk result (λ is_begun. is_begun ≡ true → self.old.is_placed ≡ false → is_some self.old.left ≡ false → D.found_free disk.old (string_bytes self.old.name)) }
        ensures held { self.new.is_placed ≡ false → self.new.left ≡ self.old.left }
        ensures name { self.new.name ≡ self.old.name }
    {
        if self.is_placed {
            return Ok(true);
        }
        if self.left.is_none() && disk.is_anothers(self.name.as_str()) {
            self.is_open = false;
            return Ok(false);
        }
        match put(disk, part, self.name.as_str(), self.front.as_slice()) {
            Ok(()) => {
                self.left = None;
                self.front = Vec::new(self.alloc);
                self.is_placed = true;
                Ok(true)
            }
            Err(e) => {
                self.is_open = false;
                Err(e)
            }
        }
    }

    // Adds a line to its file.
    fn append<D: Disk>(&mut self, disk: &mut D, line: &[u8]) -> Result<(), DiskError>
        ensures lives { (text : List ℕ) (start : D) → self.old.is_open ≡ true → self.old.is_placed ≡ true
            → Writes D.opened D.held D.seen D.kept D.stale D.left D.moment D.since text start disk.old self.old
            → Writes D.opened D.held D.seen D.kept D.stale D.left D.moment D.since (text ++ line.now) start disk.new self.new }
        ensures added { OnOk result (self.new ≡ self.old) }
        ensures shut { OnErr result (self.new.is_open ≡ false) }
        ensures held { self.new.left ≡ self.old.left }
        ensures name { (self.new.name ≡ self.old.name) × (self.new.is_placed ≡ self.old.is_placed) }
    {
        match disk.add(line) {
            Ok(()) => Ok(()),
            Err(e) => {
                self.is_open = false;
                Err(e)
            }
        }
    }

    /// Adds a line in one write. The first one makes the journal, by way of a file of the name `part`, in which nothing else may be. After
    /// an error nothing is added any more.
    pub fn add<D: Disk>(
        &mut self,
        disk: &mut D,
        part: &str,
        line: &[u8],
    ) -> Result<Adding, DiskError>
        // Whatever lines are added, and wherever it stops: a crash at any moment since the journal was new leaves under its name what was
        // left there before, or a front of the text that it began with and of all lines, each once and in order.
        ensures lives { D.tells → (text : List ℕ) (start : D)
            → Writes D.opened D.held D.seen D.kept D.stale D.left D.moment D.since text start disk.old self.old
            → Writes D.opened D.held D.seen D.kept D.stale D.left D.moment D.since (text ++ added_of result line.now) start disk.new self.new }
        ensures added { IfOk result (λ adding. adding ≡ Added → (self.new.is_open ≡ true) × (self.new.is_placed ≡ true)) }
        ensures adds { D.tells → self.old.is_open ≡ true → IfOk result (λ adding. adding ≡ Added) }
        ensures nothing { IfOk result (λ adding. adding ≡ Nothing → self.new.is_open ≡ false) }
        ensures shut { OnErr result (self.new.is_open ≡ false) }
        ensures closed { self.old.is_open ≡ false → (self.new ≡ self.old) × (disk.new ≡ disk.old) }
        // It begins only after the disk said that no other run holds what is there, unless this one holds it already.
        ensures found { self.old.is_placed ≡ false → is_some self.old.left ≡ false → (disk.new ≡ disk.old) ⊎ D.found_free disk.old (string_bytes self.old.name) }
        // What was left is held until this one has its place.
        ensures held { self.new.is_placed ≡ false → self.new.left ≡ self.old.left }
        ensures name { self.new.name ≡ self.old.name }
    {
        if !self.is_open {
            return Ok(Adding::Nothing);
        }
        match self.begin(disk, part) {
            Ok(true) => {}
            Ok(false) => return Ok(Adding::Nothing),
            Err(e) => return Err(e),
        }
        match self.append(disk, line) {
            Ok(()) => Ok(Adding::Added),
            Err(e) => Err(e),
        }
    }

    // Whether its file, or the one that was left, goes after a run that is whole.
    fn goes<D: Disk>(&self, disk: &D) -> bool
        ensures own { self.now.is_placed ≡ true → D.opened disk.now (string_bytes self.now.name) → result ≡ true }
        ensures found { self.now.is_placed ≡ true → result ≡ true → D.found_open disk.now (string_bytes self.now.name) }
        ensures left { self.now.is_placed ≡ false → result ≡ is_some self.now.left }
    {
        if self.is_placed {
            disk.is_open_at(self.name.as_str())
        } else {
            self.left.is_some()
        }
    }

    /// Has its file say just this text, if it is still at its place: the run has ended, and is gone on with by that. It is written by way of a
    /// file of the name `part`, and stays as it is if that fails. Whether it was written. Nothing is added any more.
    pub fn renew<D: Disk>(
        &mut self,
        disk: &mut D,
        part: &str,
        text: &[u8],
    ) -> Result<bool, DiskError>
        ensures written { D.tells → IfOk result (λ is_written. is_written ≡ true
            → IsWritten D.opened D.held D.seen D.kept D.stale (D.left disk.old (string_bytes self.old.name)) text.now disk.new (string_bytes self.old.name)) }
        ensures own { self.old.is_placed ≡ true → D.opened disk.old (string_bytes self.old.name) → IfOk result (λ is_written. is_written ≡ true) }
        ensures stays { IfOk result (λ is_written. is_written ≡ false → disk.new ≡ disk.old) }
        // Nothing is done unless the disk said that the file at its place is its own: it may be another run's by now.
        ensures found { (disk.new ≡ disk.old) ⊎ D.found_open disk.old (string_bytes self.old.name) }
        // At any moment a crash leaves what it might have left, or a front of the text.
        ensures any_moment { D.tells → LeavesOnly D.moment D.since (string_bytes self.old.name) disk.old disk.new (LeavesText (D.left disk.old (string_bytes self.old.name)) text.now) }
        ensures closed { self.new.is_open ≡ false }
    {
        self.is_open = false;
        if !self.is_placed || !disk.is_open_at(self.name.as_str()) {
            return Ok(false);
        }
        put(disk, part, self.name.as_str(), text)?;
        Ok(true)
    }

    /// The run has ended. If it is whole, its journal is removed: its own if that is still at its place, or the one that was left if this
    /// run has none. Then nothing is added any more. After a run that isn't whole all stays.
    pub fn end<D: Disk>(&mut self, disk: &mut D, is_whole: bool) -> Result<(), DiskError>
        ensures stays { is_whole ≡ false → (self.new ≡ self.old) × (disk.new ≡ disk.old) }
        ensures left_stays { self.old.is_placed ≡ false → is_some self.old.left ≡ false → disk.new ≡ disk.old }
        // Once it has had its place, nothing is removed unless the disk said that the file there is its own.
        ensures found { self.old.is_placed ≡ true → (disk.new ≡ disk.old) ⊎ D.found_open disk.old (string_bytes self.old.name) }
        ensures gone { D.tells → is_whole ≡ true → self.old.is_placed ≡ true → D.opened disk.old (string_bytes self.old.name)
            → OnOk result (D.seen disk.new (string_bytes self.old.name) None) }
        ensures left_gone { D.tells → is_whole ≡ true → self.old.is_placed ≡ false → is_some self.old.left ≡ true
            → OnOk result (D.seen disk.new (string_bytes self.old.name) None) }
        // At any moment a crash leaves what it might have left, or nothing.
        ensures any_moment { LeavesOnly D.moment D.since (string_bytes self.old.name) disk.old disk.new (λ c. D.left disk.old (string_bytes self.old.name) c ⊎ (c ≡ None)) }
        ensures closed { is_whole ≡ true → self.new.is_open ≡ false }
    {
        if !is_whole {
            return Ok(());
        }
        let removed = if self.goes(disk) {
            disk.remove(self.name.as_str())
        } else {
            Ok(())
        };
        self.is_open = false;
        self.left = None;
        removed
    }
}
