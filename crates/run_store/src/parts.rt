//! Bodies, each a file of its own that gets its name when it is whole.
ghost use Rattle.std.specs.Prelude.{◌≡◌, ◌≢◌, ◌⊎◌, ◌++◌, [], ◌∷◌, List, ℕ, Option, Some, None, OnOk, OnErr};
ghost use Rattle.disk_folder.specs.Disks.{LeavesOnly};
ghost use Rattle.run_store.specs.BodyRuns.{Deed, keeps, breaks, loses, names, removes, IsWriting, IsDeed, AreDeeds, LeavesWhole};
ghost use Rattle.run_store.specs.Parts.{IsBegun};
ghost use Rattle.run_store.specs.Recoveries.{IsWhole};

use disk_folder::{Disk, DiskError};

/// Begins a body in a part of this name, where nothing is.
pub fn begin<D: Disk>(disk: &mut D, part: &str) -> Result<(), DiskError>
    ensures begun { D.tells → OnOk result (IsBegun D.opened D.seen disk.new part.now []) }
    ensures others { (n : List ℕ) (bytes : List ℕ) → n ≢ part.now → IsWhole D.seen D.kept disk.old n bytes → IsWhole D.seen D.kept disk.new n bytes }
    ensures stale { (c : Option (List ℕ)) → D.stale disk.new part.now c → D.left disk.old part.now c }
    ensures any_moment { (n : List ℕ) → n ≢ part.now → LeavesOnly D.moment D.since n disk.old disk.new (D.left disk.old n) }
    ensures writing { D.tells → OnOk result (IsWriting D.opened D.seen D.kept D.left D.moment D.since part.now [] disk.old disk.new) }
{
    disk.make(part)
}

/// Adds a piece to the body that was begun.
pub fn add<D: Disk>(disk: &mut D, piece: &[u8]) -> Result<(), DiskError>
    ensures added { (part bytes : List ℕ) → IsBegun D.opened D.seen disk.old part bytes → OnOk result (IsBegun D.opened D.seen disk.new part (bytes ++ piece.now)) }
    ensures others { (part bytes n whole : List ℕ) → IsBegun D.opened D.seen disk.old part bytes → n ≢ part → IsWhole D.seen D.kept disk.old n whole → IsWhole D.seen D.kept disk.new n whole }
    ensures stale { (n : List ℕ) (c : Option (List ℕ)) → D.stale disk.new n c → D.stale disk.old n c }
    ensures any_moment { (part bytes n : List ℕ) → IsBegun D.opened D.seen disk.old part bytes → n ≢ part → LeavesOnly D.moment D.since n disk.old disk.new (D.left disk.old n) }
    ensures writing { (start : D) (part bytes : List ℕ) → IsWriting D.opened D.seen D.kept D.left D.moment D.since part bytes start disk.old → OnOk result (IsWriting D.opened D.seen D.kept D.left D.moment D.since part (bytes ++ piece.now) start disk.new) }
    ensures breaks { (start : D) (part bytes : List ℕ) → IsWriting D.opened D.seen D.kept D.left D.moment D.since part bytes start disk.old → OnErr result (IsDeed D.opened D.seen D.kept D.left D.moment D.since (breaks part) start disk.new) }
{
    disk.add(piece)
}

/// Brings the body that was begun onto the disk.
pub fn finish<D: Disk>(disk: &mut D) -> Result<(), DiskError>
    ensures whole { (part bytes : List ℕ) → IsBegun D.opened D.seen disk.old part bytes → OnOk result (IsWhole D.seen D.kept disk.new part bytes) }
    ensures others { (n whole : List ℕ) → IsWhole D.seen D.kept disk.old n whole → OnOk result (IsWhole D.seen D.kept disk.new n whole) }
    // From now on a crash leaves under the part's name the whole body, or what was left there before it was begun.
    ensures left { (part bytes : List ℕ) → IsBegun D.opened D.seen disk.old part bytes → OnOk result ((c : Option (List ℕ)) → D.left disk.new part c → D.stale disk.old part c ⊎ (c ≡ Some bytes)) }
    ensures any_moment { (n : List ℕ) → LeavesOnly D.moment D.since n disk.old disk.new (D.left disk.old n) }
    ensures keeps { (start : D) (part bytes : List ℕ) → IsWriting D.opened D.seen D.kept D.left D.moment D.since part bytes start disk.old → OnOk result (IsDeed D.opened D.seen D.kept D.left D.moment D.since (keeps part bytes) start disk.new) }
    ensures loses { (start : D) (part bytes : List ℕ) → IsWriting D.opened D.seen D.kept D.left D.moment D.since part bytes start disk.old → OnErr result (IsDeed D.opened D.seen D.kept D.left D.moment D.since (loses part) start disk.new) }
{
    disk.sync()
}

/// Gives a body that is whole its name, in place of what is there.
pub fn name<D: Disk>(disk: &mut D, part: &str, name: &str) -> Result<(), DiskError>
    requires { part.now ≢ name.now }
    ensures named { (bytes : List ℕ) → IsWhole D.seen D.kept disk.old part.now bytes → OnOk result (IsWhole D.seen D.kept disk.new name.now bytes) }
    ensures others { (n whole : List ℕ) → n ≢ part.now → n ≢ name.now → IsWhole D.seen D.kept disk.old n whole → IsWhole D.seen D.kept disk.new n whole }
    // At any moment a crash leaves what was there before, or the whole body.
    ensures any_moment { (bytes : List ℕ) → IsWhole D.seen D.kept disk.old part.now bytes
        → LeavesOnly D.moment D.since name.now disk.old disk.new (λ c. D.left disk.old name.now c ⊎ (c ≡ Some bytes)) }
    ensures others_any_moment { (n : List ℕ) → n ≢ part.now → n ≢ name.now → LeavesOnly D.moment D.since n disk.old disk.new (D.left disk.old n) }
    ensures deed { IsDeed D.opened D.seen D.kept D.left D.moment D.since (names part.now name.now) disk.old disk.new }
    // Whatever bodies were written, named and removed before, in whatever order: if each name was given to a part that had a whole
    // body, a crash at any moment leaves under a name only what was there before all of it, the whole body, or nothing.
    ensures lives { (start : D) (deeds : List Deed) → AreDeeds D.opened D.seen D.kept D.left D.moment D.since start deeds disk.old → LeavesWhole D.opened D.seen D.kept D.left D.moment D.since start (names part.now name.now ∷ deeds) disk.new }
{
    disk.rename(part, name)
}

/// Removes what is under a name.
pub fn remove<D: Disk>(disk: &mut D, name: &str) -> Result<(), DiskError>
    ensures gone { D.tells → OnOk result (D.seen disk.new name.now None) }
    ensures deed { IsDeed D.opened D.seen D.kept D.left D.moment D.since (removes name.now) disk.old disk.new }
    // Of any list of these calls, as `name` says it.
    ensures lives { (start : D) (deeds : List Deed) → AreDeeds D.opened D.seen D.kept D.left D.moment D.since start deeds disk.old → LeavesWhole D.opened D.seen D.kept D.left D.moment D.since start (removes name.now ∷ deeds) disk.new }
{
    disk.remove(name)
}
