// What is known of a disk is stated by relations, so that one of which nothing is known meets each clause: that of the system.
ghost use Rattle.std.specs.Prelude.{◌≡◌, ◌≢◌, ◌⊎◌, ◌≤◌, ◌++◌, [], ℕ, List, Option, Some, None, IfOk, OnOk, true, false};
ghost use Rattle.disk_folder.specs.Disks.{Adds, Elapses, HasBytes};

use std::alloc::{AllocError, AllocFailed, Global};

/// Why a call of a disk failed.
#[derive(Clone, Copy, Debug, PartialEq, Eq)]
pub enum DiskError {
    /// Memory ran out.
    Memory,
    /// Something is there, or nothing is.
    Name,
    /// The disk failed, or is full.
    Failed,
    /// No file is open, or an earlier call failed.
    Closed,
}

impl From<AllocError> for DiskError {
    fn from(_: AllocError) -> Self {
        DiskError::Memory
    }
}

impl<T: Drop> From<AllocFailed<T>> for DiskError {
    fn from(_: AllocFailed<T>) -> Self {
        DiskError::Memory
    }
}

/// A folder of a disk that one owner writes to. At most one of its files is open, to which bytes are added. An owner holds a file to keep
/// others from it, who ask first whether somebody does; a disk whose contents are known has no others.
///
/// What a crash may leave under a name follows from the clauses alone. The bytes that were added since the last sync of the file are
/// there, or zeros in their place, up to any length; those that were synced are there. A name that was given, or taken, has what it
/// had before or what it has now, until the names are synced. Between files there is no order.
pub trait Disk: Drop {
    /// What it holds is known. Of the system's disk nothing is.
    ghost tells: { Type 0 };

    /// The file of this name is known to be the open one.
    ghost opened: { Self → List ℕ → Type 0 };

    /// The open file of this name is known to be held, so that no other owner holds it.
    ghost held: { Self → List ℕ → Type 0 };

    /// The disk has said that the file of this name is the open one. Only its answer makes this known.
    ghost found_open: { Self → List ℕ → Type 0 };

    /// The disk has said that no other owner holds the file of this name. Only its answer makes this known.
    ghost found_free: { Self → List ℕ → Type 0 };

    /// This is known to be under a name: a file's bytes, or none.
    ghost seen: { Self → List ℕ → Option (List ℕ) → Type 0 };

    /// The name is known to be on the disk, so that a crash leaves this file under it.
    ghost named: { Self → List ℕ → Type 0 };

    /// A crash now may leave this under a name in place of the file that is there: what was there when it got the name.
    ghost stale: { Self → List ℕ → Option (List ℕ) → Type 0 };

    /// A crash now may leave these bytes of the file that is there.
    ghost kept: { Self → List ℕ → List ℕ → Type 0 };

    /// A crash now may leave this under a name.
    ghost left: { Self → List ℕ → Option (List ℕ) → Type 0 };

    /// The moment, as a number that doesn't fall.
    ghost moment: { Self → ℕ };

    /// A crash at some moment from that one on may have left this under a name, during a call or between two.
    ghost since: { Self → ℕ → List ℕ → Option (List ℕ) → Type 0 };

    /// Makes a file without bytes, where nothing is, and opens it.
    fn make(&mut self, name: &str) -> Result<(), DiskError>
        ensures made { tells → OnOk result (opened self.new name.now × seen self.new name.now (Some [])) }
        ensures kept_made { OnOk result ((x : List ℕ) → kept self.new name.now x → x ≡ []) }
        ensures others { (n : List ℕ) (c : Option (List ℕ)) → n ≢ name.now → seen self.old n c → seen self.new n c }
        ensures others_kept { (n x : List ℕ) → n ≢ name.now → kept self.new n x → kept self.old n x }
        ensures others_named { (n : List ℕ) → n ≢ name.now → named self.old n → named self.new n }
        ensures others_left { (n : List ℕ) (c : Option (List ℕ)) → n ≢ name.now → left self.new n c → left self.old n c }
        ensures crash { (c : Option (List ℕ)) → left self.new name.now c → left self.old name.now c ⊎ (c ≡ Some []) }
        ensures stale { (c : Option (List ℕ)) → stale self.new name.now c → left self.old name.now c }
        ensures others_stale { (n : List ℕ) (c : Option (List ℕ)) → n ≢ name.now → stale self.new n c → stale self.old n c }
        ensures time { Elapses (moment self.old) (moment self.new) (since self.old) (since self.new) (left self.new) };

    /// Opens a file that is there, to add to it.
    fn reopen(&mut self, name: &str) -> Result<(), DiskError>
        ensures opens { tells → OnOk result (opened self.new name.now) }
        ensures seen { (n : List ℕ) (c : Option (List ℕ)) → seen self.old n c → seen self.new n c }
        ensures kept { (n x : List ℕ) → kept self.new n x → kept self.old n x }
        ensures named { (n : List ℕ) → named self.old n → named self.new n }
        ensures crash { (n : List ℕ) (c : Option (List ℕ)) → left self.new n c → left self.old n c }
        ensures stale { (n : List ℕ) (c : Option (List ℕ)) → stale self.new n c → stale self.old n c }
        ensures time { Elapses (moment self.old) (moment self.new) (since self.old) (since self.new) (left self.new) };

    /// Holds the open file until it is closed, whatever name it gets. Whether it is held: it isn't if another owner holds it. The error is
    /// that files of this disk can't be held.
    fn hold(&mut self) -> Result<bool, DiskError>
        ensures held { IfOk result (λ is_held. is_held ≡ true → (n : List ℕ) → opened self.old n → held self.new n) }
        ensures stays_open { (n : List ℕ) → opened self.old n → opened self.new n }
        ensures seen { (n : List ℕ) (c : Option (List ℕ)) → seen self.old n c → seen self.new n c }
        ensures kept { (n x : List ℕ) → kept self.new n x → kept self.old n x }
        ensures named { (n : List ℕ) → named self.old n → named self.new n }
        ensures crash { (n : List ℕ) (c : Option (List ℕ)) → left self.new n c → left self.old n c }
        ensures stale { (n : List ℕ) (c : Option (List ℕ)) → stale self.new n c → stale self.old n c }
        ensures time { Elapses (moment self.old) (moment self.new) (since self.old) (since self.new) (left self.new) };

    /// Whether another owner holds the file of this name. It isn't asked for a file that this one has open.
    fn is_anothers(&self, name: &str) -> bool
        ensures alone { tells → result ≡ false }
        ensures found { result ≡ false → found_free self.now name.now };

    /// Whether the file of this name is still the open one: another owner may have given the name to a file of its own.
    fn is_open_at(&self, name: &str) -> bool
        ensures same { opened self.now name.now → result ≡ true }
        ensures found { result ≡ true → found_open self.now name.now };

    /// Adds bytes to the open file, by one call. If it fails, some of them may have been added, and nothing is known to be open.
    fn add(&mut self, bytes: &[u8]) -> Result<(), DiskError>
        ensures added { OnOk result ((n x : List ℕ) → opened self.old n → seen self.old n (Some x) → seen self.new n (Some (x ++ bytes.now))) }
        ensures stays_open { OnOk result ((n : List ℕ) → opened self.old n → opened self.new n) }
        ensures stays_held { (n : List ℕ) → held self.old n → held self.new n }
        ensures named { (n : List ℕ) → named self.old n → named self.new n }
        ensures others { (m n : List ℕ) (c : Option (List ℕ)) → opened self.old m → n ≢ m → seen self.old n c → seen self.new n c }
        ensures others_kept { (m n x : List ℕ) → opened self.old m → n ≢ m → kept self.new n x → kept self.old n x }
        ensures others_left { (m n : List ℕ) (c : Option (List ℕ)) → opened self.old m → n ≢ m → left self.new n c → left self.old n c }
        // It has the name still, and nothing else is left of it than its bytes.
        ensures crash { (n x : List ℕ) (c : Option (List ℕ)) → opened self.old n → seen self.old n (Some x) → left self.new n c → stale self.new n c ⊎ ((y : List ℕ) × (c ≡ Some y) × kept self.new n y) }
        ensures torn { (n base tail : List ℕ) → opened self.old n → seen self.old n (Some (base ++ tail)) → Adds base tail bytes.now (kept self.old n) (kept self.new n) }
        ensures stale { (n : List ℕ) (c : Option (List ℕ)) → stale self.new n c → stale self.old n c }
        ensures time { Elapses (moment self.old) (moment self.new) (since self.old) (since self.new) (left self.new) };

    /// Brings the bytes of the open file onto the disk. If it fails, nothing is known of them any more.
    fn sync(&mut self) -> Result<(), DiskError>
        ensures durable { OnOk result ((n x y : List ℕ) → opened self.old n → seen self.old n (Some x) → kept self.new n y → y ≡ x) }
        ensures seen { OnOk result ((n : List ℕ) (c : Option (List ℕ)) → seen self.old n c → seen self.new n c) }
        ensures stays_open { OnOk result ((n : List ℕ) → opened self.old n → opened self.new n) }
        ensures stays_held { (n : List ℕ) → held self.old n → held self.new n }
        ensures named { (n : List ℕ) → named self.old n → named self.new n }
        ensures kept { (n x : List ℕ) → kept self.new n x → kept self.old n x }
        ensures crash { (n : List ℕ) (c : Option (List ℕ)) → left self.new n c → left self.old n c }
        ensures stale { (n : List ℕ) (c : Option (List ℕ)) → stale self.new n c → stale self.old n c }
        ensures time { Elapses (moment self.old) (moment self.new) (since self.old) (since self.new) (left self.new) };

    /// Brings the names onto the disk.
    fn sync_names(&mut self) -> Result<(), DiskError>
        ensures durable { OnOk result ((n x : List ℕ) → seen self.old n (Some x) → named self.new n) }
        ensures seen { OnOk result ((n : List ℕ) (c : Option (List ℕ)) → seen self.old n c → seen self.new n c) }
        ensures stays_open { OnOk result ((n : List ℕ) → opened self.old n → opened self.new n) }
        ensures stays_held { (n : List ℕ) → held self.old n → held self.new n }
        ensures named { (n : List ℕ) → named self.old n → named self.new n }
        ensures kept { (n x : List ℕ) → kept self.new n x → kept self.old n x }
        ensures crash { (n : List ℕ) (c : Option (List ℕ)) → left self.new n c → left self.old n c }
        ensures stale { (n : List ℕ) (c : Option (List ℕ)) → stale self.new n c → stale self.old n c }
        ensures time { Elapses (moment self.old) (moment self.new) (since self.old) (since self.new) (left self.new) };

    /// Gives a file another name, in the place of what is there. If it is the open one it stays open, and held; after an error nothing is
    /// known to be open.
    fn rename(&mut self, from: &str, to: &str) -> Result<(), DiskError>
        requires { from.now ≢ to.now }
        ensures stays_open { OnOk result (opened self.old from.now → opened self.new to.now) }
        ensures stays_held { OnOk result (held self.old from.now → held self.new to.now) }
        ensures moved { OnOk result ((x : List ℕ) → seen self.old from.now (Some x) → seen self.new to.now (Some x)) }
        ensures kept { OnOk result ((x : List ℕ) → kept self.new to.now x → kept self.old from.now x) }
        ensures gone { tells → OnOk result (seen self.new from.now None) }
        ensures others { (n : List ℕ) (c : Option (List ℕ)) → n ≢ from.now → n ≢ to.now → seen self.old n c → seen self.new n c }
        ensures others_kept { (n x : List ℕ) → n ≢ from.now → n ≢ to.now → kept self.new n x → kept self.old n x }
        ensures others_named { (n : List ℕ) → n ≢ from.now → n ≢ to.now → named self.old n → named self.new n }
        ensures others_left { (n : List ℕ) (c : Option (List ℕ)) → n ≢ from.now → n ≢ to.now → left self.new n c → left self.old n c }
        ensures crash { (c : Option (List ℕ)) → left self.new to.now c → left self.old to.now c ⊎ ((x : List ℕ) × (c ≡ Some x) × kept self.old from.now x) }
        ensures crash_from { (c : Option (List ℕ)) → left self.new from.now c → left self.old from.now c ⊎ (c ≡ None) }
        ensures stale { (c : Option (List ℕ)) → stale self.new to.now c → left self.old to.now c }
        ensures others_stale { (n : List ℕ) (c : Option (List ℕ)) → n ≢ from.now → n ≢ to.now → stale self.new n c → stale self.old n c }
        ensures time { Elapses (moment self.old) (moment self.new) (since self.old) (since self.new) (left self.new) };

    /// Removes a file. No file is open after it.
    fn remove(&mut self, name: &str) -> Result<(), DiskError>
        ensures gone { tells → OnOk result (seen self.new name.now None) }
        ensures others { (n : List ℕ) (c : Option (List ℕ)) → n ≢ name.now → seen self.old n c → seen self.new n c }
        ensures others_kept { (n x : List ℕ) → n ≢ name.now → kept self.new n x → kept self.old n x }
        ensures others_named { (n : List ℕ) → n ≢ name.now → named self.old n → named self.new n }
        ensures others_left { (n : List ℕ) (c : Option (List ℕ)) → n ≢ name.now → left self.new n c → left self.old n c }
        ensures crash { (c : Option (List ℕ)) → left self.new name.now c → left self.old name.now c ⊎ (c ≡ None) }
        ensures others_stale { (n : List ℕ) (c : Option (List ℕ)) → n ≢ name.now → stale self.new n c → stale self.old n c }
        ensures time { Elapses (moment self.old) (moment self.new) (since self.old) (since self.new) (left self.new) };

    /// What is under a name. Changes nothing that is known.
    fn read(&mut self, alloc: Global, name: &str) -> Result<Option<Vec<u8>>, DiskError>
        ensures bytes { IfOk result (λ found. (x : List ℕ) → seen self.old name.now (Some x) → HasBytes x found) }
        ensures none { IfOk result (λ found. seen self.old name.now None → found ≡ None) }
        ensures seen { (n : List ℕ) (c : Option (List ℕ)) → seen self.old n c → seen self.new n c }
        ensures kept { (n x : List ℕ) → kept self.new n x → kept self.old n x }
        ensures named { (n : List ℕ) → named self.old n → named self.new n }
        ensures crash { (n : List ℕ) (c : Option (List ℕ)) → left self.new n c → left self.old n c }
        ensures stale { (n : List ℕ) (c : Option (List ℕ)) → stale self.new n c → stale self.old n c }
        ensures time { Elapses (moment self.old) (moment self.new) (since self.old) (since self.new) (left self.new) };

    /// Only a disk whose contents are known is known to hold anything.
    ghost told: { (disk : Self) (n : List ℕ) (c : Option (List ℕ)) → seen disk n c → tells };

    /// If the name is on the disk, a crash leaves the file's bytes.
    ghost leaves_named: { (disk : Self) (n : List ℕ) (c : Option (List ℕ)) → named disk n → left disk n c → (x : List ℕ) × (c ≡ Some x) × kept disk n x };

    /// If a file is there, a crash leaves its bytes, or what was there before.
    ghost leaves_seen: { (disk : Self) (n b : List ℕ) (c : Option (List ℕ)) → seen disk n (Some b) → left disk n c → stale disk n c ⊎ ((x : List ℕ) × (c ≡ Some x) × kept disk n x) };

    /// This moment is one of those since an earlier one.
    ghost counts_now: { (disk : Self) (t : ℕ) (n : List ℕ) (c : Option (List ℕ)) → t ≤ moment disk → left disk n c → since disk t n c };

    /// Since this moment there is no other.
    ghost only_now: { (disk : Self) (n : List ℕ) (c : Option (List ℕ)) → since disk (moment disk) n c → left disk n c };
}
