//! What a run that was stopped left of its index, made ready to be added to.
ghost use Rattle.std.specs.Prelude.{◌≡◌, ◌≢◌, ◌⊎◌, List, ℕ, Option, Some, None, IfOk, OnOk, []};
ghost use Rattle.disk_folder.specs.Disks.{LeavesOnly};
ghost use Rattle.entry_lines.specs.Lines.{text, recovered};
ghost use Rattle.run_store.specs.Recoveries.{IsWhole, IsReady, LeavesSame};

use disk_folder::{Disk, DiskError};
use entry_lines::whole_len;
use std::alloc::Global;

/// Reads the index of this name, if there is one, and makes it ready: the lines that are whole, and no others, are there, on the
/// disk, and it is open. Gives these lines. They are written under the other name first, in which nothing else may be.
pub fn recover<D: Disk>(
    disk: &mut D,
    alloc: Global,
    name: &str,
    spare: &str,
) -> Result<Vec<u8>, DiskError>
    requires { name.now ≢ spare.now }
    ensures lines { IfOk result (λ lines. (bytes : List ℕ) → D.seen disk.old name.now (Some bytes) → lines.items ≡ text (recovered bytes)) }
    ensures ready { IfOk result (λ lines. (bytes : List ℕ) → D.seen disk.old name.now (Some bytes) → IsReady D.opened D.seen D.named D.kept disk.new name.now (recovered bytes)) }
    ensures lines_of_none { IfOk result (λ lines. D.seen disk.old name.now None → lines.items ≡ text (recovered [])) }
    ensures empty { IfOk result (λ lines. D.seen disk.old name.now None → IsReady D.opened D.seen D.named D.kept disk.new name.now (recovered [])) }
    // A crash at any moment leaves what one before might have left, or the same entries.
    ensures any_moment { (bytes : List ℕ) → D.seen disk.old name.now (Some bytes)
        → LeavesOnly D.moment D.since name.now disk.old disk.new (LeavesSame (D.left disk.old name.now) bytes) }
    ensures any_moment_of_none { D.seen disk.old name.now None
        → LeavesOnly D.moment D.since name.now disk.old disk.new (LeavesSame (D.left disk.old name.now) []) }
{
    let bytes = match disk.read(alloc, name)? {
        Some(bytes) => bytes,
        None => Vec::new(alloc),
    };
    let mut lines = bytes;
    lines.truncate(whole_len(lines.as_slice()));
    write_whole(disk, spare, lines.as_slice())?;
    put_in_place(disk, spare, name)?;
    Ok(lines)
}

// Makes a file of these bytes, all of them on the disk. What an earlier run left under its name is taken away.
fn write_whole<D: Disk>(disk: &mut D, spare: &str, bytes: &[u8]) -> Result<(), DiskError>
    ensures written { D.tells → OnOk result (IsWhole D.seen D.kept disk.new spare.now bytes.now) }
    ensures any_moment { D.tells → (n : List ℕ) → n ≢ spare.now → LeavesOnly D.moment D.since n disk.old disk.new (D.left disk.old n) }
    ensures others { D.tells → (n : List ℕ) (c : Option (List ℕ)) → n ≢ spare.now → D.left disk.new n c → D.left disk.old n c }
{
    // If nothing is there, this fails.
    let _ = disk.remove(spare);
    disk.make(spare)?;
    disk.add(bytes)?;
    disk.sync()
}

// Gives a file that is whole another name, in place of what is there, and opens it.
fn put_in_place<D: Disk>(disk: &mut D, spare: &str, name: &str) -> Result<(), DiskError>
    requires { spare.now ≢ name.now }
    ensures placed { (bytes : List ℕ) → IsWhole D.seen D.kept disk.old spare.now bytes → OnOk result (D.opened disk.new name.now × IsWhole D.seen D.kept disk.new name.now bytes × D.named disk.new name.now) }
    ensures any_moment { (bytes : List ℕ) → IsWhole D.seen D.kept disk.old spare.now bytes
        → LeavesOnly D.moment D.since name.now disk.old disk.new (λ c. D.left disk.old name.now c ⊎ (c ≡ Some bytes)) }
{
    disk.rename(spare, name)?;
    disk.sync_names()?;
    disk.reopen(name)
}
