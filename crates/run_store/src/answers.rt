//! An answer that gets its entry once its body is whole.
ghost use Rattle.std.specs.Prelude.{◌≡◌, ◌⊎◌, List, ℕ, OnOk};
ghost use Rattle.entry_lines.specs.Lines.{ArePlain};
ghost use Rattle.run_store.specs.BodyRuns.{IsWriting, IsDeed, keeps};
ghost use Rattle.run_store.specs.Runs.{Answers, appends};

use crate::Index;
use crate::parts::finish;
use disk_folder::{Disk, DiskError};
use std::alloc::Global;

/// Finishes the body that was begun, and then adds the entry of its answer. If the body can't be brought onto the disk the index is
/// as it was.
pub fn answer<D: Disk, B: Disk>(
    index: &mut Index<D>,
    bodies: &mut B,
    alloc: Global,
    entry: &[u8],
) -> Result<(), DiskError>
    requires { ArePlain entry.now }
    ensures kept { (start : B) (part bytes : List ℕ) → IsWriting B.opened B.seen B.kept B.left B.moment B.since part bytes start bodies.old
        → OnOk result (IsDeed B.opened B.seen B.kept B.left B.moment B.since (keeps part bytes) start bodies.new) }
    // No entry is added before its body is whole.
    ensures body_first { (start : B) (part bytes : List ℕ) → IsWriting B.opened B.seen B.kept B.left B.moment B.since part bytes start bodies.old
        → (index.new ≡ index.old) ⊎ IsDeed B.opened B.seen B.kept B.left B.moment B.since (keeps part bytes) start bodies.new }
    ensures step { Answers D.opened D.seen D.named D.kept D.moment D.since (λ ending. appends entry.now ending) result index.old index.new }
{
    match finish(bodies) {
        Ok(()) => index.append(alloc, entry),
        Err(e) => Err(e),
    }
}
