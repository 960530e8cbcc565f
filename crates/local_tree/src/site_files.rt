//! The files of a retrieved site.
ghost use Rattle.std.specs.Prelude.{◌≡◌, length, map, OnOk, IfOk, IfErr, string_bytes};
ghost use Rattle.address.specs.AddressOrder.{IsAscending};
ghost use Rattle.local_tree.specs.Changes.{IsShelvedAs, IsHalfShelvedAsBy};
ghost use Rattle.local_tree.specs.Folders.{holding};
ghost use Rattle.local_names.specs.Names.{AreDistinct};
ghost use Rattle.local_tree.specs.Shelves.{IsShelved, IsHalfShelvedBy};

use crate::body_change::BodyChange;
use crate::disk_folder::ChangeCrew;
use crate::shelf::Shelf;
use address::Address;
use std::alloc::Global;
use thiserror::Error;

/// Why not all files of a site were written.
#[derive(Clone, Copy, Debug, PartialEq, Eq, Error)]
pub enum WriteFault {
    /// A put failed when that many files were written. These are whole, the next may hold anything.
    #[error("the folder failed after {0} files")]
    Device(usize),
}

/// Puts the bodies of a site into a folder, in their order, each under its name. If a put fails, no other is made. The addresses of their
/// pages are in order.
pub fn write_site<B: Drop, D: Shelf<B>>(
    folder: &mut D,
    names: &[String],
    pages: &[Address],
    bodies: &[B],
) -> Result<(), WriteFault>
    requires count { length names.now ≡ length bodies.now }
    requires pages { length pages.now ≡ length bodies.now }
    requires ascending { IsAscending pages.now }
    requires distinct { AreDistinct (map string_bytes names.now) }
    ensures whole { OnOk result (IsShelved D.holds (map string_bytes names.now) bodies.now (D.files folder.old) (D.files folder.new)) }
    ensures torn { IfErr result (IsHalfShelvedBy D.holds (map string_bytes names.now) bodies.now (holding D.files D.failed folder.old) (holding D.files D.failed folder.new)) }
    ensures quiet { OnOk result (D.failed folder.new ≡ D.failed folder.old) }
{
    folder.put_bodies(names, pages, bodies)
}

/// The same, but each file has what is to be in place of its body. Whether all have that: each other one has the body as it came, since
/// memory ran out, or nothing can be in its place, or the folder failed. The crew is for folders that change files after all are put.
pub fn write_changed_site<B: Drop, D: Shelf<B>, C: BodyChange, W: ChangeCrew>(
    alloc: Global,
    folder: &mut D,
    names: &[String],
    pages: &[Address],
    bodies: &[B],
    change: &C,
    crew: &W,
) -> Result<bool, WriteFault>
    requires count { length names.now ≡ length bodies.now }
    requires pages { length pages.now ≡ length bodies.now }
    requires ascending { IsAscending pages.now }
    requires distinct { AreDistinct (map string_bytes names.now) }
    ensures whole { IfOk result (λ all. IsShelvedAs (C.becomes change.now) all D.holds (map string_bytes names.now) bodies.now (holding D.files D.failed folder.old) (holding D.files D.failed folder.new)) }
    ensures torn { IfErr result (IsHalfShelvedAsBy (C.becomes change.now) D.holds (map string_bytes names.now) bodies.now (holding D.files D.failed folder.old) (holding D.files D.failed folder.new)) }
    ensures quiet { OnOk result (D.failed folder.new ≡ D.failed folder.old) }
{
    folder.put_changed_bodies(alloc, names, pages, bodies, change, crew)
}
