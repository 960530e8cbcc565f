//! What a folder is to do that takes bodies as those hand them out who keep them.
ghost use Rattle.std.specs.Prelude.{◌≡◌, ◌&&◌, ℕ, OnOk, OnErr, IfOk, IfErr, length, map, string_bytes};
ghost use Rattle.address.specs.AddressOrder.{IsAscending};
ghost use Rattle.kept_bodies.specs.Bodies.{BodyValue};
ghost use Rattle.kept_bodies.specs.declared.body_kind.BodyKind.{BodyKind};
ghost use Rattle.local_names.specs.Names.{AreDistinct};
ghost use Rattle.local_tree.specs.Changes.{PutsChanged, IsShelvedAs, IsHalfShelvedAsBy};
ghost use Rattle.local_tree.specs.Folders.{Puts, KeepsOthers, CountsRefusedPut, holding};
ghost use Rattle.local_tree.specs.Shelves.{IsShelved, IsHalfShelvedBy};

use crate::body_change::BodyChange;
use crate::disk_folder::ChangeCrew;
use crate::folder::{Folder, FolderFault};
use crate::site_files::WriteFault;
use address::Address;
use kept_bodies::{Body, BodyKind};
use std::alloc::Global;

/// A kept body of which it is known what it is, and how much of it this run received.
pub trait HasKind {
    // What it is.
    ghost kind_of: { Self → BodyKind };

    // How many bytes of it this run received.
    ghost len_of: { Self → ℕ };

    /// What it is. Takes no memory.
    fn kind_of(&self) -> BodyKind
        ensures { result ≡ kind_of self.now };

    /// How many bytes of it this run received: those that count for a quota. Takes no memory.
    fn len_of(&self) -> u64
        ensures { result ≡ len_of self.now };
}

impl HasKind for Body {
    ghost use Rattle.std.specs.Prelude.{length};

    ghost kind_of = { λ body. body.kind };

    ghost len_of = { λ body. length body.bytes };

    fn kind_of(&self) -> BodyKind {
        self.kind()
    }

    fn len_of(&self) -> u64 {
        self.as_slice().len() as u64
    }
}

// Whether both are so.
fn are_both(one: bool, other: bool) -> bool
    ensures { result ≡ (one && other) }
{
    one && other
}

// Puts a file, and gives this.
fn put_as<D: Folder>(
    folder: &mut D,
    name: &str,
    bytes: &[u8],
    is_changed: bool,
) -> Result<bool, FolderFault>
    ensures put { IfOk result (λ all. (all ≡ is_changed) × Puts (D.files folder.old) (D.files folder.new) name.now bytes.now) }
    ensures torn { OnErr result (KeepsOthers (D.files folder.old) (D.files folder.new) name.now) }
    ensures counted { CountsRefusedPut (D.failed folder.old) (D.failed folder.new) result }
{
    match folder.put(name, bytes) {
        Ok(()) => Ok(is_changed),
        Err(fault) => Err(fault),
    }
}

/// A folder that takes kept bodies of this type. Each folder takes those in memory.
pub trait Shelf<B: Drop>: Folder {
    // Which body a kept one may be. Of one that may be any, nothing is known even if the folder's files are.
    ghost holds: { B → BodyValue → Type 0 };

    /// Puts a file of this name below the folder, with the bytes of this body. All else is as of [`Folder::put`].
    fn put_kept(&mut self, name: &str, kept: &B) -> Result<(), FolderFault>
        ensures put { OnOk result ((body : BodyValue) → holds kept.now body → Puts (Self.files self.old) (Self.files self.new) name.now body.bytes) }
        ensures torn { OnErr result (KeepsOthers (Self.files self.old) (Self.files self.new) name.now) }
        ensures counted { CountsRefusedPut (Self.failed self.old) (Self.failed self.new) result };

    /// Puts the bodies of a site, in their order, each under its name. If a put fails, no other is made. A folder may make
    /// the files ready in another order, as long as nobody finds one under its name before its turn. The addresses of their pages, which
    /// are in order, are for folders that know files by them.
    fn put_bodies(
        &mut self,
        names: &[String],
        _pages: &[Address],
        bodies: &[B],
    ) -> Result<(), WriteFault>
        requires count { length names.now ≡ length bodies.now }
        requires pages { length _pages.now ≡ length bodies.now }
        requires ascending { IsAscending _pages.now }
        requires distinct { AreDistinct (map string_bytes names.now) }
        ensures whole { OnOk result (IsShelved holds (map string_bytes names.now) bodies.now (Self.files self.old) (Self.files self.new)) }
        ensures torn { IfErr result (IsHalfShelvedBy holds (map string_bytes names.now) bodies.now (holding Self.files Self.failed self.old) (holding Self.files Self.failed self.new)) }
        ensures quiet { OnOk result (Self.failed self.new ≡ Self.failed self.old) }
    {
        for (i, name) in names.iter().enumerate() {
            if self.put_kept(name.as_str(), &bodies[i]).is_err() {
                return Err(WriteFault::Device(i));
            }
        }
        Ok(())
    }

    /// Puts a file of this name below the folder, with what is to be in place of this body, which is that of the page at this place.
    /// Whether that is so: if not, the file has the body as it came. All else is as of [`Folder::put`].
    fn put_changed_kept<C: BodyChange>(
        &mut self,
        alloc: Global,
        place: usize,
        name: &str,
        kept: &B,
        change: &C,
    ) -> Result<bool, FolderFault>
        ensures put { IfOk result (λ all. (body : BodyValue) → holds kept.now body → PutsChanged (C.becomes change.now) all place body name.now (Self.files self.old) (Self.files self.new)) }
        ensures torn { OnErr result (KeepsOthers (Self.files self.old) (Self.files self.new) name.now) }
        ensures counted { CountsRefusedPut (Self.failed self.old) (Self.failed self.new) result };

    /// Puts the bodies of a site, in their order, each under its name and with what is to be in its place. Whether all files have that;
    /// the others have their bodies as they came. If a put fails no other is made, as of [`Shelf::put_bodies`]. A folder may put all
    /// first, and then have the crew change files.
    fn put_changed_bodies<C: BodyChange, W: ChangeCrew>(
        &mut self,
        alloc: Global,
        names: &[String],
        _pages: &[Address],
        bodies: &[B],
        change: &C,
        _crew: &W,
    ) -> Result<bool, WriteFault>
        requires count { length names.now ≡ length bodies.now }
        requires pages { length _pages.now ≡ length bodies.now }
        requires ascending { IsAscending _pages.now }
        requires distinct { AreDistinct (map string_bytes names.now) }
        ensures whole { IfOk result (λ all. IsShelvedAs (C.becomes change.now) all holds (map string_bytes names.now) bodies.now (holding Self.files Self.failed self.old) (holding Self.files Self.failed self.new)) }
        ensures torn { IfErr result (IsHalfShelvedAsBy (C.becomes change.now) holds (map string_bytes names.now) bodies.now (holding Self.files Self.failed self.old) (holding Self.files Self.failed self.new)) }
        ensures quiet { OnOk result (Self.failed self.new ≡ Self.failed self.old) }
    {
        let mut are_all = true;
        for (i, name) in names.iter().enumerate() {
            match self.put_changed_kept(alloc, i, name.as_str(), &bodies[i], change) {
                Ok(is_changed) => are_all = are_both(are_all, is_changed),
                Err(_) => return Err(WriteFault::Device(i)),
            }
        }
        Ok(are_all)
    }
}

impl<D: Folder> Shelf<Body> for D {
    ghost use Rattle.std.specs.Prelude.{◌≡◌};

    // In memory a body is itself.
    ghost holds = { λ kept body. body ≡ kept };

    fn put_kept(&mut self, name: &str, kept: &Body) -> Result<(), FolderFault> {
        self.put(name, kept.as_slice())
    }

    fn put_bodies(
        &mut self,
        names: &[String],
        _pages: &[Address],
        bodies: &[Body],
    ) -> Result<(), WriteFault> {
        self.put_site(names, bodies)
    }

    fn put_changed_kept<C: BodyChange>(
        &mut self,
        alloc: Global,
        place: usize,
        name: &str,
        kept: &Body,
        change: &C,
    ) -> Result<bool, FolderFault> {
        let body = kept.as_slice();
        match change.change(alloc, place, kept.kind(), body) {
            Ok(Some(other)) => put_as(self, name, other.as_slice(), true),
            Ok(None) => put_as(self, name, body, true),
            Err(_) => put_as(self, name, body, false),
        }
    }
}
