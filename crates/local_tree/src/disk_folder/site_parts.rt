//! The parts of a site: they get their names one after another, and then files change.
ghost use Rattle.std.specs.Prelude.{◌≡◌, ℕ, IfErr, OnOk, ⊤, length, map, string_bytes};
ghost use Rattle.local_tree.specs.Changes.{IsHalfShelvedAsBy};
ghost use Rattle.local_tree.specs.Folders.{CountsRefusedPut, untold};
ghost use Rattle.local_tree.specs.Shelves.{AreNamedBy, IsHalfShelvedBy, MakesOnePut};

use super::change_lanes::{ChangeCrew, FileToChange};
use crate::body_change::BodyChange;
use crate::folder::FolderFault;
use crate::site_files::WriteFault;
use kept_bodies::BodyKind;
use part_keeper::KeptPart;
use std::alloc::Global;

/// What gives parts their names, one at a time.
pub trait NamesParts {
    // How many puts answered an error.
    ghost failed: { Self → ℕ };

    /// Gives this name to the file of a part.
    fn put_part(&mut self, name: &str, part: &KeptPart) -> Result<(), FolderFault>
        ensures { CountsRefusedPut (failed self.old) (failed self.new) result };

    /// Has these files, whose parts were put, have what is to be in place of their bodies, by the crew. Whether all do: each other one has
    /// the body as it came.
    fn change_parts<C: BodyChange, W: ChangeCrew>(
        &mut self,
        files: &[FileToChange<'_>],
        change: &C,
        crew: &W,
    ) -> bool
        ensures { failed self.new ≡ failed self.old };
}

// Puts a part. Gives how many got no name then, of which there were so many.
fn put_one<D: NamesParts>(folder: &mut D, name: &str, part: &KeptPart, lost: usize) -> usize
    ensures { MakesOnePut lost (D.failed folder.old) (D.failed folder.new) result }
{
    match folder.put_part(name, part) {
        Ok(()) => lost,
        Err(_) => lost.saturating_add(1),
    }
}

/// Puts the bodies of a site that are in parts, in their order, each under its name. Of a part that was lost nothing is
/// put. If a put fails the others are made. The fault counts the files that are whole.
pub fn put_parts<D: NamesParts>(
    folder: &mut D,
    names: &[String],
    parts: &[KeptPart],
) -> Result<(), WriteFault>
    requires { length names.now ≡ length parts.now }
    // As of a folder whose files aren't known.
    ensures torn { IfErr result (IsHalfShelvedBy (λ part body. ⊤) (map string_bytes names.now) parts.now (untold (D.failed folder.old)) (untold (D.failed folder.new))) }
    ensures named { IfErr result (AreNamedBy (length names.now) (D.failed folder.old) (D.failed folder.new)) }
    ensures quiet { OnOk result (D.failed folder.new ≡ D.failed folder.old) }
{
    let mut lost = 0usize;
    for (i, name) in names.iter().enumerate() {
        lost = put_one(folder, name.as_str(), &parts[i], lost);
    }
    if lost > 0 {
        return Err(WriteFault::Device(names.len().saturating_sub(lost)));
    }
    Ok(())
}

// How many parts got no name so far, and whether each file that was to change at once did.
#[derive(Clone, Copy)]
struct SoFar {
    lost: usize,
    are_all: bool,
}

// Puts a part, whose file is among those that are to change from then on, if bodies of its kind have links. Without memory for that it
// is changed at once. Gives what is so then.
fn put_for_change<'s, D: NamesParts, C: BodyChange, W: ChangeCrew>(
    folder: &mut D,
    file: FileToChange<'s>,
    files: &mut Vec<FileToChange<'s>>,
    change: &C,
    crew: &W,
    so_far: SoFar,
) -> SoFar
    ensures { MakesOnePut so_far.lost (D.failed folder.old) (D.failed folder.new) result.lost }
{
    let SoFar { lost, are_all } = so_far;
    if folder.put_part(file.name, file.part).is_err() {
        return SoFar {
            lost: lost.saturating_add(1),
            are_all,
        };
    }
    if file.part.kind == BodyKind::Other || files.push(file).is_ok() {
        return so_far;
    }
    let is_changed = folder.change_parts(&[file], change, crew);
    SoFar {
        lost,
        are_all: are_all && is_changed,
    }
}

/// The same as [`put_parts`], but each file has what is to be in place of its body, once all have their names. Whether all have that
/// which got their names. Takes memory for a place and two references for each file that may have links.
pub fn put_changed_parts<D: NamesParts, C: BodyChange, W: ChangeCrew>(
    alloc: Global,
    folder: &mut D,
    names: &[String],
    parts: &[KeptPart],
    change: &C,
    crew: &W,
) -> Result<bool, WriteFault>
    requires { length names.now ≡ length parts.now }
    // As of a folder whose files aren't known.
    ensures torn { IfErr result (IsHalfShelvedAsBy (C.becomes change.now) (λ part body. ⊤) (map string_bytes names.now) parts.now (untold (D.failed folder.old)) (untold (D.failed folder.new))) }
    ensures named { IfErr result (AreNamedBy (length names.now) (D.failed folder.old) (D.failed folder.new)) }
    ensures quiet { OnOk result (D.failed folder.new ≡ D.failed folder.old) }
{
    let mut files = Vec::new(alloc);
    let mut so_far = SoFar {
        lost: 0,
        are_all: true,
    };
    for (i, name) in names.iter().enumerate() {
        let file = FileToChange {
            place: i,
            name: name.as_str(),
            part: &parts[i],
        };
        so_far = put_for_change(folder, file, &mut files, change, crew, so_far);
    }
    let are_changed = folder.change_parts(files.as_slice(), change, crew);
    if so_far.lost > 0 {
        return Err(WriteFault::Device(names.len().saturating_sub(so_far.lost)));
    }
    Ok(so_far.are_all && are_changed)
}
