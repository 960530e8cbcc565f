//! Bodies that a keeper has put on the disk, and that a folder gives their names.
use super::DiskFolder;
use super::change_lanes::FileToChange;
use super::places::{find_dirs_of, find_path, find_place, move_file};
use crate::body_change::BodyChange;
use crate::folder::FolderFault;
use crate::shelf::{HasKind, Shelf};
use kept_bodies::BodyKind;
use part_keeper::{KeptPart, Standing, part_path};
use std::alloc::Global;
use std::fs::Files;
use std::io;
use std::io::{Error, ErrorKind};
use streams::{Close, Lock};

impl HasKind for KeptPart {
    ghost use Rattle.part_keeper.specs.Parts.{received_len};

    ghost kind_of = { λ part. part.kind };

    // What was read from an earlier run's file wasn't received.
    ghost len_of = { received_len };

    fn kind_of(&self) -> BodyKind {
        self.kind
    }

    fn len_of(&self) -> u64 {
        if self.is_received { self.len } else { 0 }
    }
}

impl<'a, R: Files> DiskFolder<'a, R>
where
    R::File: Close + Lock,
{
    ghost use Rattle.std.specs.Prelude.{◌≡◌};

    // Gives the file of a part below this directory a name.
    fn move_part(&mut self, dir: &str, name: &str, part: &KeptPart) -> io::Result<()>
        ensures { self.new ≡ self.old }
    {
        let path = find_place(
            self.rt,
            self.alloc,
            self.prefix.as_str(),
            &mut self.known,
            name,
        )?;
        let from = part_path(self.alloc, dir, part.worker, part.number)?;
        self.rt.rename(from.as_str(), path.as_str())
    }

    // The same while others give names, too. A part that is a further name of an earlier file is renamed: nothing is done if that file has
    // the name already.
    fn move_early(&mut self, dir: &str, name: &str, part: &KeptPart) -> io::Result<()>
        ensures { self.new ≡ self.old }
    {
        if !part.is_received {
            return self.move_part(dir, name, part);
        }
        let path = find_path(
            self.rt,
            self.alloc,
            self.prefix.as_str(),
            &mut self.known,
            name,
        )?;
        let from = part_path(self.alloc, dir, part.worker, part.number)?;
        move_file(self.rt, from.as_str(), path.as_str())
    }

    // Gives the file of a part this name.
    fn name_part(&mut self, name: &str, part: &KeptPart) -> io::Result<()>
        ensures { self.new ≡ self.old }
    {
        let dir = String::from_str(self.alloc, self.parts.as_str())?;
        self.move_part(dir.as_str(), name, part)
    }

    /// Whether each directory of a name is there, and is no link. Makes nothing.
    pub fn leads_to(&mut self, name: &str) -> bool
        ensures { self.new ≡ self.old }
    {
        let found = find_dirs_of(
            self.rt,
            self.alloc,
            self.prefix.as_str(),
            &mut self.known,
            name,
        );
        found.is_ok()
    }

    /// Gives a whole part below this directory a name while a run goes on. Whether it has it from then on.
    pub fn name_early(&mut self, dir: &str, name: &str, part: &KeptPart) -> bool
        ensures { self.new ≡ self.old }
    {
        if part.standing != Standing::Whole {
            return false;
        }
        let is_named = self.move_early(dir, name, part).is_ok();
        if !is_named {
            self.known.forget();
        }
        is_named
    }

    /// Moves a part that was given this name early back, so that it gets another. If that fails, it is never put.
    pub fn take_back(&mut self, name: &str, part: &KeptPart)
        ensures { self.new ≡ self.old }
    {
        match self.move_back(name, part) {
            Ok(()) => self.has_moved_back = true,
            Err(_) => self.give_up(part),
        }
        self.known.forget();
    }

    /// Has a part that was given a name early never put.
    pub fn give_up(&mut self, part: &KeptPart)
        ensures { self.new ≡ self.old }
    {
        if self.stuck.push(*part).is_err() {
            self.are_all_stuck = true;
        }
    }

    // Moves a part that has this name to its path.
    fn move_back(&mut self, name: &str, part: &KeptPart) -> io::Result<()>
        ensures { self.new ≡ self.old }
    {
        let path = find_place(
            self.rt,
            self.alloc,
            self.prefix.as_str(),
            &mut self.known,
            name,
        )?;
        let to = part_path(self.alloc, self.parts.as_str(), part.worker, part.number)?;
        self.rt.rename(path.as_str(), to.as_str())
    }

    // Whether a part couldn't be moved back.
    fn is_stuck(&self, part: &KeptPart) -> bool {
        self.are_all_stuck || self.stuck.as_slice().iter().any(|stuck| *stuck == *part)
    }

    // Puts a part that was given a name early: nothing is to be done, unless it was moved back.
    fn put_named(&mut self, name: &str, part: &KeptPart) -> io::Result<()>
        ensures { self.new ≡ self.old }
    {
        if self.is_stuck(part) {
            return Err(Error::from(ErrorKind::Other));
        }
        if !self.has_moved_back {
            return Ok(());
        }
        let path = part_path(self.alloc, self.parts.as_str(), part.worker, part.number)?;
        match self.rt.symlink_metadata(path.as_str()) {
            Err(error) if error.kind() == ErrorKind::NotFound => Ok(()),
            _ => self.name_part(name, part),
        }
    }

    // Puts a part. For one that was lost there is no file, since its keeper had an error.
    fn put_part(&mut self, name: &str, part: &KeptPart) -> io::Result<()>
        ensures { self.new ≡ self.old }
    {
        match part.standing {
            Standing::Whole | Standing::Waiting => self.name_part(name, part),
            Standing::Named => self.put_named(name, part),
            Standing::Lost => Err(Error::from(ErrorKind::Other)),
            Standing::Absent => {
                let put = self.write(name, &[], None);
                self.remove_own();
                put
            }
        }
    }
}

/// The parts are below the directory that the folder was given. Each is renamed, so putting takes no room.
impl<'a, R: Files> Shelf<KeptPart> for DiskFolder<'a, R>
where
    R::File: Close + Lock,
{
    ghost use Rattle.std.specs.Prelude.{⊤};

    // Of what is on the disk nothing is known.
    ghost holds = { λ part body. ⊤ };

    fn put_kept(&mut self, name: &str, kept: &KeptPart) -> Result<(), FolderFault> {
        let put = self.put_part(name, kept);
        self.count(put)
    }

    /// Renames the part, and then has the file have what is to be in place of its body, which takes room for one body.
    fn put_changed_kept<C: BodyChange>(
        &mut self,
        _alloc: Global,
        place: usize,
        name: &str,
        kept: &KeptPart,
        change: &C,
    ) -> Result<bool, FolderFault> {
        let put = self.put_part(name, kept);
        self.count(put)?;
        let file = FileToChange {
            place,
            name,
            part: kept,
        };
        let is_changed = self.is_changed(&file, change);
        self.end_puts();
        Ok(is_changed)
    }
}
