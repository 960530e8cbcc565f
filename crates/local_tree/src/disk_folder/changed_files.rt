//! Files of parts that are to have other bytes in place of their bodies, once they have their names.
ghost use Rattle.std.specs.Prelude.{◌≡◌};

use super::DiskFolder;
use super::change_lanes::{ChangeCrew, ChangeLane, FileToChange, LANES, Left, Unchanged};
use super::file_changes::FileChange;
use super::originals::{Keeping, Originals};
use super::places::{Known, make_dir};
use crate::body_change::BodyChange;
use kept_bodies::BodyKind;
use std::fs::Files;
use std::io;
use std::io::{Error, ErrorKind};
use streams::{Close, Lock};

impl<'a, R: Files> DiskFolder<'a, R>
where
    R::File: Close + Lock,
{
    ghost use Rattle.std.specs.Prelude.{◌≡◌};

    /// From now on the bodies of files that change are kept there as they came, but none in the place of a file with one of these names,
    /// which are all that are put. If one can't be kept beside its file, that stays as it came; without a hidden one it changes all the
    /// same.
    pub fn keep_originals(&mut self, originals: Originals, names: &[String])
        ensures { self.new ≡ self.old }
    {
        self.keeping = Keeping::of(self.alloc, originals, names);
    }

    // These files in lanes, as many for each, whose directories are there.
    fn lanes<'s, 'f>(
        &'s self,
        disk: &'s HostRuntime,
        files: &'s [FileToChange<'f>],
    ) -> io::Result<Vec<ChangeLane<'s, 'f>>> {
        let Some(own) = &self.own else {
            return Err(Error::from(ErrorKind::NotFound));
        };
        let mut lanes = Vec::new(self.alloc);
        for files in files.chunks(files.len().div_ceil(LANES).max(1)) {
            let number = lanes.len();
            let dir = format!(in self.alloc; "{}/changes{number}", own.path())?;
            make_dir(self.rt, dir.as_str())?;
            let lane = ChangeLane::new(
                disk,
                self.alloc,
                self.prefix.as_str(),
                dir,
                files,
                &self.keeping,
            );
            lanes.push(lane)?;
        }
        Ok(lanes)
    }

    // Has these files changed in lanes by the crew. Lanes that it didn't go through are gone through here. Gives the files that were left
    // as they were.
    fn change_in_lanes<'f, C: BodyChange, W: ChangeCrew>(
        &self,
        disk: &HostRuntime,
        files: &[FileToChange<'f>],
        change: &C,
        crew: &W,
    ) -> io::Result<Left<'f>> {
        let mut lanes = self.lanes(disk, files)?;
        crew.run_lanes(lanes.as_mut_slice());
        let mut left = Left::none(self.alloc);
        for lane in lanes {
            left.add(&lane.finish(change));
        }
        Ok(left)
    }

    // Has a file have what is to be in place of its body.
    fn change_file<C: BodyChange>(&self, file: &FileToChange<'_>, change: &C) -> io::Result<()> {
        let originals = self.keeping.place_of(file.name)?;
        let Some(own) = &self.own else {
            return Err(Error::from(ErrorKind::NotFound));
        };
        let folder = self.prefix.as_str();
        let made = FileChange::new(self.alloc, folder, own.path(), file, originals)?;
        let mut known = Known::nothing(self.alloc);
        made.finish(self.rt, self.alloc, folder, &mut known, change)
    }

    // The same of these, one after another. Those that have their bodies are among these then.
    fn change_each<'f, C: BodyChange>(
        &self,
        files: &[FileToChange<'f>],
        change: &C,
        unchanged: &mut Unchanged<'f>,
    ) {
        for file in files {
            if let Err(error) = self.change_file(file, change) {
                unchanged.push(file.name, error);
            }
        }
    }

    // The same in lanes; those that lanes leave, or all if there are no lanes, one after another.
    fn change_all<'f, C: BodyChange, W: ChangeCrew>(
        &self,
        disk: &HostRuntime,
        files: &[FileToChange<'f>],
        change: &C,
        crew: &W,
    ) -> Unchanged<'f> {
        match self.change_in_lanes(disk, files, change, crew) {
            Ok(left) => {
                let mut unchanged = Unchanged::none(self.alloc, left.has_more);
                self.change_each(left.files.as_slice(), change, &mut unchanged);
                unchanged
            }
            Err(_) => {
                let mut unchanged = Unchanged::none(self.alloc, false);
                self.change_each(files, change, &mut unchanged);
                unchanged
            }
        }
    }

    /// Has these files, whose parts were put, have what is to be in place of their bodies. The crew changes them, some side by side, in
    /// directories of the run's own that stay until [`DiskFolder::end_puts`]; `disk` is the folder's. What fails so is tried once more
    /// alone. Gives the files that have their bodies as they came then.
    pub fn change_files<'f, C: BodyChange, W: ChangeCrew>(
        &mut self,
        disk: &HostRuntime,
        files: &[FileToChange<'f>],
        change: &C,
        crew: &W,
    ) -> Unchanged<'f>
        ensures { self.new ≡ self.old }
    {
        match self.make_own() {
            Ok(()) => self.change_all(disk, files, change, crew),
            Err(error) => Unchanged::all(self.alloc, files, error),
        }
    }

    // The same of one file alone.
    fn change_alone<C: BodyChange>(&mut self, file: &FileToChange<'_>, change: &C) -> io::Result<()>
        ensures { self.new ≡ self.old }
    {
        self.make_own()?;
        self.change_file(file, change)
    }

    // The same, if bodies of its kind have links. Whether the file has that then; if not, the error is kept.
    pub(crate) fn is_changed<C: BodyChange>(&mut self, file: &FileToChange<'_>, change: &C) -> bool
        ensures { self.new ≡ self.old }
    {
        if file.part.kind == BodyKind::Other {
            return true;
        }
        match self.change_alone(file, change) {
            Ok(()) => true,
            Err(error) => {
                self.error = Some(error);
                false
            }
        }
    }

    /// Removes the directory in which bodies were written.
    pub fn end_puts(&mut self)
        ensures { self.new ≡ self.old }
    {
        self.remove_own();
    }
}
