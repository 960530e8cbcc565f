//! A folder on a disk. Nothing of what a disk holds is proved; the tests show it.
ghost use Rattle.std.specs.Prelude.{◌≡◌, IfOk, IfErr};
ghost use Rattle.std.specs.IoError.{error_kind};
ghost use Rattle.local_tree.specs.Folders.{CountsRefusedPut, opened_at};

use crate::folder::{Folder, FolderFault};
use part_keeper::{KeptPart, OwnDir, make_own_dir};
use std::alloc::Global;
use std::fs::Files;
use std::io::{Error, ErrorKind};
use std::marker::Model;
use std::time::SystemTime;
use std::{fs, io, mem};
use streams::{Close, Lock};

mod batches;
mod change_lanes;
mod changed_files;
mod file_changes;
mod named_parts;
mod originals;
mod places;
mod site_parts;

pub use change_lanes::{ChangeCrew, ChangeLane, FileToChange, Unchanged};
use originals::Keeping;
pub use originals::Originals;
use places::{Known, find_place, put_by_way_of};
pub use site_parts::{NamesParts, put_changed_parts, put_parts};

/// Files below a folder of the system. A file is written under another name and gets its own when it
/// is whole and closed without an error, so nobody sees half of it, and what was there stays until then.
///
/// A symbolic link that is below the folder where a directory or a file is to be is refused,
/// and so is anything else that is neither. Links that others make while a file is put, or in a
/// directory that was made here, aren't seen: the system's calls by which one would see them aren't
/// offered. One in a file's place is replaced, and never followed.
#[derive(Drop)]
pub struct DiskFolder<'a, R: Files> {
    rt: &'a R,
    alloc: Global,
    prefix: String,
    // Below which directory the keepers of a run have their parts; empty if there is none.
    parts: String,
    // Those that couldn't be moved back from the names that they were given early, and whether some aren't among them.
    stuck: Vec<KeptPart>,
    are_all_stuck: bool,
    // Whether one was moved back.
    has_moved_back: bool,
    // Where parts are made, while files are put.
    own: Option<OwnDir<R::File>>,
    known: Known,
    keeping: Keeping,
    failed: u64,
    // That of the last put that failed.
    error: Option<Error>,
}

// Contracts see where the folder is, and how many puts answered an error.
impl<'a, R: Files> Model for DiskFolder<'a, R> {
    ghost use Rattle.std.specs.Prelude.{string_bytes};
    ghost use Rattle.local_tree.specs.Folders.{DiskValue};

    ghost Value = { DiskValue };

    ghost view = { λ f. record { path = string_bytes f.prefix; failed = f.failed } };
}

// The path of the part by way of which a file is put alone, in the run's own directory.
fn part_path(alloc: Global, own: &str) -> io::Result<String> {
    let path = format!(in alloc; "{own}/part")?;
    Ok(path)
}

impl<'a, R: Files> DiskFolder<'a, R>
where
    R::File: Close + Lock,
{
    /// The folder at this path; the empty path is `.`. The folder is made at the first put, if it
    /// isn't there, and may itself be a link. Several runs may put into one folder at a time. The error is that memory ran out.
    pub fn new(rt: &'a R, alloc: Global, path: &str) -> io::Result<DiskFolder<'a, R>>
        ensures opened { IfOk result (λ folder. folder ≡ opened_at path.now) }
        ensures memory { IfErr result (λ error. error_kind error ≡ ErrorKind.OutOfMemory) }
    {
        let path = if path.is_empty() { "." } else { path };
        let prefix = String::from_str(alloc, path)?;
        Ok(DiskFolder {
            rt,
            alloc,
            prefix,
            parts: String::new(alloc),
            stuck: Vec::new(alloc),
            are_all_stuck: false,
            has_moved_back: false,
            own: None,
            known: Known::nothing(alloc),
            keeping: Keeping::Nowhere,
            failed: 0,
            error: None,
        })
    }

    /// Takes the parts below this directory from now on, which is on its disk.
    pub fn take_from(&mut self, parts: String)
        ensures { self.new ≡ self.old }
    {
        self.parts = parts;
    }

    /// Why the last put that failed did: the system's error, or, with none of its numbers, one of the folder's own (`NotADirectory`
    /// and `AlreadyExists` if a link or something else is in the place of a directory or a file, `InvalidInput` if the name isn't
    /// local, `Other` if closing failed or a part was lost). None if no put failed.
    pub fn error(&self) -> Option<&Error> {
        self.error.as_ref()
    }

    // Makes the directory for parts, unless it is there.
    fn make_own(&mut self) -> io::Result<()>
        ensures { self.new ≡ self.old }
    {
        if self.own.is_none() {
            fs::create_dir_all(self.rt, self.prefix.as_str())?;
            let own = make_own_dir(self.rt, self.alloc, self.prefix.as_str())?;
            self.own = Some(own);
        }
        Ok(())
    }

    // Removes the directory for parts, if it is there.
    fn remove_own(&mut self)
        ensures { self.new ≡ self.old }
    {
        if let Some(own) = mem::replace(&mut self.own, None) {
            own.remove(self.rt, self.alloc);
        }
    }

    // The path of the part by way of which a file is put alone.
    fn own_part(&mut self) -> io::Result<String>
        ensures { self.new ≡ self.old }
    {
        self.make_own()?;
        match &self.own {
            Some(own) => part_path(self.alloc, own.path()),
            None => Err(Error::from(ErrorKind::NotFound)),
        }
    }

    // Writes the file, which has this time if there is one, and gives it its name.
    fn write(&mut self, name: &str, bytes: &[u8], modified: Option<SystemTime>) -> io::Result<()>
        ensures { self.new ≡ self.old }
    {
        let path = find_place(
            self.rt,
            self.alloc,
            self.prefix.as_str(),
            &mut self.known,
            name,
        )?;
        let part = self.own_part()?;
        let put = put_by_way_of(self.rt, part.as_str(), path.as_str(), bytes, modified);
        if put.is_err() {
            // A part that stays is removed before the next file.
            let _ = self.rt.remove_file(part.as_str());
        }
        put
    }

    // Keeps why a put failed, if it did, and counts it.
    fn count(&mut self, put: io::Result<()>) -> Result<(), FolderFault>
        ensures { CountsRefusedPut self.old.failed self.new.failed result }
    {
        match put {
            Ok(()) => Ok(()),
            Err(error) => {
                // The directory may have gone.
                self.known.forget();
                self.error = Some(error);
                self.failed = self.failed.saturating_add(1);
                Err(FolderFault::Device)
            }
        }
    }

    // Puts the file. The directory for parts stays.
    fn put_by_part(&mut self, name: &str, bytes: &[u8]) -> Result<(), FolderFault>
        ensures counted { CountsRefusedPut self.old.failed self.new.failed result }
    {
        let put = self.write(name, bytes, None);
        self.count(put)
    }
}

impl<'a, R: Files> Folder for DiskFolder<'a, R>
where
    R::File: Close + Lock,
{
    ghost use Rattle.std.specs.Prelude.{None};

    ghost files = { λ f. None };

    ghost failed = { λ f. f.failed };

    /// Puts the file. A name that isn't local is refused, and so are a path that is too long for the
    /// disk, a directory where the file is to be, and a file or a link where a directory is.
    fn put(&mut self, name: &str, bytes: &[u8]) -> Result<(), FolderFault> {
        let put = self.put_by_part(name, bytes);
        self.remove_own();
        put
    }

    fn failures(&self) -> u64 {
        self.failed
    }
}
