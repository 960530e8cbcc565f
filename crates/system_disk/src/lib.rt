//! A disk of the system, whose names are paths. Each call is one of the system's, and nothing is decided here: what a disk is said to do is
//! trusted.
#![tactic(auto)]

use disk_folder::{Disk, DiskError};
use std::alloc::Global;
use std::fs::{File, Files, OpenFile};
use std::io;
use std::io::{ErrorKind, Read, Write};
use std::os::unix::fs::MetadataExt;
use streams::Lock;

/// A folder of the system without the program's handle, so that it can be kept: its path, the open file, and why the last call failed.
#[derive(Drop)]
pub struct SystemFolder<F: Drop> {
    path: String,
    file: Option<F>,
    why: Option<io::Error>,
}

impl<F: Drop> SystemFolder<F> {
    /// The folder at this path, which needn't be there yet. No file is open.
    pub fn new(path: String) -> SystemFolder<F> {
        SystemFolder {
            path,
            file: None,
            why: None,
        }
    }

    /// What the system said of the last call that failed, unless it was taken. Nothing is there if it wasn't the system that failed.
    pub fn take_error(&mut self) -> Option<io::Error> {
        self.why.take()
    }

    // An answer of the system, of which the error is kept for a person.
    fn told<T>(&mut self, answer: io::Result<T>) -> Result<T, DiskError> {
        match answer {
            Ok(value) => Ok(value),
            Err(error) => {
                let is_name = error.kind() == ErrorKind::AlreadyExists;
                self.why = Some(error);
                Err(if is_name {
                    DiskError::Name
                } else {
                    DiskError::Failed
                })
            }
        }
    }
}

/// A folder of the system, by the program's handle.
#[derive(Drop)]
pub struct SystemDisk<'a, R: Files> {
    rt: &'a R,
    folder: &'a mut SystemFolder<R::File>,
}

impl<'a, R: Files> SystemDisk<'a, R> {
    /// This folder.
    pub fn new(rt: &'a R, folder: &'a mut SystemFolder<R::File>) -> SystemDisk<'a, R> {
        SystemDisk { rt, folder }
    }
}

impl<'a, R: Files> Disk for SystemDisk<'a, R>
where
    R::File: Lock,
{
    ghost tells = { ⊥ };

    ghost opened = { λ _ _. ⊥ };

    ghost held = { λ _ _. ⊥ };

    ghost found_open = { λ _ _. Unit {0} };

    ghost found_free = { λ _ _. Unit {0} };

    ghost seen = { λ _ _ _. ⊥ };

    ghost named = { λ _ _. ⊥ };

    ghost stale = { λ _ _ _. ⊥ };

    ghost kept = { λ _ _ _. ⊥ };

    ghost left = { λ _ _ _. ⊥ };

    ghost moment = { λ _. 0 };

    ghost since = { λ _ _ _ _. ⊥ };

    ghost told = { λ disk n c seen. seen };

    ghost leaves_named = { λ disk n c named left. absurd left };

    ghost leaves_seen = { λ disk n b c seen left. absurd left };

    ghost counts_now = { λ disk t n c le left. left };

    ghost only_now = { λ disk n c since. since };

    fn make(&mut self, name: &str) -> Result<(), DiskError> {
        let made = File::create_new(self.rt, name);
        let file = self.folder.told(made)?;
        self.folder.file = Some(file);
        Ok(())
    }

    fn reopen(&mut self, name: &str) -> Result<(), DiskError> {
        let opened = File::options().append(true).open(self.rt, name);
        let file = self.folder.told(opened)?;
        self.folder.file = Some(file);
        Ok(())
    }

    fn hold(&mut self) -> Result<bool, DiskError> {
        let held = match &self.folder.file {
            Some(file) => file.hold(),
            None => return Err(DiskError::Closed),
        };
        self.folder.told(held)
    }

    // Nothing but a file is opened: a link isn't followed, and a pipe would make it wait.
    fn is_anothers(&self, name: &str) -> bool {
        match self.rt.symlink_metadata(name) {
            Ok(found) if found.is_file() => {}
            _ => return false,
        }
        match File::open(self.rt, name) {
            Ok(file) => !file.hold().unwrap_or(true),
            Err(_) => false,
        }
    }

    fn is_open_at(&self, name: &str) -> bool {
        let Some(file) = &self.folder.file else {
            return false;
        };
        match (file.metadata(), self.rt.symlink_metadata(name)) {
            (Ok(opened), Ok(found)) => opened.dev() == found.dev() && opened.ino() == found.ino(),
            _ => false,
        }
    }

    fn add(&mut self, bytes: &[u8]) -> Result<(), DiskError> {
        let added = match &mut self.folder.file {
            Some(file) => file.write_all(bytes),
            None => return Err(DiskError::Closed),
        };
        self.folder.told(added)
    }

    fn sync(&mut self) -> Result<(), DiskError> {
        let synced = match &self.folder.file {
            Some(file) => file.sync_data(),
            None => return Err(DiskError::Closed),
        };
        self.folder.told(synced)
    }

    fn sync_names(&mut self) -> Result<(), DiskError> {
        let opened = File::open(self.rt, self.folder.path.as_str());
        let names = self.folder.told(opened)?;
        self.folder.told(names.sync_all())
    }

    fn rename(&mut self, from: &str, to: &str) -> Result<(), DiskError> {
        let renamed = self.rt.rename(from, to);
        self.folder.told(renamed)
    }

    // The file is closed, and not held any more, after its name is gone.
    fn remove(&mut self, name: &str) -> Result<(), DiskError> {
        let removed = self.rt.remove_file(name);
        self.folder.file = None;
        self.folder.told(removed)
    }

    fn read(&mut self, alloc: Global, name: &str) -> Result<Option<Vec<u8>>, DiskError> {
        match File::open(self.rt, name) {
            Err(e) if e.kind() == ErrorKind::NotFound => Ok(None),
            opened => {
                let mut file = self.folder.told(opened)?;
                let mut bytes = Vec::new(alloc);
                let read = file.read_to_end(&mut bytes);
                self.folder.told(read)?;
                Ok(Some(bytes))
            }
        }
    }
}
