//! A disk for tests: that of the test, but calls of it fail, or another process is there first. A write takes three bytes at
//! most.
use local_tree::{Close, Lock};
use std::alloc::{AllocError, Allocator, Global};
use std::fs::{File, Files, Metadata, OpenFile, OpenOptions};
use std::io;
use std::io::{Error, ErrorKind, Read, Seek, SeekFrom, Write};
use std::sync::Arc;
use std::sync::atomic::{AtomicBool, AtomicU64, Ordering};

/// What befalls a disk.
#[derive(Clone, Copy)]
pub(crate) enum Mishap {
    /// From the call of this number on, counted from 0, so many calls fail and do nothing.
    Fails(u64, u64),
    /// Before the first call of this name for this path another process makes this there: a `dir`, a `file`, or a `link` to
    /// `../outside`; or it removes the directory of this `lock`.
    Meets(&'static str, &'static str, &'static str),
    /// It has room for so many bytes of files that are written. A file that is taken away or replaced leaves its room.
    Holds(u64),
}

/// What a disk and its files share.
#[derive(Drop)]
pub(crate) struct DiskLog {
    mishap: Mishap,
    calls: AtomicU64,
    closed: AtomicU64,
    lost: AtomicU64,
    held: AtomicU64,
    is_over: AtomicBool,
}

/// A disk to which something befalls.
#[derive(Drop)]
pub(crate) struct FaultyDisk {
    rt: HostRuntime,
    log: Arc<DiskLog>,
}

/// An open file of it.
#[derive(Drop)]
pub(crate) struct DiskFile {
    file: File,
    log: Arc<DiskLog>,
}

/// What is answered to a call that nobody makes here.
fn unsupported<T>() -> io::Result<T> {
    Err(Error::from(ErrorKind::Unsupported))
}

impl DiskLog {
    // Counts a call, and returns whether it fails.
    fn count(&self) -> io::Result<()> {
        let number = self.calls.fetch_add(1, Ordering::SeqCst);
        match self.mishap {
            Mishap::Fails(from, lasting)
                if number >= from
                    && number - from < lasting
                    && !self.is_over.load(Ordering::SeqCst) => {
                Err(Error::from(ErrorKind::Other))
            }
            _ => Ok(()),
        }
    }

    // The same of a call without which a file isn't whole under its name.
    fn count_needed(&self) -> io::Result<()> {
        let counted = self.count();
        if counted.is_err() {
            self.lost.fetch_add(1, Ordering::SeqCst);
        }
        counted
    }

    // Takes room for so many bytes, unless the disk is full.
    fn take_room(&self, bytes: usize) -> io::Result<()> {
        let bytes = bytes as u64;
        let held = self.held.fetch_add(bytes, Ordering::SeqCst);
        match self.mishap {
            Mishap::Holds(room) if held.saturating_add(bytes) > room => {
                self.held.fetch_sub(bytes, Ordering::SeqCst);
                Err(Error::from(ErrorKind::StorageFull))
            }
            _ => Ok(()),
        }
    }

    /// How many calls were made.
    pub(crate) fn calls(&self) -> u64 {
        self.calls.load(Ordering::SeqCst)
    }

    /// How many files were closed with an answer.
    pub(crate) fn closed(&self) -> u64 {
        self.closed.load(Ordering::SeqCst)
    }

    /// How many calls failed without which a file isn't whole under its name: writes, closes, renames.
    pub(crate) fn lost(&self) -> u64 {
        self.lost.load(Ordering::SeqCst)
    }

    /// Nothing befalls the disk any more.
    pub(crate) fn mend(&self) {
        self.is_over.store(true, Ordering::SeqCst);
    }
}

impl FaultyDisk {
    pub(crate) fn new(
        rt: HostRuntime,
        alloc: Global,
        mishap: Mishap,
    ) -> Result<FaultyDisk, AllocError> {
        let log = DiskLog {
            mishap,
            calls: AtomicU64::new(0),
            closed: AtomicU64::new(0),
            lost: AtomicU64::new(0),
            held: AtomicU64::new(0),
            is_over: AtomicBool::new(false),
        };
        Ok(FaultyDisk {
            rt,
            log: Arc::new(alloc, log)?,
        })
    }

    /// What befell it.
    pub(crate) fn log(&self) -> &DiskLog {
        &self.log
    }

    // The room of the file at a path, if there is one, is free from now on.
    fn leave_room(&self, path: &str) {
        if let Ok(found) = self.rt.symlink_metadata(path) {
            if found.is_file() {
                self.log.held.fetch_sub(found.len(), Ordering::SeqCst);
            }
        }
    }

    // Counts a call for a path, which fails, or to which another process comes first.
    fn begin(&self, call: &str, path: &str) -> io::Result<()> {
        self.log.count()?;
        let Mishap::Meets(at, there, made) = self.log.mishap else {
            return Ok(());
        };
        if at != call || there != path || self.log.is_over.swap(true, Ordering::SeqCst) {
            return Ok(());
        }
        match made {
            "dir" => self.rt.create_dir(path),
            "file" => std::fs::write(&self.rt, path, "theirs"),
            "removed" => {
                let dir = path.strip_suffix("/lock").unwrap_or(path);
                self.rt.remove_dir_all(self.rt.alloc(), dir)
            }
            _ => self.rt.symlink("../outside", path),
        }
    }
}

impl Files for FaultyDisk {
    type File = DiskFile;

    type Dir = <HostRuntime as Files>::Dir;

    fn open_file(&self, how: &OpenOptions, path: &str) -> io::Result<DiskFile> {
        self.begin("open", path)?;
        Ok(DiskFile {
            file: self.rt.open_file(how, path)?,
            log: Arc::try_clone(&self.log)?,
        })
    }

    fn open_dir(&self, _path: &str) -> io::Result<Self::Dir> {
        unsupported()
    }

    fn metadata(&self, path: &str) -> io::Result<Metadata> {
        self.begin("stat", path)?;
        self.rt.metadata(path)
    }

    fn symlink_metadata(&self, path: &str) -> io::Result<Metadata> {
        self.begin("lstat", path)?;
        self.rt.symlink_metadata(path)
    }

    fn copy(&self, _from: &str, _to: &str) -> io::Result<u64> {
        unsupported()
    }

    fn rename(&self, from: &str, to: &str) -> io::Result<()> {
        if let Err(e) = self.begin("rename", to) {
            self.log.lost.fetch_add(1, Ordering::SeqCst);
            return Err(e);
        }
        self.leave_room(to);
        self.rt.rename(from, to)
    }

    fn remove_file(&self, path: &str) -> io::Result<()> {
        self.begin("remove", path)?;
        self.leave_room(path);
        self.rt.remove_file(path)
    }

    // If a directory is there none is made in any case, so that such a call doesn't count.
    fn create_dir(&self, path: &str) -> io::Result<()> {
        if self.rt.symlink_metadata(path).is_err() {
            self.begin("mkdir", path)?;
        }
        self.rt.create_dir(path)
    }

    fn remove_dir(&self, path: &str) -> io::Result<()> {
        self.begin("rmdir", path)?;
        self.rt.remove_dir(path)
    }

    // What is in it leaves no room here: a test looks at that of files alone.
    fn remove_dir_all<B: Allocator>(&self, alloc: B, path: &str) -> io::Result<()> {
        self.begin("rmdir", path)?;
        self.rt.remove_dir_all(alloc, path)
    }
}

impl Read for DiskFile {
    fn read(&mut self, _room: &mut [u8]) -> io::Result<usize> {
        Err(Error::from(ErrorKind::Unsupported))
    }
}

impl Write for DiskFile {
    fn write(&mut self, bytes: &[u8]) -> io::Result<usize> {
        self.log.count_needed()?;
        let taken = bytes.len().min(3);
        self.log.take_room(taken)?;
        self.file.write(&bytes[..taken])
    }

    fn flush(&mut self) -> io::Result<()> {
        Ok(())
    }
}

impl Seek for DiskFile {
    fn seek(&mut self, _to: SeekFrom) -> io::Result<u64> {
        unsupported()
    }
}

impl OpenFile for DiskFile {
    fn metadata(&self) -> io::Result<Metadata> {
        self.log.count()?;
        self.file.metadata()
    }

    fn set_len(&self, _size: u64) -> io::Result<()> {
        unsupported()
    }

    fn sync_all(&self) -> io::Result<()> {
        self.log.count()
    }

    fn sync_data(&self) -> io::Result<()> {
        self.log.count()
    }
}

impl Lock for DiskFile {
    fn hold(&self) -> io::Result<bool> {
        self.log.count()?;
        self.file.hold()
    }
}

// A file is closed also if it answers that it failed.
impl Close for DiskFile {
    fn close(self) -> io::Result<()> {
        let DiskFile { file, log } = self;
        let closed = file.close();
        log.closed.fetch_add(1, Ordering::SeqCst);
        log.count_needed()?;
        closed
    }
}
