//! Parts: files that are written under other names, and get their own when they are whole.
use std::alloc::Global;
use std::fs::{File, FileTimes, Files, OpenFile};
use std::io;
use std::io::{ErrorKind, Write};
use std::time::SystemTime;
use streams::Close;

/// A file that is made ready before its turn.
#[derive(Drop)]
pub struct FilePart<'a> {
    // The place of its file among those of the site.
    place: usize,
    path: String,
    bytes: &'a [u8],
    // Whether it is at its path, whole and closed without an error.
    is_ready: bool,
}

impl<'a> FilePart<'a> {
    // The part of the file at this place, which is to be at this path with these bytes. Nothing is there yet.
    pub(crate) fn new(place: usize, path: String, bytes: &'a [u8]) -> FilePart<'a> {
        FilePart {
            place,
            path,
            bytes,
            is_ready: false,
        }
    }

    /// Writes it, and keeps whether that ended well. What fails may leave something at its path. Opens one file, and closes it.
    pub fn write<R: Files>(&mut self, rt: &R)
    where
        R::File: Close,
    {
        self.is_ready = write_new(rt, self.path.as_str(), self.bytes, None).is_ok();
    }

    // Whether it is whole, and that of the file at this place.
    pub(crate) fn is_ready_for(&self, place: usize) -> bool {
        self.is_ready && self.place == place
    }

    // Gives it its name.
    pub(crate) fn rename<R: Files>(&self, rt: &R, path: &str) -> io::Result<()> {
        rt.rename(self.path.as_str(), path)
    }

    // Takes away what is at its path.
    pub(crate) fn remove<R: Files>(&self, rt: &R) {
        let _ = rt.remove_file(self.path.as_str());
    }
}

/// The parts of a batch, in a directory of their own: a disk may make one file at a time in a directory, so parts that are made
/// ready don't wait for names that are given to others meanwhile.
#[derive(Drop)]
pub(crate) struct Batch<'a> {
    pub(crate) dir: String,
    pub(crate) parts: Vec<FilePart<'a>>,
}

impl<'a> Batch<'a> {
    // One without parts, for which there is no directory.
    pub(crate) fn empty(alloc: Global) -> Batch<'a> {
        Batch {
            dir: String::new(alloc),
            parts: Vec::new(alloc),
        }
    }

    // Takes its directory away, once nothing is in it.
    pub(crate) fn remove_dir<R: Files>(&self, rt: &R) {
        if !self.parts.is_empty() {
            let _ = rt.remove_dir(self.dir.as_str());
        }
    }

    // Takes its parts away, and its directory.
    pub(crate) fn remove<R: Files>(&self, rt: &R) {
        for part in &self.parts {
            part.remove(rt);
        }
        self.remove_dir(rt);
    }
}

/// Who gives names to parts that are ready.
pub trait Naming {
    /// Gives them their names, in order.
    fn give_names(&mut self);
}

/// Who writes parts, perhaps several side by side.
pub trait PartCrew {
    /// Has [`FilePart::write`] called at each part, in any order, and meanwhile names given to the parts before them, once. If the
    /// first isn't called, or fails, if a part is moved, and if no names are given, files are put as they would be without a crew.
    fn write_parts<N: Naming>(&self, parts: &mut [FilePart<'_>], naming: &mut N);
}

// Makes a new file. What a killed run left there is taken away first; a link isn't followed.
fn create_new<R: Files>(rt: &R, path: &str) -> io::Result<R::File> {
    match File::create_new(rt, path) {
        Err(e) if e.kind() == ErrorKind::AlreadyExists => {
            rt.remove_file(path)?;
            File::create_new(rt, path)
        }
        made => made,
    }
}

/// Writes a new file, which has this time if there is one, and closes it: some disks say only then that there is no room for what they
/// took.
pub(crate) fn write_new<R: Files>(
    rt: &R,
    path: &str,
    bytes: &[u8],
    modified: Option<SystemTime>,
) -> io::Result<()>
where
    R::File: Close,
{
    let mut file = create_new(rt, path)?;
    file.write_all(bytes)?;
    if let Some(time) = modified {
        // A disk without times keeps the bytes all the same.
        let _ = file.set_times(FileTimes::new().set_modified(time));
    }
    file.close()
}
