//! Files that are to have other bytes in place of their bodies. What takes a file's place is prepared elsewhere, and takes it when it is
//! whole.
use super::change_lanes::FileToChange;
use super::originals::{HIDDEN, ORIGINAL, Originals};
use super::places::{Known, find_place, look_for_file, path_below, put_by_way_of};
use crate::body_change::{BodyChange, ChangeFault};
use crate::parts::write_new;
use kept_bodies::BodyKind;
use std::alloc::Global;
use std::fs::{File, Files, OpenFile};
use std::io;
use std::io::{Error, ErrorKind, Read};
use std::time::SystemTime;
use streams::Close;

// Where a body is kept as it came.
#[derive(Drop)]
enum Original {
    Nowhere,
    // At this path, beside its file.
    Beside(String),
    // Under this name below the folder.
    Hidden(String),
}

// Where the body of the file of this name below a folder is kept.
fn original_of(
    alloc: Global,
    folder: &str,
    name: &str,
    originals: Originals,
) -> io::Result<Original> {
    match originals {
        Originals::Nowhere => Ok(Original::Nowhere),
        Originals::Beside => Ok(Original::Beside(format!(in alloc; "{folder}/{name}{ORIGINAL}")?)),
        Originals::Hidden => Ok(Original::Hidden(format!(in alloc; "{HIDDEN}/{name}")?)),
    }
}

/// What becomes of one file of a page.
#[derive(Drop)]
pub(crate) struct FileChange {
    place: usize,
    path: String,
    // Where that is prepared which takes its place.
    part: String,
    original: Original,
    // Where that is prepared.
    original_part: String,
    kind: BodyKind,
    len: u64,
    // Whether the body is new, and no earlier run's.
    is_received: bool,
}

// What room is filled with, many bytes at a time.
static ZEROS: [u8; 4096] = [0; 4096];

// Room for so many bytes.
fn new_room(alloc: Global, len: u64) -> io::Result<Vec<u8>> {
    let Ok(len) = usize::try_from(len) else {
        return Err(Error::from(ErrorKind::OutOfMemory));
    };
    let mut room = Vec::with_capacity(alloc, len)?;
    let mut left = len;
    while left > ZEROS.len() {
        room.extend_from_slice(&ZEROS)?;
        left -= ZEROS.len();
    }
    room.extend_from_slice(&ZEROS[..left])?;
    Ok(room)
}

// The result of reading a file that is to have so many bytes.
#[derive(Clone, Copy)]
enum FileReading {
    // It has them, and was changed at this time, if the system says it.
    Whole(Option<SystemTime>),
    // It hasn't: another run put its own file there meanwhile, and changes it.
    Other,
}

// When an open file was changed, if the system says it.
fn time_of<F: OpenFile>(file: &F) -> Option<SystemTime> {
    match file.metadata() {
        Ok(found) => found.modified().ok(),
        Err(_) => None,
    }
}

// Reads the file at a path into this room, which it is to fill.
fn read_body<R: Files>(rt: &R, path: &str, body: &mut [u8]) -> io::Result<FileReading> {
    let mut file = File::open(rt, path)?;
    match file.read_exact(body) {
        Ok(()) => {}
        Err(error) if error.kind() == ErrorKind::UnexpectedEof => return Ok(FileReading::Other),
        Err(error) => return Err(error),
    }
    let mut more = [0u8; 1];
    match file.read_exact(&mut more) {
        Err(error) if error.kind() == ErrorKind::UnexpectedEof => {
            Ok(FileReading::Whole(time_of(&file)))
        }
        Err(error) => Err(error),
        Ok(()) => Ok(FileReading::Other),
    }
}

// What is to be in place of a body, as an answer with the system's errors.
fn changed<C: BodyChange>(
    alloc: Global,
    place: usize,
    kind: BodyKind,
    body: &[u8],
    change: &C,
) -> io::Result<Option<Vec<u8>>> {
    match change.change(alloc, place, kind, body) {
        Ok(other) => Ok(other),
        Err(ChangeFault::Memory) => Err(Error::from(ErrorKind::OutOfMemory)),
        Err(ChangeFault::Left) => Err(Error::from(ErrorKind::InvalidData)),
    }
}

impl FileChange {
    // The change of a file below a folder, prepared in a directory of the run's own. Its body is kept where that is said.
    pub(crate) fn new(
        alloc: Global,
        folder: &str,
        own: &str,
        file: &FileToChange<'_>,
        originals: Originals,
    ) -> io::Result<FileChange> {
        Ok(FileChange {
            place: file.place,
            path: path_below(alloc, folder, file.name)?,
            part: format!(in alloc; "{own}/part")?,
            original: original_of(alloc, folder, file.name, originals)?,
            original_part: format!(in alloc; "{own}/part{ORIGINAL}")?,
            kind: file.part.kind,
            len: file.part.len,
            is_received: file.part.is_received,
        })
    }

    // Keeps this body, which has this time if there is one, in the program's own directory below a folder.
    fn hide<R: Files>(
        &self,
        rt: &R,
        alloc: Global,
        folder: &str,
        known: &mut Known,
        name: &str,
        body: &[u8],
        modified: Option<SystemTime>,
    ) -> io::Result<()>
    where
        R::File: Close,
    {
        let path = find_place(rt, alloc, folder, known, name)?;
        put_by_way_of(
            rt,
            self.original_part.as_str(),
            path.as_str(),
            body,
            modified,
        )
    }

    // Keeps this body where it is to be kept. A hidden one that can't be kept is forgotten: the next run requests its page again.
    fn keep<R: Files>(
        &self,
        rt: &R,
        alloc: Global,
        folder: &str,
        known: &mut Known,
        body: &[u8],
        modified: Option<SystemTime>,
    ) -> io::Result<()>
    where
        R::File: Close,
    {
        match &self.original {
            Original::Nowhere => Ok(()),
            Original::Beside(path) => {
                put_by_way_of(
                    rt,
                    self.original_part.as_str(),
                    path.as_str(),
                    body,
                    modified,
                )
            }
            Original::Hidden(name) => {
                if self
                    .hide(rt, alloc, folder, known, name.as_str(), body, modified)
                    .is_err()
                {
                    known.forget();
                    let _ = rt.remove_file(self.original_part.as_str());
                }
                Ok(())
            }
        }
    }

    // Removes the body that an earlier run kept beside the file, which has the same bytes now.
    fn drop_outdated<R: Files>(&self, rt: &R) {
        if self.is_received {
            return;
        }
        if let Original::Beside(path) = &self.original {
            if look_for_file(rt, path.as_str()).is_ok() {
                let _ = rt.remove_file(path.as_str());
            }
        }
    }

    // Has the file have what is to be in place of its body, with its time, if that is another one. The body is kept first, so that it is
    // nowhere missing.
    fn make<R: Files, C: BodyChange>(
        &self,
        rt: &R,
        alloc: Global,
        folder: &str,
        known: &mut Known,
        change: &C,
    ) -> io::Result<()>
    where
        R::File: Close,
    {
        look_for_file(rt, self.path.as_str())?;
        let mut body = new_room(alloc, self.len)?;
        let FileReading::Whole(modified) = read_body(rt, self.path.as_str(), body.as_mut_slice())?
        else {
            return Ok(());
        };
        let body = body.as_slice();
        let Some(other) = changed(alloc, self.place, self.kind, body, change)? else {
            self.drop_outdated(rt);
            return Ok(());
        };
        write_new(rt, self.part.as_str(), other.as_slice(), modified)?;
        self.keep(rt, alloc, folder, known, body, modified)?;
        rt.rename(self.part.as_str(), self.path.as_str())
    }

    // Has the file have what is to be in place of its body; the folder is the one that it is below. After an error it has the body as it
    // came.
    pub(crate) fn finish<R: Files, C: BodyChange>(
        &self,
        rt: &R,
        alloc: Global,
        folder: &str,
        known: &mut Known,
        change: &C,
    ) -> io::Result<()>
    where
        R::File: Close,
    {
        let made = self.make(rt, alloc, folder, known, change);
        if made.is_err() {
            // A part that stays is removed before the next file.
            let _ = rt.remove_file(self.original_part.as_str());
            let _ = rt.remove_file(self.part.as_str());
        }
        made
    }
}
