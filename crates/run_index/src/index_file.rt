//! The index of a mirror on the disk, and the lines for a person on the program's own files.
ghost use Rattle.std.specs.Prelude.{◌≡◌, ◌++◌, ◌∷◌, IfOk, string_bytes};

use crate::journal::is_nothing;
use crate::page_files::is_any_there;
use earlier_pages::changed_at;
use mirror_index::{IndexFault, MAX_INDEX, MirrorIndex, read_index, write_index};
use program_io::SharedFailures;
use std::alloc::{AllocError, Global};
use std::fs::{File, Files};
use std::io;
use std::io::ErrorKind;
use std::os::unix::fs::MetadataExt;
use std::sync::Wait;
use streams::{Close, ReadInputFault, read_input};

/// What the index is called, directly below the folder. No page has a name that begins so.
pub(crate) const INDEX: &str = ".wgetr%index";

/// The path of a file of the program's own, directly below a folder.
pub(crate) fn own_path(alloc: Global, folder: &str, name: &str) -> Result<String, AllocError>
    ensures { IfOk result (λ path. string_bytes path ≡ folder.now ++ 47 ∷ name.now) }
{
    format!(in alloc; "{folder}/{name}")
}

/// By what one sees whether the index at a path is the one that was there before.
#[derive(Clone, Copy, Debug, PartialEq, Eq)]
pub(crate) struct IndexSight {
    dev: u64,
    ino: u64,
    len: u64,
    changed: Option<u64>,
}

/// Whether nothing is at the path of an index: not if one can't know.
pub(crate) fn is_absent<R: Files>(rt: &R, path: &str) -> bool {
    match rt.symlink_metadata(path) {
        Ok(_) => false,
        Err(error) => is_nothing(&error),
    }
}

/// What is seen of the index at a path. None if nothing is there.
pub(crate) fn sight_of<R: Files>(rt: &R, path: &str) -> Option<IndexSight> {
    let found = rt.symlink_metadata(path).ok()?;
    Some(IndexSight {
        dev: found.dev(),
        ino: found.ino(),
        len: found.len(),
        changed: changed_at(&found),
    })
}

/// Says to a person what is so with a file of the program's own, and what follows.
pub(crate) fn tell<R: Wait>(
    rt: &R,
    alloc: Global,
    failures: &SharedFailures,
    path: &str,
    why: &str,
    then: &str,
) -> Result<(), AllocError> {
    let line = format!(in alloc; "{path}: {why}; {then}\n")?;
    failures.say(rt, line.as_str());
    Ok(())
}

// Why there is no index.
#[derive(Drop)]
enum Unread {
    // There is nothing.
    Nothing,
    // It can't be used, for this reason.
    Unused(&'static str),
    // This line is damaged.
    Line(usize),
    Memory,
}

// All bytes of the index at a path.
fn bytes_at<R: Files>(rt: &R, alloc: Global, path: &str) -> Result<Vec<u8>, Unread> {
    match rt.symlink_metadata(path) {
        Ok(found) if found.is_file() => {}
        Err(e) if is_nothing(&e) => return Err(Unread::Nothing),
        _ => return Err(Unread::Unused("isn't a file")),
    }
    let Ok(mut file) = File::open(rt, path) else {
        return Err(Unread::Unused("can't be read"));
    };
    match read_input(alloc, &mut file, MAX_INDEX) {
        Ok(bytes) => Ok(bytes),
        Err(ReadInputFault::Long) => Err(Unread::Unused("is too long")),
        Err(ReadInputFault::Failed) => Err(Unread::Unused("can't be read")),
        Err(ReadInputFault::Memory) => Err(Unread::Memory),
    }
}

// The index at a path.
fn read_at<R: Files>(rt: &R, alloc: Global, path: &str) -> Result<MirrorIndex, Unread> {
    let bytes = bytes_at(rt, alloc, path)?;
    match read_index(alloc, bytes.as_slice()) {
        Ok(index) => Ok(index),
        Err(IndexFault::Line(line)) => Err(Unread::Line(line)),
        Err(IndexFault::Version) => Err(Unread::Unused("is of another version")),
        Err(IndexFault::Memory) => Err(Unread::Memory),
    }
}

/// What follows if an index can't be used.
const ALL_ASKED: &str = "each page is requested";

// Whether an index is of another folder: it has pages, and no file of any is in this one.
fn is_elsewhere<R: Files>(
    rt: &R,
    alloc: Global,
    folder: &str,
    index: &MirrorIndex,
) -> Result<bool, AllocError> {
    let entries = index.entries();
    Ok(!entries.is_empty() && !is_any_there(rt, alloc, folder, entries)?)
}

/// The index at a path, if it can be used. Nothing says why it can't. Fails only if memory runs out.
pub(crate) fn index_at<R: Files>(
    rt: &R,
    alloc: Global,
    path: &str,
) -> Result<Option<MirrorIndex>, AllocError> {
    match read_at(rt, alloc, path) {
        Ok(index) => Ok(Some(index)),
        Err(Unread::Memory) => Err(AllocError),
        Err(_) => Ok(None),
    }
}

/// The index of a folder, if there is one that can be used. If what is there can't, a line for a person says so. Fails only if memory runs
/// out.
pub(crate) fn index_of<R: Files + Wait>(
    rt: &R,
    alloc: Global,
    failures: &SharedFailures,
    folder: &str,
) -> Result<Option<MirrorIndex>, AllocError> {
    let path = own_path(alloc, folder, INDEX)?;
    let path = path.as_str();
    match read_at(rt, alloc, path) {
        Ok(index) => {
            if !is_elsewhere(rt, alloc, folder, &index)? {
                return Ok(Some(index));
            }
            let why = "none of its files is here";
            tell(rt, alloc, failures, path, why, ALL_ASKED)?;
        }
        Err(Unread::Nothing) => {}
        Err(Unread::Unused(why)) => tell(rt, alloc, failures, path, why, ALL_ASKED)?,
        Err(Unread::Line(line)) => {
            let why = format!(in alloc; "line {line} is damaged")?;
            tell(rt, alloc, failures, path, why.as_str(), ALL_ASKED)?;
        }
        Err(Unread::Memory) => return Err(AllocError),
    }
    Ok(None)
}

/// Writes the index of a folder in the run's own directory, and puts it in its place when it is whole.
pub(crate) fn put_index<R: Files>(
    rt: &R,
    alloc: Global,
    own: &str,
    path: &str,
    index: &MirrorIndex,
) -> io::Result<()>
where
    R::File: Close,
{
    let part = format!(in alloc; "{own}/index")?;
    let mut file = File::create_new(rt, part.as_str())?;
    if write_index(alloc, &mut file, index).is_err() {
        drop(file);
        let _ = rt.remove_file(part.as_str());
        return Err(io::Error::from(ErrorKind::Other));
    }
    file.close()?;
    rt.rename(part.as_str(), path)
}
