//! Where files are put below a folder: directories are found or made, and what is neither a file nor a directory is refused.
use crate::parts::write_new;
use local_names::is_local_name;
use std::alloc::{AllocError, Global};
use std::fs::Files;
use std::io::{Error, ErrorKind};
use std::time::SystemTime;
use std::{fs, io};
use streams::Close;

/// The directory that was last found or made.
#[derive(Drop)]
pub(crate) struct Known {
    // Below the folder; empty at first, and after a put that failed.
    dirs: String,
    // Whether it was made here, so that nothing is in it except what was put there since.
    is_new: bool,
}

impl Known {
    // None.
    pub(crate) fn nothing(alloc: Global) -> Known {
        Known {
            dirs: String::new(alloc),
            is_new: false,
        }
    }

    // Whether it is this one.
    pub(crate) fn is(&self, dirs: &str) -> bool {
        !self.dirs.is_empty() && self.dirs.as_str() == dirs
    }

    // It is none from then on.
    pub(crate) fn forget(&mut self) {
        self.dirs.clear();
        self.is_new = false;
    }
}

// Makes a path that of this name below it.
fn push_name(path: &mut String, name: &str) -> Result<(), AllocError> {
    path.push_str("/")?;
    path.push_str(name)
}

/// The path of a name below another.
pub(crate) fn path_below(alloc: Global, folder: &str, name: &str) -> Result<String, AllocError> {
    let mut path = String::new(alloc);
    path.push_str(folder)?;
    push_name(&mut path, name)?;
    Ok(path)
}

// Refuses what isn't a directory, a symbolic link too.
fn look_for_dir<R: Files>(rt: &R, path: &str) -> io::Result<()> {
    match rt.symlink_metadata(path) {
        Ok(found) if found.is_dir() => Ok(()),
        Ok(_) => Err(Error::from(ErrorKind::NotADirectory)),
        Err(e) => Err(e),
    }
}

/// Makes a directory, unless it is there. If another run makes it meanwhile, it is looked at again. Returns whether this call made it.
pub(crate) fn make_dir<R: Files>(rt: &R, path: &str) -> io::Result<bool> {
    match look_for_dir(rt, path) {
        Err(e) if e.kind() == ErrorKind::NotFound => match rt.create_dir(path) {
            Err(e) if e.kind() == ErrorKind::AlreadyExists => {
                look_for_dir(rt, path)?;
                Ok(false)
            }
            Err(e) => Err(e),
            Ok(()) => Ok(true),
        },
        Err(e) => Err(e),
        Ok(()) => Ok(false),
    }
}

// Refuses these directories below a folder, unless each is there and is one; the last is known from then on.
fn find_dirs<R: Files>(
    rt: &R,
    alloc: Global,
    folder: &str,
    known: &mut Known,
    dirs: &str,
) -> io::Result<()> {
    if known.is(dirs) {
        return Ok(());
    }
    let mut path = String::from_str(alloc, folder)?;
    for segment in dirs.split('/') {
        push_name(&mut path, segment)?;
        look_for_dir(rt, path.as_str())?;
    }
    known.forget();
    known.dirs.push_str(dirs)?;
    Ok(())
}

/// Refuses a name below a folder, unless each of its directories is there and is one. Makes nothing.
pub(crate) fn find_dirs_of<R: Files>(
    rt: &R,
    alloc: Global,
    folder: &str,
    known: &mut Known,
    name: &str,
) -> io::Result<()> {
    if !is_local_name(name) {
        return Err(Error::from(ErrorKind::InvalidInput));
    }
    match name.rsplit_once('/') {
        Some((dirs, _)) => find_dirs(rt, alloc, folder, known, dirs),
        None => Ok(()),
    }
}

// Makes these directories below a path, from the top down; it leads to the last from then on. Whether that was made here.
fn descend_all<R: Files>(rt: &R, path: &mut String, dirs: &str) -> io::Result<bool> {
    let mut is_new = false;
    for segment in dirs.split('/') {
        push_name(path, segment)?;
        is_new = make_dir(rt, path.as_str())?;
    }
    Ok(is_new)
}

// Finds or makes a folder, and these directories below it. Whether the last was made here.
fn make_dirs_below<R: Files>(rt: &R, alloc: Global, folder: &str, dirs: &str) -> io::Result<bool> {
    fs::create_dir_all(rt, folder)?;
    let mut path = String::from_str(alloc, folder)?;
    descend_all(rt, &mut path, dirs)
}

// The same, unless these directories were the last that were found or made; they are from then on.
fn make_dirs<R: Files>(
    rt: &R,
    alloc: Global,
    folder: &str,
    known: &mut Known,
    dirs: &str,
) -> io::Result<bool> {
    if known.is(dirs) {
        return Ok(known.is_new);
    }
    let is_new = make_dirs_below(rt, alloc, folder, dirs)?;
    known.forget();
    known.dirs.push_str(dirs)?;
    known.is_new = is_new;
    Ok(is_new)
}

/// Refuses what is where a file is to be, unless it is a file or nothing.
pub(crate) fn look_for_file<R: Files>(rt: &R, path: &str) -> io::Result<()> {
    match rt.symlink_metadata(path) {
        Ok(found) if found.is_file() => Ok(()),
        Ok(_) => Err(Error::from(ErrorKind::AlreadyExists)),
        Err(e) if e.kind() == ErrorKind::NotFound => Ok(()),
        Err(e) => Err(e),
    }
}

/// Writes a file under another name, and gives it its own when it is whole.
pub(crate) fn put_by_way_of<R: Files>(
    rt: &R,
    part: &str,
    path: &str,
    bytes: &[u8],
    modified: Option<SystemTime>,
) -> io::Result<()>
where
    R::File: Close,
{
    write_new(rt, part, bytes, modified)?;
    rt.rename(part, path)
}

// Makes the directories of a file below a folder. Whether the last was made here.
fn make_dirs_of<R: Files>(
    rt: &R,
    alloc: Global,
    folder: &str,
    known: &mut Known,
    name: &str,
) -> io::Result<bool> {
    if !is_local_name(name) {
        return Err(Error::from(ErrorKind::InvalidInput));
    }
    match name.rsplit_once('/') {
        Some((dirs, _)) => make_dirs(rt, alloc, folder, known, dirs),
        None => Ok(false),
    }
}

/// Makes the directories of a file below a folder, and doesn't look at its place. Returns its path.
pub(crate) fn find_path<R: Files>(
    rt: &R,
    alloc: Global,
    folder: &str,
    known: &mut Known,
    name: &str,
) -> io::Result<String> {
    make_dirs_of(rt, alloc, folder, known, name)?;
    Ok(path_below(alloc, folder, name)?)
}

/// The same, and refuses what is in its place, which can be nothing in a directory that was made here.
pub(crate) fn find_place<R: Files>(
    rt: &R,
    alloc: Global,
    folder: &str,
    known: &mut Known,
    name: &str,
) -> io::Result<String> {
    let is_new = make_dirs_of(rt, alloc, folder, known, name)?;
    let path = path_below(alloc, folder, name)?;
    if !is_new {
        look_for_file(rt, path.as_str())?;
    }
    Ok(path)
}

// Gives a whole file a further name where nothing is, and takes away the one that it had.
fn link_over<R: Files>(rt: &R, from: &str, to: &str) -> io::Result<()> {
    rt.hard_link(from, to)?;
    let removed = rt.remove_file(from);
    if removed.is_err() {
        // Only one of its names may stay.
        let _ = rt.remove_file(to);
    }
    removed
}

/// Moves a whole file to a path, and refuses what is there, unless it is a file. If nothing is, it is moved by a link: a disk has renames
/// from one directory to another wait for each other, and not links.
pub(crate) fn move_file<R: Files>(rt: &R, from: &str, to: &str) -> io::Result<()> {
    if link_over(rt, from, to).is_ok() {
        return Ok(());
    }
    look_for_file(rt, to)?;
    rt.rename(from, to)
}
