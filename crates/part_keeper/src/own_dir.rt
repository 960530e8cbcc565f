//! A directory below the folder that one run alone uses. Who owns it is known by a lock, since two runs on one volume may have
//! processes of one number.
use std::alloc::Global;
use std::fs::{File, Files, OpenFile};
use std::io;
use std::io::{Error, ErrorKind};
use std::os::unix::fs::MetadataExt;
use streams::Lock;

/// How the directory is called, directly below the folder; a number follows. No host has a `%` (URL Standard, section 3.1), so no
/// page has a name that begins so.
const PART: &str = ".wgetr%part";

/// How many runs may use one folder at a time.
const MOST_RUNS: u32 = 1_024;

/// In how many directories a run looks for what killed runs left.
const LOOKED_AT: u32 = 16;

/// A directory that this run made and that no other uses.
///
/// A run makes its directory, then the file `lock` in it, and holds that until its end. So whoever can hold the lock of a directory
/// knows that its run has ended, and may remove it. All else goes into a directory of its own there, which is removed before the lock: so
/// a directory without a lock is empty, whenever a run was killed.
#[derive(Drop)]
pub struct OwnDir<F> {
    dir: String,
    // Of what is in it besides the lock.
    path: String,
    // The file that is held. On a disk without locks there is none, and no other run removes the directory.
    lock: Option<F>,
}

// The result of trying to hold a file.
#[derive(Drop)]
enum Held<F> {
    // It is held here from now on.
    Here(F),
    // Another run holds it, or nobody knows.
    Elsewhere,
    // There is no such file.
    Absent,
}

// The path of the directory of this number.
fn dir_path(alloc: Global, folder: &str, number: u32) -> io::Result<String> {
    let path = format!(in alloc; "{folder}/{PART}{number}")?;
    Ok(path)
}

// The path of the lock of a directory.
fn lock_path(alloc: Global, dir: &str) -> io::Result<String> {
    let path = format!(in alloc; "{dir}/lock")?;
    Ok(path)
}

// The path of what a directory has besides its lock.
fn inner_path(alloc: Global, dir: &str) -> io::Result<String> {
    let path = format!(in alloc; "{dir}/parts")?;
    Ok(path)
}

// Removes a directory whose lock is held: that last, with the directory.
fn remove_held<R: Files>(rt: &R, alloc: Global, dir: &str) -> io::Result<()> {
    let inner = inner_path(alloc, dir)?;
    match rt.remove_dir_all(alloc, inner.as_str()) {
        Err(e) if e.kind() != ErrorKind::NotFound => return Err(e),
        _ => {}
    }
    rt.remove_dir_all(alloc, dir)
}

// Whether an open file is still the one at a path: another run may have removed it, and made another.
fn is_at<R: Files>(rt: &R, file: &R::File, path: &str) -> bool {
    match (file.metadata(), rt.symlink_metadata(path)) {
        (Ok(opened), Ok(found)) => opened.dev() == found.dev() && opened.ino() == found.ino(),
        _ => false,
    }
}

// Tries to hold the file at a path. Nothing but a file is opened: a link isn't followed, and a pipe would make it wait.
fn try_to_hold<R: Files>(rt: &R, path: &str) -> Held<R::File>
where
    R::File: Lock,
{
    match rt.symlink_metadata(path) {
        Ok(found) if found.is_file() => {}
        Err(e) if e.kind() == ErrorKind::NotFound => return Held::Absent,
        _ => return Held::Elsewhere,
    }
    let Ok(file) = File::open(rt, path) else {
        return Held::Elsewhere;
    };
    let is_held = match file.hold() {
        Ok(is_held) => is_held,
        Err(_) => false,
    };
    if is_held && is_at(rt, &file, path) {
        Held::Here(file)
    } else {
        Held::Elsewhere
    }
}

// Removes the directory of a run that has ended.
fn remove_left<R: Files>(rt: &R, alloc: Global, dir: &str) -> io::Result<()>
where
    R::File: Lock,
{
    match rt.symlink_metadata(dir) {
        Ok(found) if found.is_dir() => {}
        _ => return Ok(()),
    }
    let lock = lock_path(alloc, dir)?;
    match try_to_hold(rt, lock.as_str()) {
        // It is held until all is removed, so that no other run takes what is being removed for its own.
        Held::Here(held) => {
            let removed = remove_held(rt, alloc, dir);
            drop(held);
            removed
        }
        Held::Elsewhere => Ok(()),
        // Its run was killed before it made its lock, or is about to make it: then it makes another directory.
        Held::Absent => rt.remove_dir(dir),
    }
}

// Makes the lock of a directory that was made here, and holds it. None if the directory was taken for one that an ended run left;
// no file if the disk has no locks.
fn make_lock<R: Files>(rt: &R, path: &str) -> io::Result<Option<Option<R::File>>>
where
    R::File: Lock,
{
    let file = match File::create_new(rt, path) {
        Ok(file) => file,
        Err(e) if e.kind() == ErrorKind::NotFound => return Ok(None),
        Err(e) => return Err(e),
    };
    let is_held = match file.hold() {
        Ok(is_held) => is_held,
        Err(_) => {
            drop(file);
            rt.remove_file(path)?;
            return Ok(Some(None));
        }
    };
    if is_held && is_at(rt, &file, path) {
        Ok(Some(Some(file)))
    } else {
        Ok(None)
    }
}

// A directory in which a run's own things are, and its lock, as `make_lock` has it.
type Inner<F> = (String, Option<F>);

// Makes the lock of a directory that was made here, and the directory for all else. None if the first was taken for one that an ended
// run left.
fn make_inner<R: Files>(rt: &R, alloc: Global, dir: &str) -> io::Result<Option<Inner<R::File>>>
where
    R::File: Lock,
{
    let lock = lock_path(alloc, dir)?;
    let Some(lock) = make_lock(rt, lock.as_str())? else {
        return Ok(None);
    };
    let path = inner_path(alloc, dir)?;
    match rt.create_dir(path.as_str()) {
        Ok(()) => Ok(Some((path, lock))),
        Err(e) if e.kind() == ErrorKind::NotFound => Ok(None),
        Err(e) => Err(e),
    }
}

// Makes a directory at this path for this run. None if another run has it.
fn make_at<R: Files>(rt: &R, alloc: Global, dir: String) -> io::Result<Option<OwnDir<R::File>>>
where
    R::File: Lock,
{
    match rt.create_dir(dir.as_str()) {
        Ok(()) => {}
        Err(e) if e.kind() == ErrorKind::AlreadyExists => return Ok(None),
        Err(e) => return Err(e),
    }
    match make_inner(rt, alloc, dir.as_str()) {
        Ok(Some((path, lock))) => Ok(Some(OwnDir { dir, path, lock })),
        Ok(None) => Ok(None),
        Err(e) => {
            if let Ok(lock) = lock_path(alloc, dir.as_str()) {
                let _ = rt.remove_file(lock.as_str());
            }
            let _ = rt.remove_dir(dir.as_str());
            Err(e)
        }
    }
}

/// Makes a directory for this run below a folder, which is there, and removes those that ended runs left, as long as no more than 16
/// runs used the folder at a time. The error is the system's, `AlreadyExists` if 1,024 runs use the folder.
pub fn make_own_dir<R: Files>(rt: &R, alloc: Global, folder: &str) -> io::Result<OwnDir<R::File>>
where
    R::File: Lock,
{
    for number in 0..LOOKED_AT {
        let path = dir_path(alloc, folder, number)?;
        // What can't be removed stays, and is in nobody's way.
        let _ = remove_left(rt, alloc, path.as_str());
    }
    for number in 0..MOST_RUNS {
        let path = dir_path(alloc, folder, number)?;
        if let Some(own) = make_at(rt, alloc, path)? {
            return Ok(own);
        }
    }
    Err(Error::from(ErrorKind::AlreadyExists))
}

impl<F: Drop> OwnDir<F> {
    /// Where what it has is to be.
    pub fn path(&self) -> &str {
        self.path.as_str()
    }

    /// Removes it, with all that is in it.
    pub fn remove<R: Files>(self, rt: &R, alloc: Global) {
        let OwnDir {
            dir,
            path: _path,
            lock,
        } = self;
        let _ = remove_held(rt, alloc, dir.as_str());
        drop(lock);
    }
}
