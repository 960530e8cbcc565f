//! Files of earlier runs that are removed.
use crate::index_file::own_path;
use program_io::SharedFailures;
use std::alloc::Global;
use std::fs::Files;
use std::io;
use std::io::ErrorKind;
use std::sync::Wait;

// Whether each directory that a name has below a folder is one, and no link.
fn leads_down<R: Files>(rt: &R, alloc: Global, folder: &str, dirs: &str) -> io::Result<bool> {
    let mut path = String::from_str(alloc, folder)?;
    for dir in dirs.split('/') {
        path.push_str("/")?;
        path.push_str(dir)?;
        if !rt.symlink_metadata(path.as_str())?.is_dir() {
            return Ok(false);
        }
    }
    Ok(true)
}

// The directories of a name, or nothing if it has none.
fn dirs_of(name: &str) -> &str {
    match name.rsplit_once('/') {
        Some((dirs, _)) => dirs,
        None => "",
    }
}

/// Whether each directory on the way to a name below a folder is there, and no link.
pub(crate) fn leads_to<R: Files>(rt: &R, alloc: Global, folder: &str, name: &str) -> bool {
    let dirs = dirs_of(name);
    dirs.is_empty() || leads_down(rt, alloc, folder, dirs).unwrap_or(false)
}

// Removes these directories below a folder as far as they are empty, the lowest first.
fn remove_empty<R: Files>(rt: &R, alloc: Global, folder: &str, dirs: &str) -> io::Result<()> {
    let mut dirs = dirs;
    for _ in 0..dirs.len().saturating_add(1) {
        let path = own_path(alloc, folder, dirs)?;
        rt.remove_dir(path.as_str())?;
        match dirs.rsplit_once('/') {
            Some((above, _)) => dirs = above,
            None => return Ok(()),
        }
    }
    Ok(())
}

// Removes the file of a name below a folder, and the directories that are empty then. What is there in place of a file, or of a
// directory on the way, stays.
fn remove_name<R: Files>(rt: &R, alloc: Global, folder: &str, name: &str) -> io::Result<()> {
    let dirs = dirs_of(name);
    if !dirs.is_empty() && !leads_down(rt, alloc, folder, dirs)? {
        return Ok(());
    }
    let path = own_path(alloc, folder, name)?;
    if !rt.symlink_metadata(path.as_str())?.is_file() {
        return Ok(());
    }
    rt.remove_file(path.as_str())?;
    if !dirs.is_empty() {
        let _ = remove_empty(rt, alloc, folder, dirs);
    }
    Ok(())
}

/// Removes the files of these names below a folder. What isn't there stays so, and each other failure is kept for a person.
pub fn remove_all<R: Files + Wait>(
    rt: &R,
    alloc: Global,
    failures: &SharedFailures,
    folder: &str,
    names: &[String],
) {
    for name in names {
        let name = name.as_str();
        match remove_name(rt, alloc, folder, name) {
            Err(error) if error.kind() != ErrorKind::NotFound => failures.fail(rt, name, &error),
            _ => {}
        }
    }
}
