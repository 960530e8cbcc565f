//! The files that a page of an index may have: the one of its name, and its body as it came, beside that or in the program's own directory.
use crate::index_file::own_path;
use crate::removed_files::leads_to;
use earlier_pages::changed_at;
use local_names::ORIGINAL;
use mirror_index::{Entry, Mark};
use sha2::{Digest, Sha256};
use std::alloc::{AllocError, Global};
use std::fs::{File, Files};
use std::io::{ErrorKind, Read};

/// How many bytes of a file are read at a time.
const PIECE: usize = 65_536;

/// What is before a page's own name in the names of its files, and what is after it.
const PLACES: [(&str, &str); 3] = [("", ""), ("", ORIGINAL), (".wgetr%orig/", "")];

// The names that files of the page of this name may have.
fn names_of(alloc: Global, name: &str) -> Result<Vec<String>, AllocError> {
    let mut names = Vec::new(alloc);
    for place in PLACES.iter() {
        let (before, after) = *place;
        names.push(format!(in alloc; "{before}{name}{after}")?)?;
    }
    Ok(names)
}

// The SHA-256 of a file that has so many bytes. None if it has more by now, or can't be read.
fn digest_of<F: Read>(file: &mut F, len: u64) -> Option<[u8; 32]> {
    let mut hasher = Sha256::new();
    let mut piece = [0u8; PIECE];
    // Each round reads a byte at least, or reaches the end.
    for _ in 0..len.saturating_add(1) {
        match file.read(&mut piece) {
            Ok(0) => return Some(hasher.finalize()),
            Ok(count) => hasher.update(&piece[..count]),
            Err(error) if error.kind() == ErrorKind::Interrupted => {}
            Err(_) => return None,
        }
    }
    None
}

// Whether the bytes of the file at a path, which has so many, have this SHA-256.
fn has_digest<R: Files>(rt: &R, path: &str, len: u64, digest: [u8; 32]) -> bool {
    let Ok(mut file) = File::open(rt, path) else {
        return false;
    };
    match digest_of(&mut file, len) {
        Some(found) => found.as_slice() == digest.as_slice(),
        None => false,
    }
}

// Whether a file at a path is as an entry says. A link isn't.
fn is_of<R: Files>(rt: &R, path: &str, entry: &Entry) -> bool {
    let Ok(found) = rt.symlink_metadata(path) else {
        return false;
    };
    if !found.is_file() || found.len() != entry.size() {
        return false;
    }
    match entry.mark() {
        Mark::Digest(digest) => has_digest(rt, path, entry.size(), digest),
        Mark::Changed(time) => changed_at(&found) == Some(time),
    }
}

/// Whether some file of an entry's page below a folder, through no link, is as the entry says.
pub(crate) fn is_as_kept<R: Files>(
    rt: &R,
    alloc: Global,
    folder: &str,
    entry: &Entry,
) -> Result<bool, AllocError> {
    let names = names_of(alloc, entry.name())?;
    for name in names.as_slice() {
        let path = own_path(alloc, folder, name.as_str())?;
        if leads_to(rt, alloc, folder, name.as_str()) && is_of(rt, path.as_str(), entry) {
            return Ok(true);
        }
    }
    Ok(false)
}

/// Whether some file of the page of this name is below a folder, whatever its bytes are.
pub(crate) fn is_there<R: Files>(
    rt: &R,
    alloc: Global,
    folder: &str,
    name: &str,
) -> Result<bool, AllocError> {
    let names = names_of(alloc, name)?;
    for name in names.as_slice() {
        let path = own_path(alloc, folder, name.as_str())?;
        match rt.symlink_metadata(path.as_str()) {
            Ok(found) if found.is_file() => return Ok(true),
            _ => {}
        }
    }
    Ok(false)
}

/// Whether some file of some of these pages is below a folder.
pub(crate) fn is_any_there<R: Files>(
    rt: &R,
    alloc: Global,
    folder: &str,
    entries: &[Entry],
) -> Result<bool, AllocError> {
    for entry in entries {
        if is_there(rt, alloc, folder, entry.name())? {
            return Ok(true);
        }
    }
    Ok(false)
}
