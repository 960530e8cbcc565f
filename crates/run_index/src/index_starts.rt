//! Of which STARTs the pages of an index are, by a file beside it. It is there only if all of them are of runs of the same STARTs: a run of
//! others doesn't know what is gone of those pages.
use crate::index_file::own_path;
use crate::journal::is_nothing;
use std::alloc::Global;
use std::fs::{File, Files};
use std::io;
use std::io::Write;
use streams::{Close, read_input};

/// What the file is called, directly below the folder. No page has a name that begins so.
const STARTS: &str = ".wgetr%starts";

// The bytes of the file below a folder, if it is one and has at most so many.
fn bytes_in<R: Files>(rt: &R, alloc: Global, folder: &str, most: usize) -> Option<Vec<u8>> {
    let path = own_path(alloc, folder, STARTS).ok()?;
    if !rt.symlink_metadata(path.as_str()).ok()?.is_file() {
        return None;
    }
    let mut file = File::open(rt, path.as_str()).ok()?;
    read_input(alloc, &mut file, most).ok()
}

/// Whether the file says that all pages of a folder's index are of runs of the STARTs that this line names. What can't be read doesn't.
pub(crate) fn says_starts<R: Files>(rt: &R, alloc: Global, folder: &str, line: &[u8]) -> bool {
    match bytes_in(rt, alloc, folder, line.len()) {
        Some(bytes) => bytes.as_slice() == line,
        None => false,
    }
}

/// Has the file say so, by way of the run's own directory.
pub(crate) fn put_starts<R: Files>(
    rt: &R,
    alloc: Global,
    own: &str,
    folder: &str,
    line: &[u8],
) -> io::Result<()>
where
    R::File: Close,
{
    let part = format!(in alloc; "{own}/starts")?;
    let path = own_path(alloc, folder, STARTS)?;
    let mut file = File::create_new(rt, part.as_str())?;
    file.write_all(line)?;
    file.close()?;
    rt.rename(part.as_str(), path.as_str())
}

/// Takes the file away, if it is there.
pub(crate) fn remove_starts<R: Files>(rt: &R, alloc: Global, folder: &str) -> io::Result<()> {
    let path = own_path(alloc, folder, STARTS)?;
    match rt.remove_file(path.as_str()) {
        Err(error) if !is_nothing(&error) => Err(error),
        _ => Ok(()),
    }
}
