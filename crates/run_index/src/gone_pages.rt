//! Pages of earlier runs that are gone: their files are removed, unless they aren't as they were kept.
use crate::page_files::{is_as_kept, is_there};
use crate::removed_files::remove_all;
use mirror_index::Entry;
use program_io::SharedFailures;
use std::alloc::{AllocError, Global};
use std::fs::Files;
use std::sync::Wait;

/// The most files of a page: its own, and two of its body as it came.
const MOST_FILES: usize = 3;

/// The names of the files of the page of this name, if they are the first ones of these names, and the names after them. The page's own is
/// the last of its files'.
pub(crate) fn split_files<'a>(
    names: &'a [String],
    own: &str,
) -> Option<(&'a [String], &'a [String])> {
    for count in 1..MOST_FILES + 1 {
        let (files, later) = names.split_at_checked(count)?;
        match files.last() {
            Some(last) if last.as_str() == own => return Some((files, later)),
            _ => {}
        }
    }
    None
}

/// Removes the files of these names, which are those of an entry's page, if one of them is as the entry says. If other files are there they
/// stay, and a line for a person says so: somebody else has put them there.
pub(crate) fn remove_page<R: Files + Wait>(
    rt: &R,
    alloc: Global,
    failures: &SharedFailures,
    folder: &str,
    entry: &Entry,
    files: &[String],
) -> Result<(), AllocError> {
    let name = entry.name();
    if is_as_kept(rt, alloc, folder, entry)? {
        remove_all(rt, alloc, failures, folder, files);
    } else if is_there(rt, alloc, folder, name)? {
        let line = format!(in alloc; "{name}: stays: it isn't as it was kept\n")?;
        failures.say(rt, line.as_str());
    }
    Ok(())
}
