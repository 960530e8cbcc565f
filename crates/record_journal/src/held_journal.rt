//! A journal that is held, and that nothing was added to yet.
use crate::disk_journal::DiskJournal;
use crate::journal_fault::OpenJournalFault;
use crate::tail::Tail;
use site_records::write_record;
use std::alloc::Global;
use std::fs::{File, Files, OpenFile};
use std::io;
use std::io::{Error, ErrorKind, Write};
use std::os::unix::fs::MetadataExt;
use std::time::Clock;
use streams::Lock;

/// A journal on a disk that this run holds, and no other: its bytes can be read, and then entries be added.
#[derive(Drop)]
pub(crate) struct HeldJournal<R: Files> {
    path: String,
    file: R::File,
    is_new: bool,
}

// Whether a file is at a path, or nothing. What is neither is refused: a link isn't followed, and nobody waits at a pipe.
pub(crate) fn look_for_file<R: Files>(rt: &R, path: &str) -> io::Result<bool> {
    match rt.symlink_metadata(path) {
        Ok(found) if found.is_file() => Ok(true),
        Ok(_) => Err(Error::from(ErrorKind::AlreadyExists)),
        Err(e) if e.kind() == ErrorKind::NotFound => Ok(false),
        Err(e) => Err(e),
    }
}

// Whether the open file is still at the path: a run that is done removes the journal that it holds.
pub(crate) fn is_at<R: Files>(rt: &R, file: &R::File, path: &str) -> io::Result<bool> {
    let open = file.metadata()?;
    match rt.symlink_metadata(path) {
        Ok(found) => Ok(found.ino() == open.ino() && found.dev() == open.dev()),
        Err(e) if e.kind() == ErrorKind::NotFound => Ok(false),
        Err(e) => Err(e),
    }
}

// Writes the first line of a record, and gives its length in bytes.
fn write_first_line<W: Write>(alloc: Global, file: &mut W) -> Result<u64, OpenJournalFault> {
    let mut line = Vec::new(alloc);
    if write_record(alloc, &mut line, &[]).is_err() {
        return Err(OpenJournalFault::Memory);
    }
    file.write_all(line.as_slice())?;
    Ok(line.len() as u64)
}

// Cuts a journal to this many bytes, and writes the first line if none is left. Returns how many bytes it has then.
fn cut<F: Write + OpenFile>(
    alloc: Global,
    file: &mut F,
    whole: u64,
) -> Result<u64, OpenJournalFault> {
    file.set_len(whole)?;
    if whole > 0 {
        return Ok(whole);
    }
    write_first_line(alloc, file)
}

impl<R: Files> HeldJournal<R> {
    /// Opens `SAVED.journal` beside the file of a record, and holds it; it is made if nothing is there, and what it has
    /// stays.
    pub(crate) fn open(
        rt: &R,
        alloc: Global,
        saved: &str,
    ) -> Result<HeldJournal<R>, OpenJournalFault>
    where
        R::File: Lock,
    {
        let path = format!(in alloc; "{saved}.journal")?;
        let is_new = !look_for_file(rt, path.as_str())?;
        let file = File::options()
            .read(true)
            .append(true)
            .create(true)
            .open(rt, path.as_str())?;
        if !file.hold()? || !is_at(rt, &file, path.as_str())? {
            return Err(OpenJournalFault::Held);
        }
        Ok(HeldJournal { path, file, is_new })
    }

    /// Its path.
    pub(crate) fn path(&self) -> &str {
        self.path.as_str()
    }

    /// Whether it was made for this run.
    pub(crate) fn is_new(&self) -> bool {
        self.is_new
    }

    /// The file, to be read from its beginning.
    pub(crate) fn file(&mut self) -> &mut R::File {
        &mut self.file
    }

    /// From here on entries are added after these bytes, those of a whole record or none; what else is there is dropped. If
    /// that fails, the journal is held all the same, and takes no entry.
    pub(crate) fn begin(self, rt: &R, alloc: Global, whole: u64) -> DiskJournal<R>
    where
        R: Clock,
    {
        let HeldJournal {
            path,
            mut file,
            is_new: _,
        } = self;
        let cut = cut(alloc, &mut file, whole);
        let tail = Tail {
            file,
            whole: cut.unwrap_or(whole),
            is_open: cut.is_ok(),
        };
        DiskJournal::new(rt, path, tail, whole == 0)
    }
}
