//! A journal on a disk, which the workers of a run share.
use crate::held_journal::is_at;
use crate::tail::{Added, Tail};
use std::fs::{Files, OpenFile};
use std::io;
use std::io::{Error, ErrorKind, Read, Seek, SeekFrom, Write};
use std::sync::atomic::{AtomicBool, AtomicU64, Ordering};
use std::sync::{Mutex, Wait};
use std::time::{Clock, Instant};

/// The least milliseconds between two calls that bring what was added onto the disk.
const PAUSE: u64 = 1000;

/// A journal on a disk that this run alone adds to, with all its workers.
#[derive(Drop)]
pub struct DiskJournal<R: Files> {
    path: String,
    tail: Mutex<Tail<R::File>>,
    // The same open file, by which what was added is brought onto the disk while others add more; none if there is no second
    // handle of it.
    synced: Option<R::File>,
    // How many bytes were there before this run added any.
    since: u64,
    // Whether that is no entry.
    is_new: bool,
    is_removed: AtomicBool,
    // When it was opened; none if the clock can't be read.
    start: Option<Instant>,
    // How many milliseconds after that what was added is next to be brought onto the disk.
    due: AtomicU64,
}

// These take `&mut` to the locked data, so that no early return of theirs drops the guard.

// Adds an entry.
fn append_to<F: Write + OpenFile + Drop>(tail: &mut Tail<F>, entry: &[u8]) -> Added {
    tail.append(entry)
}

// Nothing is added any more.
fn close<F: Write + OpenFile + Drop>(tail: &mut Tail<F>) {
    tail.is_open = false;
}

// Copies what is there whole after this many bytes.
fn copy_behind<F: Read + Write + Seek + OpenFile + Drop, W: Write>(
    tail: &mut Tail<F>,
    since: u64,
    to: &mut W,
) -> io::Result<()> {
    let added = tail.whole.saturating_sub(since);
    tail.file.seek(SeekFrom::Start(since))?;
    let copied = io::copy(&mut Read::by_ref(&mut tail.file).take(added), to)?;
    if copied < added {
        return Err(Error::from(ErrorKind::UnexpectedEof));
    }
    Ok(())
}

// Whether it has at most this many bytes, and each entry that it was to have is there whole.
fn is_whole<F: Write + OpenFile + Drop>(tail: &mut Tail<F>, most: u64) -> io::Result<bool> {
    let len = tail.file.metadata()?.len();
    Ok(tail.is_open && tail.whole == len && len <= most)
}

// Brings all of it onto the disk, and gives it another name. Nothing is added from here on.
fn rename<R: Files>(tail: &mut Tail<R::File>, rt: &R, from: &str, to: &str) -> io::Result<bool> {
    if !is_at(rt, &tail.file, from)? {
        return Ok(false);
    }
    tail.file.sync_all()?;
    rt.rename(from, to)?;
    tail.is_open = false;
    Ok(true)
}

impl<R: Files> DiskJournal<R> {
    // With this end, at this path.
    pub(crate) fn new(rt: &R, path: String, tail: Tail<R::File>, is_new: bool) -> DiskJournal<R>
    where
        R: Clock,
    {
        let since = tail.whole;
        let synced = tail.file.try_clone().ok();
        DiskJournal {
            path,
            tail: Mutex::new(tail),
            synced,
            since,
            is_new,
            is_removed: AtomicBool::new(false),
            start: Instant::now(rt).ok(),
            due: AtomicU64::new(PAUSE),
        }
    }

    /// Whether entries are still added.
    pub fn is_open(&self, rt: &R) -> bool
    where
        R: Wait,
    {
        self.tail.lock(rt).is_open
    }

    // Adds an entry, and returns whether it is there whole. The first that isn't is reported to a person.
    pub(crate) fn append(&self, rt: &R, entry: &[u8]) -> bool
    where
        R: Wait + Clock + Eprint,
    {
        // The lock is released here: reporting, and bringing entries onto the disk, keeps nobody from adding more.
        let added = append_to(&mut self.tail.lock(rt), entry);
        match added {
            Added::Whole => {
                self.sync_if_due(rt);
                true
            }
            Added::Failed => {
                self.report_closed(rt);
                false
            }
            Added::Closed => false,
        }
    }

    // Copies the entries that this run added.
    pub(crate) fn copy_added<W: Write>(&self, rt: &R, to: &mut W) -> io::Result<()>
    where
        R: Wait,
    {
        copy_behind(&mut self.tail.lock(rt), self.since, to)
    }

    // Makes it the file of a record, if it is one that has nothing but what this run added after this many bytes, those of the
    // first line, and is no longer than that. Returns whether it is.
    pub(crate) fn become_record(
        &self,
        rt: &R,
        path: &str,
        first: u64,
        most: u64,
    ) -> io::Result<bool>
    where
        R: Wait,
    {
        if self.since != first || !is_whole(&mut self.tail.lock(rt), most)? {
            return Ok(false);
        }
        let from = self.path.as_str();
        let is_record = rename(&mut self.tail.lock(rt), rt, from, path)?;
        if is_record {
            self.is_removed.store(true, Ordering::SeqCst);
        }
        Ok(is_record)
    }

    // Brings what was added onto the disk, if that is due and this worker is the one to do it.
    fn sync_if_due(&self, rt: &R)
    where
        R: Wait + Clock + Eprint,
    {
        let (Some(start), Some(synced)) = (&self.start, &self.synced) else {
            return;
        };
        let Ok(elapsed) = start.elapsed(rt) else {
            return;
        };
        let now = u64::try_from(elapsed.as_millis()).unwrap_or(u64::MAX);
        if self.is_sync_due(now) && synced.sync_data().is_err() {
            close(&mut self.tail.lock(rt));
            self.report_closed(rt);
        }
    }

    // Whether it is due, and this caller is the one.
    fn is_sync_due(&self, now: u64) -> bool {
        let due = self.due.load(Ordering::SeqCst);
        let next = now.saturating_add(PAUSE);
        now >= due
            && self
                .due
                .compare_exchange(due, next, Ordering::SeqCst, Ordering::SeqCst)
                .is_ok()
    }

    // Removes it. Later calls change nothing: another run's may be there then.
    pub(crate) fn remove(&self, rt: &R) {
        if !self.is_removed.swap(true, Ordering::SeqCst) {
            let _ = rt.remove_file(self.path.as_str());
        }
    }

    // Removes it if it has no entry.
    pub(crate) fn remove_if_empty(&self, rt: &R)
    where
        R: Wait,
    {
        let whole = self.tail.lock(rt).whole;
        if self.is_new && whole == self.since {
            self.remove(rt);
        }
    }

    // Reports to a person that what comes from here on isn't in the journal.
    pub(crate) fn report_closed(&self, rt: &R)
    where
        R: Eprint,
    {
        let path = self.path.as_str();
        let _ = eprintln!(rt;
            "{path}: can't be written any more; further answers are kept in memory, and lost if this run is killed"
        );
    }
}
