//! The line, and what it counts.
use observer::Observer;
use std::sync::atomic::{AtomicU64, AtomicUsize, Ordering};
use std::time::{Clock, Instant};

/// The least milliseconds between two lines.
const PAUSE: u64 = 250;

/// Counts what came over connections and from records, and reports it on standard error at most four times a second. All workers of
/// a run share it.
#[derive(Drop)]
pub struct ProgressLine<'a, R: Clock + Eprint> {
    rt: &'a R,
    // When the run began; none if nothing is to be shown.
    start: Option<Instant>,
    answered: AtomicU64,
    failed: AtomicU64,
    // How many answers came from a record.
    recorded: AtomicU64,
    // How many addresses wait, by the last call that said it.
    waiting: AtomicUsize,
    bytes: AtomicU64,
    // How many milliseconds after the start the next line may be written.
    due: AtomicU64,
}

impl<'a, R: Clock + Eprint> ProgressLine<'a, R> {
    /// The progress of a run that begins now. It is shown if this is true, for example if standard error is a terminal, and
    /// the clock can be read. Takes no memory.
    pub fn new(rt: &'a R, shown: bool) -> ProgressLine<'a, R> {
        let start = if shown { Instant::now(rt).ok() } else { None };
        ProgressLine {
            rt,
            start,
            answered: AtomicU64::new(0),
            failed: AtomicU64::new(0),
            recorded: AtomicU64::new(0),
            waiting: AtomicUsize::new(0),
            bytes: AtomicU64::new(0),
            due: AtomicU64::new(PAUSE),
        }
    }

    // Shows the line if it is due.
    fn show_due(&self, start: &Instant) {
        let Ok(elapsed) = start.elapsed(self.rt) else {
            return;
        };
        let now = u64::try_from(elapsed.as_millis()).unwrap_or(u64::MAX);
        if self.is_due(now) {
            self.show(now);
        }
    }

    // Whether the line is due, and this caller is the one to write it.
    fn is_due(&self, now: u64) -> bool {
        let due = self.due.load(Ordering::SeqCst);
        let next = now.saturating_add(PAUSE);
        now >= due
            && self
                .due
                .compare_exchange(due, next, Ordering::SeqCst, Ordering::SeqCst)
                .is_ok()
    }

    // Covers the line before, however long it was, and writes this one there. If it can't be written, nobody sees it.
    fn show(&self, now: u64) {
        let answered = self.answered.load(Ordering::SeqCst);
        let failed = self.failed.load(Ordering::SeqCst);
        let waiting = self.waiting.load(Ordering::Relaxed);
        let kilobytes = self.bytes.load(Ordering::SeqCst) / 1000;
        let rate = kilobytes.saturating_mul(1000) / now.max(1);
        let recorded = self.recorded.load(Ordering::SeqCst);
        let _ = if recorded == 0 {
            eprint!(self.rt;
                "\r{:79}\r{answered} answered, {waiting} waiting, {failed} failed, {kilobytes} kB, {rate} kB/s",
                ""
            )
        } else {
            eprint!(self.rt;
                "\r{:79}\r{recorded} recorded, {answered} answered, {waiting} waiting, {failed} failed, {kilobytes} kB, {rate} kB/s",
                ""
            )
        };
    }

    /// Ends the line, and clears it if it was shown: no other is written. Later calls change nothing.
    pub fn clear(&self) {
        let due = self.due.swap(u64::MAX, Ordering::SeqCst);
        if due != PAUSE && due != u64::MAX {
            let _ = eprint!(self.rt; "\r{:79}\r", "");
        }
    }
}

impl<'a, R: Clock + Eprint> Observer for ProgressLine<'a, R> {
    // Shows the line if it is due.
    fn ended(&self, has_failed: bool, bytes: u64) {
        let Some(start) = &self.start else {
            return;
        };
        let count = if has_failed {
            &self.failed
        } else {
            &self.answered
        };
        count.fetch_add(1, Ordering::SeqCst);
        self.bytes.fetch_add(bytes, Ordering::SeqCst);
        self.show_due(start);
    }

    // Shows the line if it is due.
    fn recorded(&self) {
        let Some(start) = &self.start else {
            return;
        };
        self.recorded.fetch_add(1, Ordering::SeqCst);
        self.show_due(start);
    }

    // The next line shows it: who calls this may have a lock.
    fn waiting(&self, count: usize) {
        self.waiting.store(count, Ordering::Relaxed);
    }
}
