//! What is reported to an observer.

/// Receives reports of how a run goes on, from all of its workers, and ignores those that it doesn't implement. A call may come from
/// under a lock, so it waits for nothing.
pub trait Observer {
    /// A request over a connection has ended, and so many bytes came with it. It failed if the connection wasn't made, or broke.
    fn ended(&self, _has_failed: bool, _bytes: u64) {}

    /// An answer came from a record in place of the site.
    fn recorded(&self) {}

    /// At so many addresses and origins something is left to do, except at those that workers are at.
    fn waiting(&self, _count: usize) {}
}

/// An observer that hears nothing.
#[derive(Clone, Copy)]
pub struct NoObserver;

impl Observer for NoObserver {}
