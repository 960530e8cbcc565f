//! Why a journal isn't to be had.
use std::alloc::AllocError;
use std::io;

/// Why a journal isn't to be had.
#[derive(Clone, Copy)]
pub(crate) enum OpenJournalFault {
    /// Another run holds it.
    Held,
    /// It can't be opened, locked, read or written.
    Device,
    /// Memory ran out.
    Memory,
}

impl From<io::Error> for OpenJournalFault {
    fn from(_: io::Error) -> OpenJournalFault {
        OpenJournalFault::Device
    }
}

impl From<AllocError> for OpenJournalFault {
    fn from(_: AllocError) -> OpenJournalFault {
        OpenJournalFault::Memory
    }
}
