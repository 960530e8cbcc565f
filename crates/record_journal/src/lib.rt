//! The journal of a run that saves: each answer is added to a file as it comes, so that a run which is killed at any moment
//! finds its answers again. This crate knows when an answer is kept where, and how the file of a record gets its place; the
//! format is that of records (`site_records`).
//!
//! Beside `FILE`, which is always a whole record, is `FILE.journal`: a record of version 2 that grows by one write for each
//! answer, under a lock that no ask holds. A journal that was cut at any byte still begins with the whole entries of the first
//! answers. What the disk holds isn't proved; the tests show it. Its tests are in `retrieval_tests`.
#![tactic(auto)]

mod disk_journal;
mod held_journal;
mod journal;
mod journal_fault;
mod journaled;
mod pen;
mod saved_file;
mod saving;
mod tail;

pub use crate::disk_journal::DiskJournal;
pub use crate::journal::Journal;
pub use crate::journaled::Journaled;
pub use crate::pen::Pen;
pub use crate::saved_file::SavedFile;
pub use crate::saving::{SaveFault, Saving};
