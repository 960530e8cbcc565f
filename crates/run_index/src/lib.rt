//! What runs leave in a folder for later ones, on the disk: the index of a mirror and the journal of a run that is at work. Its one idea:
//! a run is begun with what is there, notes its pages while they come, and ends by what it put; files that no page has any more go only
//! then. Which entries and names these are, `mirror_upkeep` decides, and `run_journal` how the journal is written. No clause speaks of
//! what disks hold; `tests/upkeep` goes through it.
#![tactic(auto)]

mod gone_pages;
mod index_end;
mod index_file;
mod index_run;
mod index_starts;
mod journal;
mod page_files;
mod page_notes;
mod removed_files;

pub use crate::index_run::{BeginFault, IndexRun};
pub use crate::page_notes::PageNotes;
pub use crate::removed_files::remove_all;
