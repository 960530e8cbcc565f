//! What is to be done so that a mirror is kept up to date: what an index of it has after a run, which files go, what a journal of a
//! running run says. Its one idea: all this follows from entries, names and addresses; nothing here reads a disk or locks. The meaning is
//! in `specs/`: `Latest` which of several entries of an address counts, `Journals` the text of a journal and what it says, `Joined` what
//! an index has after a run, `Names` which names lead to the same files, `Leaving` which files go, `Sure` when what a run doesn't have is
//! gone.
#![tactic(auto)]

mod by_name;
mod copies;
mod joining;
mod journal;
mod latest;
mod leaving;
mod names;
mod reading;
mod sameness;
mod sureness;

pub use crate::by_name::{is_anothers, places_by_name};
pub use crate::joining::{joined, named_pages};
pub use crate::journal::{first_line, push_answer, push_entry};
pub use crate::leaving::{displaced, gone, in_way, outdated};
pub use crate::reading::{JournalFault, StoppedRun, read_journal, reason};
pub use crate::sameness::is_same;
pub use crate::sureness::is_sure;
