//! Records of responses: reads one as a site, which answers what was recorded, and writes one of what
//! was noted. This crate knows the format of records and nothing of connections; what a response
//! answers is `response_answer`'s. The meaning is written in `specs/`. Its tests are in `site_tests`.
#![tactic(auto)]

mod entry_fault;
mod entry_line;
mod first_line;
mod first_version;
mod front;
mod hop_line;
mod hop_row;
mod note_entry;
mod reading;
mod record_fault;
mod recorded_site;
mod replayed;
mod resumed;
mod taken;
mod torn;
mod version;
mod written_record;

pub use answer_notes::Recording;
pub use front::{RecordFront, read_front};
pub use note_entry::push_note;
pub use record_fault::RecordFault;
pub use recorded_site::{RecordParts, RecordedSite};
pub use resumed::Resumed;
pub use version::{MAX_RECORD, SECOND_VERSION_LINE};
pub use written_record::write_record;
