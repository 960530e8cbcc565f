//! The report of a retrieval, its trace as it is printed, and the exit status. This crate knows what a person is
//! shown of a harvest; it knows nothing of words, sites or folders.
//!
//! A report has a line for each address that was found, and the counts. What it says is defined in
//! `specs/Report.antt`, the exit status in `specs/ExitStatus.antt`, a trace's lines in `specs/Trace.antt`.
//! Its tests are in `retrieval_tests`.
#![tactic(auto)]

pub use crate::status::exit_status;
pub use crate::text::report_text;
pub use crate::trace::{cause_word, push_trace};

mod rows;
mod status;
mod text;
mod trace;
