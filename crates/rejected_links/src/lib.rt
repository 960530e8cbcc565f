//! The links that a filter rejected, as `--rejected-log` writes them: for each link of an answered page that the report has no line
//! of, the first rule that it doesn't meet, and the page. Its one idea: the log is a function of the site as the report is, since
//! its lines are sorted by their bytes and each is there once. Which links are rejected is defined in `specs/Rejections.antt`, what
//! a line says in `specs/Lines.antt`. This crate asks nobody for anything and writes no file.
//!
//! ```
//! rejected_log(alloc, &harvest)?; // REASON\tU_URL\t.., and SPANNEDHOST\thttp://other/\t.. for a link to another host
//! ```
#![tactic(auto)]

pub use crate::log::rejected_log;
pub use crate::reason::Reason;

mod finding;
mod line;
mod log;
mod reason;
mod rejected_link;
