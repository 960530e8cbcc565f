//! What a person sees on a terminal while a site is retrieved: one line, which is rewritten now and then by an
//! observer of the run that holds no lock. No clause speaks of the line. Its tests are in `live_tests`.
#![tactic(auto)]

mod behind_line;
mod progress;

pub use crate::behind_line::BehindLine;
pub use crate::progress::ProgressLine;
