//! What the program reads before a run and writes beside its pages, by a handle of the system: lists of STARTs, a cookie file, the limit
//! on look-ups that the words give, the report's output, what takes the place of closed standard streams, and what failed, for a person.
//! Its one idea: each of these is looked at once, before any request, so that what is wrong costs none. No clause speaks of what streams
//! and files have; `tests/check-main`, `tests/lists` and `tests/requests` go through it.
#![tactic(auto)]

mod cookie_file;
mod limited_lookups;
mod output;
mod shared_failures;
mod stand_ins;
mod start_file;

pub use crate::cookie_file::jar_of;
pub use crate::limited_lookups::limit_lookups;
pub use crate::output::{Output, open_file};
pub use crate::shared_failures::SharedFailures;
pub use crate::stand_ins::StandIns;
pub use crate::start_file::starts_of;
