//! Starts that moved away: what a person reads if the redirects of a start lead to an address that a filter leaves out, or to none
//! that is http. It is a function of the plan and of what is recorded, and is in `specs/Moves.antt`. This crate asks nobody for
//! anything and writes nothing.
//!
//! ```
//! moves_text(alloc, &plan, records)?; // http://h/ moved to http://www.h/: give that as START, or -D www.h -H
//! ```
//!
//! Its tests are in `tests/check-main`.
#![tactic(auto)]

pub use crate::moves::moves_text;

mod moves;
