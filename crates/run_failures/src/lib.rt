//! Why something failed in a run: connections that were lost, by kind, and files that couldn't be written. This crate knows what
//! is kept of them and the lines for a person; it looks at no network and no disk. What the lines are is in `specs/`.
//!
//! ```
//! failures.lose(LossKind::Refused, address)?; // 1 connection refused, first http://h/x
//! ```
//!
//! Its tests are in `live_tests` and `retrieval_tests`, through the crates above it.
#![tactic(auto)]

mod failures;
mod file_fault;
mod loss_kind;
mod losses;
mod unasked;

pub use crate::failures::Failures;
pub use crate::file_fault::FileFault;
pub use crate::loss_kind::{KINDS, LossKind};
pub use crate::losses::{Loss, Losses};
pub use crate::unasked::Unasked;
