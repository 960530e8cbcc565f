//! How a run paces itself: when an origin's next request may begin, which limits its waits and bodies have, and how lengths of time
//! and numbers of bytes are written. Its one idea: time is a number. Whoever has a clock and can sleep does so through [`Timer`], so that a test has a time
//! of its own, and no clause rests on a clock. What is meant is in `specs/`. Its tests are in `site_tests`.
#![tactic(auto)]

mod flow;
mod manner;
mod rate;
mod retries;
mod size;
mod span;
mod timer;
mod turns;

pub use crate::flow::Flow;
pub use crate::manner::{Family, Manner};
pub use crate::rate::read_rate;
pub use crate::retries::Retries;
pub use crate::size::{MAX_SIZE, read_size};
pub use crate::span::{MAX_SPAN, read_span};
pub use crate::timer::{Timer, wait_until};
pub use crate::turns::Turns;
