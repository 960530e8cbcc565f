//! Requests that are made again: a fetcher is asked once more after an answer or a fault that is worth it. Its one idea: this waits for nothing itself, but has the origin left alone by whoever makes connections. Which answers and faults are worth
//! another try is defined in `specs/Worth.antt`, how long the origin is left alone before it in `specs/Delays.antt`, what tries are in
//! `specs/Tries.antt`. Its tests are `tests/polite`.
#![tactic(auto)]

mod calling;
mod delay;
mod keeping;
mod retrying;
mod worth;

pub use crate::calling::{Calling, CallingConnect};
pub use crate::keeping::ask_into;
pub use crate::retrying::{ask, ask_robots, receive, receive_hops};
