//! A fetcher over TCP for one worker: connections of the system, which report to an observer, and what asks over them. Its one
//! idea: types whose one parameter is the handle, or its stream, since a call at a type that names all these parts is dear to
//! prove, and each such call is here. What contracts see of it is defined in `specs/`. What connections do no clause says. What is
//! reported to an observer is tested in `live_tests`; `tests/check-main` and `tests/hostile` go through the rest.
#![tactic(auto)]

mod observed_tcp;
mod over_tcp;
mod page_taker;
mod parts_over_tcp;

pub use crate::observed_tcp::{ObservedTcp, ObservedWire};
pub use crate::over_tcp::OverTcp;
pub use crate::parts_over_tcp::PartsOverTcp;
