//! What a run has of the system: fetchers, a folder, records that are read and written, an observer, and what takes the log of rejected links. Its one idea: a trait between
//! a run and the system, so that the retriever knows no handle, and what is built on handles (`host_system`) no retriever. Its
//! tests are in `live_tests`.
#![tactic(auto)]

mod rejected_log;
mod system;

pub use crate::rejected_log::RejectedLog;
pub use crate::system::{FetcherSettings, HoldFault, System};
