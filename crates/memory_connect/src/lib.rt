//! Connections in memory, for tests: a site that answers what is stored for it, and fails where that is planned. The meaning
//! is written in `specs/`: `Talks` what such connections answer. Its tests are in `site_tests`.
#![tactic(auto)]

mod memory_connect;

pub use memory_connect::{FailingPlace, MemoryConnect, PlannedFailure, StoredAnswer, StoredWire};
