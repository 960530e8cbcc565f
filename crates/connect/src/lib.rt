//! What makes connections to origins: a trait, beneath those that make them and those that use them, so that neither waits for
//! the other's proofs. How calls are counted, and which connections are kept after a call, is written in `specs/`. Its tests
//! are those of its implementations, in `site_tests` and `live_tests`.
#![tactic(auto)]

mod connect;

pub use crate::connect::{Connect, ConnectFault};
