//! Who hears how a run goes on, such as what shows it to a person: a trait, beneath the crates in which something happens. Nothing
//! that is requested or answered depends on an observer, so it has no clauses. Its tests are in `retrieval_tests` and `live_tests`.
#![tactic(auto)]

mod observer;

pub use crate::observer::{NoObserver, Observer};
