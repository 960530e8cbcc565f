//! A disk in memory that keeps each moment, so that a test can stop a run at any of them.
#![tactic(auto)]

mod memory;

pub use memory::{Act, MemoryDisk};
