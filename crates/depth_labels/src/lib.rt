//! Depth labels: a table of addresses in order of discovery, each with the least depth that was offered for it. The crate's one idea is that a depth
//! only falls: an offer adds an address or lowers its depth, and a number once given stays. The meaning is in `specs/Depths.antt`.
//!
//! The frontier uses it: `frontier_core` holds and lowers the labels of its addresses here, and keeps beside each, by the same number, how far the
//! work on its address has come. For a table that grows beside this one, `reserve` makes room first, and `add` then can't be refused.
//! Its tests are in `retrieval_tests`.
#![tactic(auto)]

mod labels;

pub use labels::{LabelFault, Labels, Offer};
