//! How the journal of a run is written to a disk. Its one idea: it begins as a file of another name that gets the journal's when it is
//! whole, and after that each line is one write, so that at any moment a crash leaves what was there before, or a front of it. It knows
//! no entries and no system: what one says is `mirror_upkeep`'s, what a disk does `disk_folder`'s. The meaning is in `specs/Written.antt`.
#![tactic(auto)]

mod journal;

pub use crate::journal::{Adding, Journal};
