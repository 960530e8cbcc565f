//! A folder of a disk, as a store sees it: what its calls do to the files under names, and what a crash may leave.
#![tactic(auto)]

mod disk;

pub use disk::{Disk, DiskError};
