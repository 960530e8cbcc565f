//! What a live run takes of the network and the disk, by a handle of the system. No clause speaks of what these do, and no test
//! alone: those of the whole program, `tests/check-main` and `tests/hostile`, go through it.
#![tactic(auto)]

mod asking;
mod disk;
mod early_run;
mod part_threads;
mod parts_asking;
mod rejected_file;
mod system;

pub use crate::asking::Asking;
pub use crate::disk::{PageFolder, Saved};
pub use crate::early_run::EarlyRun;
pub use crate::part_threads::PartThreads;
pub use crate::parts_asking::PartsAsking;
pub use crate::rejected_file::RejectedFile;
pub use crate::system::HostSystem;
pub use part_keeper::PartsDir;
pub use tcp_fetcher::OverTcp;
