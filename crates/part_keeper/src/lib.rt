//! Bodies that are kept in files of their own until they get their names. Its one idea: what goes on from here is a number, and
//! only who names files knows paths. What a disk holds isn't proved; that a part has as many bytes as came is.
#![tactic(auto)]

mod file_time;
mod own_dir;
mod part;
mod part_counter;
mod part_keeper;
mod part_linker;
mod parts_dir;

pub use file_time::time_of;
pub use own_dir::{OwnDir, make_own_dir};
pub use part::{KeptPart, Standing, part_path};
pub use part_counter::PartCounter;
pub use part_keeper::PartKeeper;
pub use part_linker::PartLinker;
pub use parts_dir::{PartsDir, lacks_descriptor};
