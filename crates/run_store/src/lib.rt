//! The store of a run: an index of entries and files of bodies, over any disk. Whenever it stops, opening it again gives a front of
//! what was added, with all that was synced, and no name has a body that isn't whole.
#![tactic(auto)]

mod answers;
mod index;
mod parts;
mod recovery;
mod shared;

pub use answers::answer;
pub use index::Index;
pub use parts::{add, begin, finish, name, remove};
pub use recovery::recover;
pub use shared::SharedIndex;
