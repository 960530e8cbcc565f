//! The retriever: from the words and the input to what is written. Its one idea: a run is glue over the crates below, and what
//! it writes for its words and its input is one definition. It holds no rule of following. What a run finds by its order
//! is defined in `specs/InputFound.antt`, what its words result in in `specs/Run.antt`, what is made of the program's arguments
//! and what a person reads in `specs/Program.antt`. Its tests are in `live_tests`.
#![tactic(auto)]

pub use crate::environment::{
    arguments, refuse_cookies, refuse_starts, with_environment, with_starts,
};
pub use crate::input_run::{run, run_of_order};
pub use crate::live_run::live;
pub use crate::output_targets::{OutputTargets, targets_of};
pub use crate::program::run_program;
pub use crate::saved_run::live_resumed;
pub use live_system::{HoldFault, System};
pub use streams::{ReadInputFault, read_input};

mod copies;
mod environment;
mod fault;
mod input_run;
mod link_change;
mod live_order;
mod live_run;
mod moves;
mod output_targets;
mod program;
mod quota;
mod rejected;
mod render;
mod resume_fault;
mod saved_run;
