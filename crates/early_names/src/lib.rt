//! Names that pages get while a run goes on: the plain name of each page, by itself, as long as no name that was claimed before
//! is in its way. Which names pages have in the end is a matter of `local_names`. It opens no folder.
#![tactic(auto)]

pub use crate::claims::Claims;
pub use crate::early_rules::EarlyRules;
pub use crate::lone::{is_early, lone_name};

mod claims;
mod early_rules;
mod lone;
