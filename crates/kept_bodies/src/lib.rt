//! Where the body of a response goes while it arrives: into memory, or elsewhere. Its one idea: a trait between who reads
//! responses and who keeps their bodies, so that a body needs to be nowhere whole except where it is kept, with what it is.
//! It opens nothing. What contracts see of a body is in `specs/`. Its tests are in `site_tests`.
#![tactic(auto)]

mod body_kind;
mod in_memory;
mod keeper;

pub use body_kind::BodyKind;
pub use in_memory::{Body, InMemory};
pub use keeper::Keeper;
