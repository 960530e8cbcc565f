//! The digest of a body, computed while it arrives (SHA-256, FIPS 180-4). Its one idea: a keeper around another keeper, so that who keeps
//! bodies knows nothing of digests, and no body is read a second time for its own. It opens nothing.
#![tactic(auto)]

mod digesting;

pub use crate::digesting::{Digested, Digesting};
