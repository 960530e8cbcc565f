//! Robots rules (RFC 9309): this crate knows which paths of an origin this agent may request. Its one idea is that a path and a rule's pattern meet in one normal
//! form, octet by octet, and that the longest pattern that matches decides. It also reads how long a file has its crawlers wait. The meaning is in `specs/`: `Lines`, `Groups`, `Octets`,
//! `Patterns`, `Access`, `Delays`.
//! Its tests are in `site_tests`.
#![tactic(auto)]

mod delays;
mod groups;
mod lines;
mod octets;
mod pattern;
mod pieces;
mod rule;
mod rule_set;
mod seconds;

pub use delays::crawl_delay;
pub use rule_set::{RuleSet, parse};
