//! What inputs that describe a site, maps and records, have in common: the fault of a line with its number, the fields of a line,
//! the addresses and origins that it names, and rule sets that are kept. The meaning is written in `specs/`.
//! Its tests are in `site_tests`.
#![tactic(auto)]

mod field;
mod input_fault;
mod kept_rules;
mod naming;

pub use field::first_field;
pub use input_fault::{InputFault, InputLineFault};
pub use kept_rules::KeptRules;
pub use naming::{read_address, read_origin, read_recorded, read_recorded_origin};
