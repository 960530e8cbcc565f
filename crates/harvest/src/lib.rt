//! What a retrieval brings in: a frontier as it was left, read in address order, and the pages that are kept. Its one idea:
//! each list is sorted once, and says no more and no less than the frontier holds. What that means is defined in
//! `specs/`: `Harvests` what a harvest is, `Gathered` how what it keeps belongs together, `Entries` what is said of an
//! address, `Pages` what is kept, `Order` the order. The crate requests nothing. Its tests are in `retrieval_tests`.
#![tactic(auto)]

pub use crate::entry::HarvestEntry;
pub use crate::harvest::Harvest;
pub use crate::named::Named;
pub use crate::near_order::order_nearly;
pub use crate::page::{KeptPage, is_success};

mod entry;
mod gathering;
mod harvest;
mod named;
mod near_order;
mod page;
