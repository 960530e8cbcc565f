//! Retrievals: who requests from the site what a frontier wants. Its one idea: a driver asks and hands over, and
//! everything that it may claim is read from the frontier's own record. What that means is defined in `specs/`:
//! `Retrieval` what is retrieved, `Asks` what was requested and received, `Sites` what holds of a site that gives each
//! address one outcome, `Crews` several fetchers together. What is retrieved is a harvest of `harvest`'s.
//!
//! `retrieve_in_order` is one thread's retrieval. `retrieve` has a worker for each fetcher, in threads: each notes what
//! it received, and once all are done the notes are compared with the frontier that they left. `retrieve_shown` is
//! `retrieve` for an observer. Its tests are in `retrieval_tests`.
#![tactic(auto)]

pub use crate::crew_retrieval::{Retrieved, Stopped, retrieve, retrieve_shown};
pub use crate::quota::{NoQuota, Quota};
pub use crate::retrieval::{Halt, retrieve_in_order};
pub use harvest::{Harvest, HarvestEntry};

mod comparison;
mod conclusion;
mod crew;
mod crew_retrieval;
mod crew_trace;
mod followed;
mod kept_body;
mod note;
mod once;
mod quota;
mod retrieval;
mod seats;
mod turn;
mod worker;
