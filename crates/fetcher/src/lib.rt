//! Requests and answers: what may become of an address that is requested, and who requests it. Its one idea: a fetcher's answers are those that its
//! site may give, and each request is in its log. What that means is in `specs/`: `Outcomes` says where an outcome leads, `Statuses` which are
//! successes and redirects, `FaultWords` is the table of faults, `Logs` says what a log gains, `Sites` are the sites that give each address one
//! outcome. Its tests are in `site_tests`.
#![tactic(auto)]

mod answer;
mod edge;
mod fault_kind;
mod fetcher;
mod outcome;
mod status;

pub use answer::Answer;
pub use edge::{Edge, EdgeKind, Edges};
pub use fault_kind::{FaultClass, FaultKind};
pub use fetcher::{Ask, Fetcher, SteadyFetcher};
pub use kept_bodies::{Body, BodyKind};
pub use outcome::Outcome;
pub use status::{FIRST_SUCCESS, LAST_SUCCESS, NOT_FOUND, REDIRECTS, is_redirect, is_successful};
