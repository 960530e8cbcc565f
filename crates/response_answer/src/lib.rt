//! What a response answers: a page with its links, a redirect, or neither, of a response that is kept whole and of one that
//! comes in pieces; and which fault an answer has whose response wasn't read. It reads none itself. The meaning is written in
//! `specs/`: `Digests` what a response answers, `Digesting` what a sink in mid-response represents, `KindsOfFaults` the
//! faults. Its tests are in `site_tests`.
#![tactic(auto)]

mod digester;
mod head_kind;
mod links;
mod page_sink;
mod read_fault;
mod stage;
mod whole_response;

pub use digester::Digester;
pub use page_sink::PageSink;
pub use read_fault::kind_of_fault;
pub use whole_response::{digest, into_answer, redirect_target};
