//! Work queues: what is left to do for numbered things, found without going through them. The crate's one idea is that a number belongs to one queue for
//! good and only changes its place among that queue's members, so nothing but a new number takes memory. The meaning is in `specs/`.
//! Its tests are in `retrieval_tests`.
#![tactic(auto)]

mod agenda;
mod lists;
mod pool;
mod queues;
mod task;

pub use agenda::Agenda;
pub use task::Task;
