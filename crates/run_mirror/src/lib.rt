//! A run's mirror: what becomes of each kept body, so that the folder can be browsed.
//!
//! This crate knows of a run which pages it kept, under which names, and where it was redirected ([`RunMirror`]), and writes a body anew
//! whose links lead from its file where they led from its page. It opens no file.
//!
//! The meaning is in `specs/`: `Mirrors` says what a run kept, `Anew` what a body anew is (`IsBodyAnew`).
//!
//! ```
//! let mirror = RunMirror::new(harvest.kept(), &names, harvest.records());
//! match mirror.body_at(alloc, 0, BodyKind::Html, body)? {
//!     Anew::Changed(other) => ..,     // the file is to have these bytes
//!     Anew::Same | Anew::Left => .., // it stays
//! }
//! ```
#![tactic(auto)]

mod anew;
mod kept_page;
mod lookup;
mod place_hints;
mod reading;
mod run_mirror;

pub use crate::anew::Anew;
pub use crate::run_mirror::RunMirror;
