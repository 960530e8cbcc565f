//! The URL of a refresh: the content of a `meta` that is a declarative refresh.
//!
//! This crate knows which text of the content is a URL. It knows no addresses and no markup: the content is given with its
//! character references replaced.
//!
//! The meaning is in `specs/`: `Refresh` what a byte does in its place and what the URL of a content is (HTML Standard, the
//! shared declarative refresh steps), `Rewriting` what a content is whose URL is changed.
#![tactic(auto)]

mod machine;
mod place;
mod rewriter;

pub use crate::machine::scan;
pub use crate::rewriter::rewrite;
