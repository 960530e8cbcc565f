//! The URLs of a source set: the value of a `srcset` or `imagesrcset`.
//!
//! This crate knows which texts of a source set are URLs: that of each candidate, whatever its descriptors say. It knows no
//! addresses and no markup: a text is given with its character references replaced, and its URLs as they are written.
//!
//! The meaning is in `specs/`: `Sets` what a byte does in its place and what the URLs of a set are (HTML Standard, section
//! 4.8.4.3.10), `Rewriting` what a set is whose URLs are changed.
#![tactic(auto)]

mod found;
mod machine;
mod place;
mod rewriter;

pub use crate::found::FoundSource;
pub use crate::machine::scan;
pub use crate::rewriter::rewrite;
