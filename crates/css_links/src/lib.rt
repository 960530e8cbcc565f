//! The references of a style sheet, found while the sheet arrives.
//!
//! This crate knows which texts of a style sheet are references: what `url(..)` names, in quotes or bare, the string after `@import`, and the
//! strings of `image-set(..)`. A sheet that is fed in pieces gives what the whole gives; nothing is kept of it except the word, string or URL
//! that isn't whole yet. It knows no addresses: texts are given with their escapes replaced, neither joined nor checked.
//! The meaning is in `specs/`: `Bytes` has the classes of bytes, `Escapes` what an escaped text says, `Places` what a byte
//! does in its place (CSS Syntax Level 3, section 4.3, narrowed), and `References` what
//! the references of a sheet are (`references`).
#![tactic(auto)]

mod bytes;
mod change;
mod escape;
mod found;
mod lanes;
mod machine;
mod memory;
mod place;
mod rewriter;
mod scanner;
mod sheet_rewriter;
mod span;
mod turns;
mod zone;

pub use crate::change::Change;
pub use crate::found::Found;
pub use crate::memory::Memory;
pub use crate::rewriter::rewrite;
pub use crate::scanner::{Scanner, scan};
pub use crate::sheet_rewriter::SheetRewriter;
