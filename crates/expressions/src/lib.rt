//! Regular expressions that are looked for in a text without memory: the syntax and the meaning are those of the kit's `regex`, and what an
//! expression costs is bounded when it is read. The meaning is in `specs/Expressions.antt`. Its tests are in `tests/filters`.
#![tactic(auto)]

mod expression;
mod needles;
mod order;
mod search;
mod table;

pub use crate::expression::{Expression, ExpressionFault};
pub use crate::search::MOST_STATES;
