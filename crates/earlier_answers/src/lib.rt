//! What an earlier run received that has no file: redirects, failures, and robots files with their redirects. Its one idea: a text is
//! taken exactly if it is what is written of such an answer, so that a damaged one is none. It knows nothing of files, connections or
//! threads. The meaning is written in `specs/`: `Texts` says which text an answer has, `Sayings` what a text that is taken changes,
//! `Heads` how a response is written that answers so.
//!
//! ```
//! let text = answer_text(alloc, &at, &outcome)?;  // what is left of an answer, if it has no file
//! earlier.add(text)?;                             // in the run that goes on
//! if let Some(outcome) = earlier.outcome(&at) { .. head_of(alloc, outcome)? .. }
//! ```
#![tactic(auto)]

mod answer;
mod chain;
mod earlier_answers;
mod head;
mod kept_chain;

pub use crate::answer::answer_text;
pub use crate::chain::chain_text;
pub use crate::earlier_answers::EarlierAnswers;
pub use crate::head::head_of;
