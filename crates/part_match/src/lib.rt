//! Wild-card matching by cuts: a pattern is a list of parts, and it matches a text that can be cut into one piece for each part. The one idea is a loop that
//! keeps a single place to come back to, so no pattern makes it deep and it takes no memory. The meaning is in `specs/Cuts.antt`.
//! Its tests are in `site_tests`.
#![tactic(auto)]

mod matcher;
mod parts;

pub use matcher::matches;
pub use parts::{Part, Text};
