//! Entries in lines, of which a crash may leave zeros and a torn end: what is read of them is a front of what was written.
#![tactic(auto)]

mod escapes;
mod fields;
mod lines;

pub use escapes::{escape, unescape};
pub use fields::push_field;
pub use lines::{is_plain, line_of, whole_len};
