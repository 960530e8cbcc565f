//! Local names: where the pages of a site are in a folder. This crate knows which name each page of a
//! list has, whatever the order in which they came; it opens no folder.
//!
//! Host and path of a page become directories below the folder, as a web server looks for them; rules
//! say otherwise of some. If two pages would have one name, or one page's name is a directory of
//! another's, a number is added. A name may end as the kind of its page's body says
//! ([`names_with_endings`]). What the names are is in `specs/`.
//!
//! ```
//! let rules = NameRules::default();
//! let names = names(alloc, &rules, &pages)?; // http://h/a and http://h/a/%C3%A4: h/a.1 and h/a/ä
//! ```
//!
//! Its tests are in `retrieval_tests`.
#![tactic(auto)]

pub use crate::local_name::is_local_name;
pub use crate::naming::{ascend, names, names_with_endings};
pub use crate::plain_name::{MAX_SEGMENT, ORIGINAL, PART, ended_name, plain_name_of};
pub use crate::rules::{CharRules, LetterCase, NameRules};

mod ending;
mod free_name;
mod local_name;
mod naming;
mod plain_name;
mod rules;
mod unit;
