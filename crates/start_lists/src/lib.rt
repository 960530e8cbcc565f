//! Files of starts: the addresses of a list, a line each, and those that the links of HTML name; which file words name; and the
//! words of a command line with these starts before them. What a file's addresses are is stated in `specs/Lists.antt`. This crate
//! reads no file.
//!
//! ```
//! starts_of_list(alloc, b"# mine\nhttp://h/\ng/a\n", false, None)?; // http://h/ and http://g/a
//! ```
//!
//! Its tests are in `tests/lists`.
#![tactic(auto)]

mod fault;
mod file;
mod html;
mod lines;
mod resolved;
mod words;

pub use crate::fault::{ListFault, NoStarts, list_text};
pub use crate::file::starts_of_file;
pub use crate::html::starts_of_html;
pub use crate::lines::{MAX_LINES, starts_of_list};
pub use crate::words::{FileOfStarts, before, file_of, order_with, order_without};
