//! References between the files of a mirror: from one local name to another.
//!
//! This crate knows what is written for a link to a file, and where such a text leads from the file that it is in
//! (RFC 3986, sections 2.1, 4.2 and 5.2.4). It knows neither pages nor addresses.
//!
//! The meaning is in `specs/Relative`: `relative` and `resolve`.
//!
//! ```
//! let link = relative(alloc, "h/d/a.html", "h/i?x.png")?; // ../i%3Fx.png
//! ```
#![tactic(auto)]

mod writing;

pub use crate::writing::relative;
