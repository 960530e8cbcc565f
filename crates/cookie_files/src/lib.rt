//! Cookie files as browsers, curl and GNU Wget write them (Netscape's format), and the cookies of one that a request for an address holds (RFC 6265,
//! section 5.4). What is meant is written in `specs/`: `Lines` what a line says, `Jars` which cookies of a file count and in which order, `Matches`
//! which of them a request holds, `Faults` how faults are reported. This crate reads no file and asks nobody for anything.
//!
//! ```
//! let cookies = Cookies::read(alloc, bytes)?;
//! cookies.value(alloc, &address, now)?; // Some of b"a=1; b=2", or None
//! ```
#![tactic(auto)]

pub use crate::cookies::{Cookies, MAX_FILE, MAX_LINES};
pub use crate::fault::{CookieFault, CookieLineFault, cookies_text};

mod cookie;
mod cookies;
mod fault;
mod fields;
mod line;
mod matching;
