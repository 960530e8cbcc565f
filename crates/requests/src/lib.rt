//! What requests say besides the address that they are for: the program's own field lines, those that a person adds or puts in
//! their place, cookies of a file, and which of them go to which server or proxy. The meaning is in `specs/`: `Lines` says which field lines may be sent,
//! `Fields` which of all lines are sent, `Proxies` which proxy is asked, `Conditions` when a page isn't sent, and `Requests` what the
//! request for an address is.
#![tactic(auto)]

mod condition;
mod fields;
mod home;
mod jar;
mod line;
mod login;
mod proxies;
mod request;
mod sending;

pub use crate::condition::Condition;
pub use crate::fields::{Fields, FieldsFault, MAX_SENT, bad_line};
pub use crate::home::Home;
pub use crate::jar::Jar;
pub use crate::line::MAX_FIELD_LINE;
pub use crate::login::{Login, MAX_LOGIN};
pub use crate::proxies::{Proxies, Proxy};
pub use crate::request::{SendFault, write_request};
pub use crate::sending::Sending;
