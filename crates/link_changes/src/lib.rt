//! What the links of a kept page become, so that a mirror can be browsed.
//!
//! This crate knows where a link leads: from its page on the web, and from the page's file in the mirror. A link to what was kept
//! becomes the reference from file to file, any other to an address its whole text; what names no address stays. It knows neither
//! pages nor style sheets: texts come with their escapes replaced, and `css_links::Change` is what rewriters take.
//!
//! The meaning is in `specs/`: `Leading` says where links lead, `Changing` what they become. That a changed link leads where it
//! led is the clause `leads` of [`Links::becomes`].
//!
//! ```
//! let links = Links::new(alloc, &mirror, "h/d/a.html", &base, Form::Value);
//! links.becomes("/i.png?x#f")?; // ../i.png%3Fx#f, if the picture was kept
//! ```
#![tactic(auto)]

mod form;
mod fragment;
mod links;
mod mirror;
mod whole;

pub use crate::form::Form;
pub use crate::links::{Links, MAX_REDIRECTS};
pub use crate::mirror::Mirror;
