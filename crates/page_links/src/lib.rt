//! Pages with other links.
//!
//! This crate writes an HTML page anew with its links and its base changed: the values of attributes, each in the quotes that it had, and the
//! texts of `style` elements. No other byte is another. Which values have links, and what the links of a page are, is said by
//! `html_links`; what is in a value by `source_sets`, `refresh_links` and `css_links`. [`rewrite_sheet`] does the same with a style sheet.
//!
//! The meaning is in `specs/`: `Places` says what the place of a value is, `Unclear` of which texts it isn't known that they are what is
//! written, and `Rewriting` what a page anew is (`IsAnew`) and which links it has (`AreChanged`). What was written is read again before it is given: a page whose links aren't those of the first one,
//! changed, isn't given.
#![tactic(auto)]

mod bytes;
mod comparing;
mod cut;
mod page_change;
mod rewriter;
mod sheet;
mod sheet_rewriter;
mod unclear;
mod value;
mod writer;

pub use crate::page_change::PageChange;
pub use crate::rewriter::{rewrite, scan, stays};
pub use crate::sheet_rewriter::rewrite_sheet;
