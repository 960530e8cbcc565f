//! Pages that an earlier run left in a folder. Its one idea: a page of an earlier run is read like a response. It is there if its file has
//! as many bytes as it had; whether they are the same, who reads it finds out by their SHA-256, so that no file is read twice, or its entry
//! says when the file was changed last. If several files may be its, the next is read only if those before it have other bytes.
//!
//! ```
//! let Some(mut page) = earlier.page(rt, &at) else { .. }; // to be requested as if nothing was there
//! let condition = page.condition()?;                  // with which it is requested
//! let other = page.take_other();                      // with another file that may be its, if there is one
//! let stream = page.into_stream()?;                   // the response again, if the server says that it is as it was
//! ```
#![tactic(auto)]

mod change_time;
mod earlier_page;
mod earlier_pages;
mod recorded_stream;

pub use crate::change_time::{changed_at, shows_changes};
pub use crate::earlier_page::EarlierPage;
pub use crate::earlier_pages::EarlierPages;
pub use crate::recorded_stream::RecordedStream;
