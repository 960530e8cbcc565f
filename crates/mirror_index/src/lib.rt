//! The index of a mirror that is kept up to date: which pages are kept, in which files, and what was said of them. It is a text of
//! lines, of which nothing is trusted: it is taken whole or not at all, and whether a file is still the one that was written is
//! seen by its length and its mark: its digest, or when it was changed last. The meaning is in `specs/`.
//!
//! ```
//! index.add(alloc, Entry::new(address, name, size, mark, head))?; // in the order of the addresses
//! write_index(alloc, &mut file, &index)?;
//! let index = read_index(alloc, bytes)?;
//! let entry = index.entry(&address);
//! ```
#![tactic(auto)]

mod cut;
mod entry;
mod index;
mod line;
mod reading;
mod texts;

pub use crate::entry::{Entry, KeptHead, MAX_LINE, Mark, digest_of};
pub use crate::index::{MAX_ENTRIES, MirrorIndex};
pub use crate::line::{entry_line, read_line};
pub use crate::reading::{IndexFault, IndexWriteFault, MAX_INDEX, read_index, write_index};
pub use crate::texts::{read_text, text_line};
