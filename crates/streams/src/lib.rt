//! Reading an input to its end, and writing a text whole. Its one idea: a call that was interrupted is made again, up to a
//! number that is counted over the whole input or text, so that no stream holds a program for ever. Files are
//! closed with an answer, and held by one run at a time. It knows no format. What a reader gives and a writer holds is said in
//! `specs/Streams.antt`. Its tests are in `live_tests`.
#![tactic(auto)]

mod close;
mod input;
mod interruption;
mod lock;
mod output;
mod pieces;

pub use close::Close;
pub use input::{ReadInputFault, read_input};
pub use interruption::MAX_INTERRUPTED;
pub use lock::Lock;
pub use output::{WriteFailed, write_text};
pub use pieces::Pieces;
