//! What no run of the program shows of the reader of responses, such as that nothing is read after a read that failed, of the
//! scanner of links, of references between files, and of pages whose links change: tests alone. What is read of texts is in
//! `tests/texts`. They are above the crates that they are of, so none is proved once more with them.
#![tactic(auto)]

#[cfg(test)]
mod change_tests;
#[cfg(test)]
mod link_tests;
#[cfg(test)]
mod page_tests;
#[cfg(test)]
mod reader_tests;
#[cfg(test)]
mod reference_tests;
