//! An entry of a record that was taken.

/// How many lines an entry has, and what follows it.
#[derive(Drop)]
pub(crate) struct Taken<'a> {
    pub(crate) lines: usize,
    pub(crate) after: &'a [u8],
}
