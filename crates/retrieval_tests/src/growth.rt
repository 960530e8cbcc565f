//! What is left if a growth of memory is refused: of a frontier, of a table of labels and of a fetcher over connections; and a copy,
//! which takes none. Each test passes with nothing refused, as the gate runs it, and also whatever single growth is refused, those of
//! its own set-up among them, as `tests/growths` runs it. What was refused is requested once more, and then has to be given.
mod common;
mod copy_tests;
mod fetch_tests;
mod frontier_tests;
mod label_tests;
