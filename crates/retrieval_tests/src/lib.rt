//! Parts of retrievals that no run of the program shows as closely: tests alone, of what a frontier is made of, of one that stops
//! since memory ran out, of the lock, and of folders on a disk; and of growths of memory that are refused. What retrievals find, by
//! any number of workers, is in `tests/runs`, names are in `tests/texts`, journals in `tests/sessions`, and connections that fail in
//! `tests/hostile`. They are above these crates, so none is proved once more with them, and their proofs see clauses and no
//! fields. What is large is freed by `drop`, which is cheaper to prove than its end of scope.
#![tactic(auto)]

#[cfg(test)]
mod agenda_tests;
#[cfg(test)]
mod change_tests;
#[cfg(test)]
mod disk;
#[cfg(test)]
mod disk_site_tests;
#[cfg(test)]
mod disk_tests;
#[cfg(test)]
mod growth;
#[cfg(test)]
mod lock_tests;
#[cfg(test)]
mod memory_tests;
#[cfg(test)]
mod rows;
