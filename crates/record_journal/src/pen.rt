//! One worker's hold of a journal on a disk.
ghost use Rattle.std.specs.Prelude.{None};

use crate::journal::Journal;
use crate::saving::Saving;
use std::fs::Files;
use std::sync::Wait;
use std::time::Clock;

/// Adds one worker's entries to the journal of the run, if there is one by then. Its contents aren't known: others add too.
#[derive(Drop)]
pub struct Pen<'a, R: Wait + Clock + Eprint + Files> {
    rt: &'a R,
    saving: &'a Saving<R>,
}

impl<'a, R: Wait + Clock + Eprint + Files> Pen<'a, R> {
    /// Adds to the journal that is held here. Takes no memory.
    pub fn new(rt: &'a R, saving: &'a Saving<R>) -> Pen<'a, R> {
        Pen { rt, saving }
    }
}

impl<'a, R: Wait + Clock + Eprint + Files> Journal for Pen<'a, R> {
    ghost contents = { λ _. None };

    fn append(&mut self, entry: &[u8]) -> bool {
        match self.saving.journal() {
            Some(journal) => journal.append(self.rt, entry),
            None => false,
        }
    }
}
