//! What failed in a run, which its workers share.
use address::Address;
use run_failures::{Failures, FileFault, LossKind};
use std::alloc::{AllocError, Global};
use std::io::{Error, Write};
use std::sync::{Mutex, Wait};
use streams::write_text;
use tcp_connect::KeptConnections;

/// Why something failed in a run, for a person. All its workers share it.
pub struct SharedFailures {
    alloc: Global,
    kept: Mutex<Failures>,
    // Lines on what didn't fail, after those of `kept`.
    said: Mutex<String>,
}

// Written by hand: a user that drops one proves a call, and nothing about its fields.
impl Drop for SharedFailures {
    fn drop(self) {
        let SharedFailures {
            alloc: _alloc,
            kept: _kept,
            said: _said,
        } = self;
    }
}

// These take `&mut` to the locked data, so that no early return of theirs drops the guard.

// If there is no memory for it, it isn't kept.
fn fail(kept: &mut Failures, file: FileFault) {
    let _ = kept.fail(file);
}

// If there is no memory for it, it isn't counted.
fn lose(kept: &mut Failures, kind: LossKind, at: Address) {
    let _ = kept.lose(kind, at);
}

// If there is no memory for it, it isn't kept.
fn say(said: &mut String, text: &str) {
    let _ = said.push_str(text);
}

// The lines for a person.
fn text_of(kept: &mut Failures) -> Result<String, AllocError> {
    kept.text()
}

// Adds what was said.
fn push_said(text: &mut String, said: &mut String) -> Result<(), AllocError> {
    text.push_str(said.as_str())
}

impl SharedFailures {
    /// Nothing failed yet. Takes no memory.
    pub fn new(alloc: Global) -> SharedFailures {
        SharedFailures {
            alloc,
            kept: Mutex::new(Failures::new(alloc)),
            said: Mutex::new(String::new(alloc)),
        }
    }

    /// The file of this name couldn't be written. If there is no memory to keep why, it isn't kept.
    pub fn fail<R: Wait>(&self, rt: &R, name: &str, error: &Error) {
        let file = FileFault::new(self.alloc, name, error);
        fail(&mut self.kept.lock(rt), file);
    }

    /// A connection was lost, which was to request this address. If there is no memory to count it, it isn't counted.
    pub fn lose<R: Wait>(&self, rt: &R, kind: LossKind, at: Result<Address, AllocError>) {
        if let Ok(at) = at {
            lose(&mut self.kept.lock(rt), kind, at);
        }
    }

    /// This is to be reported to a person, too: whole lines. If there is no memory to keep them, they aren't kept.
    pub fn say<R: Wait>(&self, rt: &R, text: &str) {
        say(&mut self.said.lock(rt), text);
    }

    /// The servers to which no connection is kept any more are to be reported to a person, too.
    pub fn say_unasked<R: Wait, S: Drop>(&self, rt: &R, kept: &KeptConnections<S>) {
        if let Ok(text) = kept.unasked_text(rt) {
            self.say(rt, text.as_str());
        }
    }

    /// The lines that report what failed to a person, as [`Failures::text`] has them, and then what else is said.
    pub fn text<R: Wait>(&self, rt: &R) -> Result<String, AllocError> {
        let mut text = text_of(&mut self.kept.lock(rt))?;
        push_said(&mut text, &mut self.said.lock(rt))?;
        Ok(text)
    }

    /// Writes these lines. If the writer fails, or there is no memory for them, a front of them may be written.
    pub fn tell<R: Wait, W: Write>(&self, rt: &R, errors: &mut W) {
        if let Ok(text) = self.text(rt) {
            if !text.is_empty() {
                let _ = write_text(errors, text.as_bytes());
            }
        }
    }
}
