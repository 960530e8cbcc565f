//! A machine that reads a source set byte by byte (HTML Standard, section 4.8.4.3.10).
ghost use Rattle.std.specs.Prelude.{◌≡◌, ◌++◌, ◌∷◌, [], OnOk, IfOk, List, ℕ, length};
ghost use Rattle.source_sets.specs.Sets.{nothing_read, left_open, ended, reference, references, step, turned, fed};
ghost use Rattle.source_sets.specs.Reading.{front_of};

use crate::found::FoundSource;
use crate::place::{SetPlace, SetTurn, turn_at};
use std::alloc::{AllocError, Global};

/// How far a set was read: the place, the URL that is being read and the commas after it, and what was found.
#[derive(Drop)]
pub(crate) struct SetMachine {
    alloc: Global,
    pub(crate) place: SetPlace,
    pub(crate) raw: Vec<u8>,
    pub(crate) commas: Vec<u8>,
    found: Vec<FoundSource>,
}

impl SetMachine {
    pub(crate) fn new(alloc: Global) -> Self
        ensures { front_of result ≡ nothing_read }
    {
        SetMachine {
            alloc,
            place: SetPlace::Before,
            raw: Vec::new(alloc),
            commas: Vec::new(alloc),
            found: Vec::new(alloc),
        }
    }

    /// Reads the next byte of the set.
    pub(crate) fn step(&mut self, byte: u8) -> Result<(), AllocError>
        ensures { OnOk result (front_of self.new ≡ step (front_of self.old) byte) }
    {
        self.follow(turn_at(self.place, byte), byte)
    }

    /// Does what the byte does in its place.
    pub(crate) fn follow(&mut self, turn: SetTurn, byte: u8) -> Result<(), AllocError>
        ensures { OnOk result (front_of self.new ≡ turned (front_of self.old) byte turn) }
    {
        match turn {
            SetTurn::At(place) => self.go(place),
            SetTurn::First => {
                self.go(SetPlace::Url);
                self.raw.push(byte)?;
            },
            SetTurn::With => {
                self.raw.extend_from_slice(&self.commas)?;
                self.raw.push(byte)?;
                self.commas.clear();
                self.place = SetPlace::Url;
            },
            SetTurn::Comma => {
                self.commas.push(byte)?;
                self.place = SetPlace::Commas;
            },
            SetTurn::End(place) => {
                self.note()?;
                self.go(place);
            },
        }
        Ok(())
    }

    // Goes to a place with no text.
    fn go(&mut self, place: SetPlace)
        ensures place { self.new.place ≡ place }
        ensures raw { self.new.raw.items ≡ [] }
        ensures commas { self.new.commas.items ≡ [] }
        ensures found { self.new.found ≡ self.old.found }
    {
        self.raw.clear();
        self.commas.clear();
        self.place = place;
    }

    // Notes the text as a URL.
    fn note(&mut self) -> Result<(), AllocError>
        ensures { OnOk result (self.new.found.items ≡ self.old.found.items ++ reference self.old.raw.items ∷ []) }
    {
        let text = String::from_utf8_lossy(self.alloc, &self.raw)?;
        self.found.push(FoundSource { text })?;
        Ok(())
    }

    // Notes what the end of the set ends.
    fn close(&mut self) -> Result<(), AllocError>
        ensures { OnOk result (self.new.found.items ≡ self.old.found.items ++ left_open self.old.place self.old.raw.items) }
    {
        match self.place {
            SetPlace::Before => Ok(()),
            SetPlace::Url => self.note(),
            SetPlace::Commas => self.note(),
            SetPlace::Descriptors => Ok(()),
            SetPlace::Parentheses => Ok(()),
        }
    }

    // Reads a text.
    fn feed(&mut self, text: &[u8]) -> Result<(), AllocError>
        ensures { OnOk result (front_of self.new ≡ fed (front_of self.old) text.now) }
    {
        let mut left = text;
        while let [byte, others @ ..] = left {
            self.step(*byte)?;
            left = others;
        }
        Ok(())
    }

    // The URLs of a set of which all was read.
    fn finish(mut self) -> Result<Vec<FoundSource>, AllocError>
        ensures { IfOk result (λ found. found.items ≡ ended (front_of self)) }
    {
        self.close()?;
        let SetMachine { found, .. } = self;
        Ok(found)
    }
}

/// The URLs of a source set, in its order. Fails only if memory runs out.
#[tactic(auto, unfolding(crate::specs::Sets::references))]
pub fn scan(alloc: Global, set: &[u8]) -> Result<Vec<FoundSource>, AllocError>
    ensures { IfOk result (λ found. found.items ≡ references set.now) }
{
    let mut machine = SetMachine::new(alloc);
    machine.feed(set)?;
    machine.finish()
}
