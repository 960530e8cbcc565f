//! A machine that reads the content of a refresh byte by byte.
ghost use Rattle.std.specs.Prelude.{◌≡◌, ◌++◌, ◌∷◌, [], Option, Some, OnOk, IfOk, option_map, string_bytes};
ghost use Rattle.refresh_links.specs.Refresh.{nothing_read, ended, ended_in, reference, reference_of, step, turned, fed};
ghost use Rattle.refresh_links.specs.Reading.{front_of};

use crate::place::{ContentPlace, ContentTurn, turn_at};
use std::alloc::{AllocError, Global};

/// How far a content was read: the place, what may be the URL, and the URL that ended.
#[derive(Drop)]
pub(crate) struct ContentMachine {
    alloc: Global,
    pub(crate) place: ContentPlace,
    pub(crate) raw: Vec<u8>,
    found: Option<String>,
}

impl ContentMachine {
    pub(crate) fn new(alloc: Global) -> Self
        ensures { front_of result ≡ nothing_read }
    {
        ContentMachine {
            alloc,
            place: ContentPlace::Start,
            raw: Vec::new(alloc),
            found: None,
        }
    }

    /// Reads the next byte of the content.
    pub(crate) fn step(&mut self, byte: u8) -> Result<(), AllocError>
        ensures { OnOk result (front_of self.new ≡ step (front_of self.old) byte) }
    {
        self.follow(turn_at(self.place, byte), byte)
    }

    /// Does what the byte does in its place.
    pub(crate) fn follow(&mut self, turn: ContentTurn, byte: u8) -> Result<(), AllocError>
        ensures { OnOk result (front_of self.new ≡ turned (front_of self.old) byte turn) }
    {
        match turn {
            ContentTurn::At(place) => {
                self.raw.clear();
                self.place = place;
            },
            ContentTurn::First(place) => {
                self.raw.clear();
                self.raw.push(byte)?;
                self.place = place;
            },
            ContentTurn::With(place) => {
                self.raw.push(byte)?;
                self.place = place;
            },
            ContentTurn::End => {
                self.found = Some(self.url()?);
                self.raw.clear();
                self.place = ContentPlace::Done;
            },
        }
        Ok(())
    }

    // The URL of the text that was read.
    fn url(&self) -> Result<String, AllocError>
        ensures { IfOk result (λ url. string_bytes url ≡ reference self.now.raw.items) }
    {
        String::from_utf8_lossy(self.alloc, &self.raw)
    }

    // Reads a text.
    fn feed(&mut self, text: &[u8]) -> Result<(), AllocError>
        ensures { OnOk result (front_of self.new ≡ fed (front_of self.old) text.now) }
    {
        let mut left = text;
        while let [byte, others @ ..] = left {
            self.step(*byte)?;
            left = others;
        }
        Ok(())
    }

    // The URL of a content of which all was read.
    fn finish(self) -> Result<Option<String>, AllocError>
        ensures { IfOk result (λ url. option_map string_bytes url ≡ ended (front_of self)) }
    {
        match self.place {
            ContentPlace::U
            | ContentPlace::R
            | ContentPlace::L
            | ContentPlace::Url
            | ContentPlace::Quoted(_) => { Ok(Some(self.url()?)) },
            ContentPlace::Done => {
                let ContentMachine { found, .. } = self;
                Ok(found)
            },
            _ => Ok(None),
        }
    }
}

/// The URL of the content of a refresh, if it has one. Fails only if memory runs out.
#[tactic(auto, unfolding(crate::specs::Refresh::reference_of))]
pub fn scan(alloc: Global, content: &[u8]) -> Result<Option<String>, AllocError>
    ensures { IfOk result (λ url. option_map string_bytes url ≡ reference_of content.now) }
{
    let mut machine = ContentMachine::new(alloc);
    machine.feed(content)?;
    Ok(machine.finish()?)
}
