//! Contents of refreshes with another URL.
ghost use Rattle.std.specs.Prelude.{◌≡◌, ◌++◌, ◌∷◌, [], OnOk, IfOk, option_map, string_bytes};
ghost use Rattle.css_links.specs.Rewriting.{changed};
ghost use Rattle.refresh_links.specs.Refresh.{reference_of};
ghost use Rattle.refresh_links.specs.Rewriting as rewriting;
ghost use Rattle.refresh_links.specs.Rewriting.{IsWriting, rewritten};
ghost use Rattle.refresh_links.specs.Reading.{rewrite_of};

use crate::machine::ContentMachine;
use crate::place::{ContentPlace, ContentTurn, turn_at};
use css_links::Change;
use std::alloc::{AllocError, Global};

/// How far a content was written anew: what was read, and what was written.
#[derive(Drop)]
pub(crate) struct ContentRewriter {
    alloc: Global,
    machine: ContentMachine,
    out: Vec<u8>,
}

// Puts down what is written of a URL that becomes this, or stays.
fn push_or(out: &mut Vec<u8>, raw: &[u8], other: &Option<String>) -> Result<(), AllocError>
    ensures { OnOk result (out.new.items ≡ out.old.items ++ rewriting.written_or raw.now (option_map string_bytes other.now)) }
{
    match other {
        Some(other) => out.extend_from_slice(other.as_bytes()),
        None => out.extend_from_slice(raw),
    }
}

// Puts a URL down anew.
fn push_anew<C: Change>(
    alloc: Global,
    change: &C,
    out: &mut Vec<u8>,
    raw: &[u8],
) -> Result<(), AllocError>
    ensures { OnOk result (out.new.items ≡ out.old.items ++ rewriting.anew (C.becomes change.now) raw.now) }
{
    let text = String::from_utf8_lossy(alloc, raw)?;
    let other = change.change(text.as_str())?;
    push_or(out, raw, &other)
}

impl ContentRewriter {
    fn new(alloc: Global) -> Self
        ensures { rewrite_of result ≡ rewriting.nothing_written }
    {
        ContentRewriter {
            alloc,
            machine: ContentMachine::new(alloc),
            out: Vec::new(alloc),
        }
    }

    // Writes what a byte that does this makes ready.
    fn write<C: Change>(
        &mut self,
        change: &C,
        turn: ContentTurn,
        byte: u8,
    ) -> Result<(), AllocError>
        ensures out { OnOk result (self.new.out.items ≡ rewriting.out_of (C.becomes change.now) (rewrite_of self.old) byte turn) }
        ensures machine { OnOk result (self.new.machine ≡ self.old.machine) }
    {
        match turn {
            ContentTurn::At(_) => {
                self.out.extend_from_slice(&self.machine.raw)?;
                self.out.push(byte)?;
            },
            ContentTurn::First(_) => (),
            ContentTurn::With(_) => (),
            ContentTurn::End => {
                push_anew(self.alloc, change, &mut self.out, &self.machine.raw)?;
                self.out.push(byte)?;
            },
        }
        Ok(())
    }

    // Reads the next byte of the content.
    fn step<C: Change>(&mut self, change: &C, byte: u8) -> Result<(), AllocError>
        ensures { OnOk result (rewrite_of self.new ≡ rewriting.rewrite_step (C.becomes change.now) (rewrite_of self.old) byte) }
    {
        let turn = turn_at(self.machine.place, byte);
        self.write(change, turn, byte)?;
        self.machine.follow(turn, byte)
    }

    // Reads a text.
    fn feed<C: Change>(&mut self, change: &C, text: &[u8]) -> Result<(), AllocError>
        ensures { OnOk result (rewrite_of self.new ≡ rewriting.rewrite_fed (C.becomes change.now) (rewrite_of self.old) text.now) }
    {
        let mut left = text;
        while let [byte, others @ ..] = left {
            self.step(change, *byte)?;
            left = others;
        }
        Ok(())
    }

    // Writes what the end of the content adds.
    fn close<C: Change>(&mut self, change: &C) -> Result<(), AllocError>
        ensures { OnOk result (self.new.out.items ≡ rewriting.rewrite_ended (C.becomes change.now) (rewrite_of self.old)) }
    {
        match self.machine.place {
            ContentPlace::U
            | ContentPlace::R
            | ContentPlace::L
            | ContentPlace::Url
            | ContentPlace::Quoted(_) => {
                push_anew(self.alloc, change, &mut self.out, &self.machine.raw)
            },
            _ => Ok(()),
        }
    }

    // All that is written of the content.
    fn finish<C: Change>(mut self, change: &C) -> Result<Vec<u8>, AllocError>
        ensures { IfOk result (λ out. out.items ≡ rewriting.rewrite_ended (C.becomes change.now) (rewrite_of self)) }
    {
        self.close(change)?;
        let ContentRewriter { out, .. } = self;
        Ok(out)
    }
}

/// The content of a refresh with its URL changed, all other bytes as they were. If every text that the change makes can be
/// a URL there, that of the new content is that of the old one, changed. Fails only if memory runs out.
pub fn rewrite<C: Change>(alloc: Global, change: &C, content: &[u8]) -> Result<Vec<u8>, AllocError>
    ensures content { IfOk result (λ out. out.items ≡ rewritten (C.becomes change.now) content.now) }
    ensures reference { IsWriting (C.becomes change.now) → IfOk result (λ out. reference_of out.items ≡ option_map (changed (C.becomes change.now)) (reference_of content.now)) }
{
    let mut rewriter = ContentRewriter::new(alloc);
    rewriter.feed(change, content)?;
    Ok(rewriter.finish(change)?)
}
