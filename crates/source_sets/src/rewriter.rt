//! Source sets with other URLs (HTML Standard, section 4.8.4.3.10).
ghost use Rattle.std.specs.Prelude.{◌≡◌, ◌++◌, ◌∷◌, [], OnOk, IfOk, map, option_map, string_bytes};
ghost use Rattle.css_links.specs.Rewriting.{changed};
ghost use Rattle.source_sets.specs.Sets.{references};
ghost use Rattle.source_sets.specs.Rewriting as rewriting;
ghost use Rattle.source_sets.specs.Rewriting.{IsWriting, IsAnew, rewritten};
ghost use Rattle.source_sets.specs.Reading.{rewrite_of};

use crate::machine::SetMachine;
use crate::place::{SetPlace, SetTurn, turn_at};
use css_links::Change;
use std::alloc::{AllocError, Global};

/// How far a set was written anew: what was read, and what was written.
#[derive(Drop)]
pub(crate) struct SetRewriter {
    alloc: Global,
    machine: SetMachine,
    out: Vec<u8>,
}

// Puts down what is written of a URL that becomes this, or stays.
fn push_or(out: &mut Vec<u8>, raw: &[u8], other: &Option<String>) -> Result<(), AllocError>
    ensures { OnOk result (out.new.items ≡ out.old.items ++ rewriting.written_or raw.now (option_map string_bytes other.now)) }
{
    match other {
        Some(other) => out.extend_from_slice(other.as_bytes()),
        None => out.extend_from_slice(raw),
    }
}

// Puts a URL down anew.
fn push_anew<C: Change>(
    alloc: Global,
    change: &C,
    out: &mut Vec<u8>,
    raw: &[u8],
) -> Result<(), AllocError>
    ensures { OnOk result (out.new.items ≡ out.old.items ++ rewriting.anew (C.becomes change.now) raw.now) }
{
    let text = String::from_utf8_lossy(alloc, raw)?;
    let other = change.change(text.as_str())?;
    push_or(out, raw, &other)
}

impl SetRewriter {
    fn new(alloc: Global) -> Self
        ensures { rewrite_of result ≡ rewriting.nothing_written }
    {
        SetRewriter {
            alloc,
            machine: SetMachine::new(alloc),
            out: Vec::new(alloc),
        }
    }

    // Writes a URL anew, and the commas after it.
    fn write_url<C: Change>(&mut self, change: &C) -> Result<(), AllocError>
        ensures out { OnOk result (self.new.out.items ≡ self.old.out.items ++ (rewriting.anew (C.becomes change.now) self.old.machine.raw.items ++ self.old.machine.commas.items)) }
        ensures machine { OnOk result (self.new.machine ≡ self.old.machine) }
    {
        push_anew(self.alloc, change, &mut self.out, &self.machine.raw)?;
        self.out.extend_from_slice(&self.machine.commas)
    }

    // Writes what a byte that does this makes ready.
    fn write<C: Change>(&mut self, change: &C, turn: SetTurn, byte: u8) -> Result<(), AllocError>
        ensures out { OnOk result (self.new.out.items ≡ rewriting.out_of (C.becomes change.now) (rewrite_of self.old) byte turn) }
        ensures machine { OnOk result (self.new.machine ≡ self.old.machine) }
    {
        match turn {
            SetTurn::At(_) => self.out.push(byte)?,
            SetTurn::First => (),
            SetTurn::With => (),
            SetTurn::Comma => (),
            SetTurn::End(_) => {
                self.write_url(change)?;
                self.out.push(byte)?;
            },
        }
        Ok(())
    }

    // Reads the next byte of the set.
    fn step<C: Change>(&mut self, change: &C, byte: u8) -> Result<(), AllocError>
        ensures { OnOk result (rewrite_of self.new ≡ rewriting.rewrite_step (C.becomes change.now) (rewrite_of self.old) byte) }
    {
        let turn = turn_at(self.machine.place, byte);
        self.write(change, turn, byte)?;
        self.machine.follow(turn, byte)
    }

    // Reads a text.
    fn feed<C: Change>(&mut self, change: &C, text: &[u8]) -> Result<(), AllocError>
        ensures { OnOk result (rewrite_of self.new ≡ rewriting.rewrite_fed (C.becomes change.now) (rewrite_of self.old) text.now) }
    {
        let mut left = text;
        while let [byte, others @ ..] = left {
            self.step(change, *byte)?;
            left = others;
        }
        Ok(())
    }

    // Writes what the end of the set adds.
    fn close<C: Change>(&mut self, change: &C) -> Result<(), AllocError>
        ensures { OnOk result (self.new.out.items ≡ rewriting.rewrite_ended (C.becomes change.now) (rewrite_of self.old)) }
    {
        match self.machine.place {
            SetPlace::Before => Ok(()),
            SetPlace::Url => self.write_url(change),
            SetPlace::Commas => self.write_url(change),
            SetPlace::Descriptors => Ok(()),
            SetPlace::Parentheses => Ok(()),
        }
    }

    // All that is written of the set.
    fn finish<C: Change>(mut self, change: &C) -> Result<Vec<u8>, AllocError>
        ensures { IfOk result (λ out. out.items ≡ rewriting.rewrite_ended (C.becomes change.now) (rewrite_of self)) }
    {
        self.close(change)?;
        let SetRewriter { out, .. } = self;
        Ok(out)
    }
}

/// A source set with its URLs changed, all other bytes as they were. If every text that the change makes can be a URL of
/// a set (it isn't empty, has no white, and neither begins nor ends with a comma), the URLs of the new set are those of the
/// old one, changed, in their order. Fails only if memory runs out.
pub fn rewrite<C: Change>(alloc: Global, change: &C, set: &[u8]) -> Result<Vec<u8>, AllocError>
    ensures set { IfOk result (λ out. out.items ≡ rewritten (C.becomes change.now) set.now) }
    // No byte outside of URLs is another.
    ensures kept { IfOk result (λ out. IsAnew (C.becomes change.now) set.now out.items) }
    ensures references { IsWriting (C.becomes change.now) → IfOk result (λ out. references out.items ≡ map (changed (C.becomes change.now)) (references set.now)) }
{
    let mut rewriter = SetRewriter::new(alloc);
    rewriter.feed(change, set)?;
    Ok(rewriter.finish(change)?)
}
