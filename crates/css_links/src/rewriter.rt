//! Style sheets with other references (CSS Syntax Level 3, section 4.3).
ghost use Rattle.std.specs.Prelude.{◌≡◌, ◌++◌, [], ◌∷◌, List, ℕ, OnOk, IfOk, length, map, option_map, string_bytes};
ghost use Rattle.css_links.specs.References.{references, reference};
ghost use Rattle.css_links.specs.Rewriting as rewriting;
ghost use Rattle.css_links.specs.Rewriting.{IsWriting, IsAnew, changed, rewritten, written, written_byte};
ghost use Rattle.css_links.specs.Scanning.{front_of, rewrite_of};

use crate::change::Change;
use crate::escape::decoded;
use crate::machine::Machine;
use crate::memory::Memory;
use crate::place::{Place, Turn};
use crate::turns::turn;
use crate::zone::{Zone, zone_of};
use std::alloc::{AllocError, Global};
use std::mem;

/// How far a sheet was written anew: what was read, what was written, and the white that is held back after a bare URL.
#[derive(Drop)]
pub(crate) struct Rewriter {
    alloc: Global,
    machine: Machine,
    out: Vec<u8>,
    white: Vec<u8>,
}

// Puts a byte down as it is in a string or bare URL.
fn push_written_byte(out: &mut Vec<u8>, byte: u8) -> Result<(), AllocError>
    ensures { OnOk result (out.new.items ≡ out.old.items ++ written_byte byte) }
{
    if byte == b'"' {
        out.extend_from_slice(b"\\22 ")
    } else if byte == b'\'' {
        out.extend_from_slice(b"\\27 ")
    } else if byte == b'(' {
        out.extend_from_slice(b"\\28 ")
    } else if byte == b')' {
        out.extend_from_slice(b"\\29 ")
    } else if byte == b'\\' {
        out.extend_from_slice(b"\\5c ")
    } else if byte == b'<' {
        out.extend_from_slice(b"\\3c ")
    } else {
        out.extend_from_slice(&[byte])
    }
}

// Puts a text down as it is in a string or bare URL.
fn push_written(out: &mut Vec<u8>, text: &[u8]) -> Result<(), AllocError>
    ensures { OnOk result (out.new.items ≡ out.old.items ++ written text.now) }
{
    let mut left = text;
    while let [byte, others @ ..] = left {
        push_written_byte(out, *byte)?;
        left = others;
    }
    Ok(())
}

// Puts down what is written of a text that becomes this, or stays.
fn push_or(out: &mut Vec<u8>, raw: &[u8], other: &Option<String>) -> Result<(), AllocError>
    ensures { OnOk result (out.new.items ≡ out.old.items ++ rewriting.written_or raw.now (option_map string_bytes other.now)) }
{
    match other {
        Some(other) => push_written(out, other.as_bytes()),
        None => out.extend_from_slice(raw),
    }
}

// Puts a text down anew.
fn push_anew<C: Change>(
    alloc: Global,
    change: &C,
    out: &mut Vec<u8>,
    raw: &[u8],
) -> Result<(), AllocError>
    ensures { OnOk result (out.new.items ≡ out.old.items ++ rewriting.anew (C.becomes change.now) raw.now) }
{
    let text = decoded(alloc, raw)?;
    if text.is_empty() {
        return out.extend_from_slice(raw);
    }
    let other = change.change(text.as_str())?;
    push_or(out, raw, &other)
}

impl Rewriter {
    pub(crate) fn new(alloc: Global) -> Self
        ensures { rewrite_of result ≡ rewriting.nothing_written }
    {
        Rewriter {
            alloc,
            machine: Machine::new(alloc),
            out: Vec::new(alloc),
            white: Vec::new(alloc),
        }
    }

    // Writes what is held back.
    fn push_held(&mut self) -> Result<(), AllocError>
        ensures out { OnOk result (self.new.out.items ≡ self.old.out.items ++ rewriting.held (rewrite_of self.old)) }
        ensures machine { OnOk result (self.new.machine ≡ self.old.machine) }
        ensures white { OnOk result (self.new.white.items ≡ self.old.white.items) }
    {
        match zone_of(self.machine.place) {
            Zone::Outside => Ok(()),
            Zone::Begun => Ok(()),
            Zone::Quoted(_) => self.out.extend_from_slice(&self.machine.raw),
            Zone::Unquoted => self.out.extend_from_slice(&self.machine.raw),
            Zone::Ended => {
                self.out.extend_from_slice(&self.machine.raw)?;
                self.out.extend_from_slice(&self.white)
            },
        }
    }

    // Writes the white that is held back.
    fn push_white(&mut self) -> Result<(), AllocError>
        ensures out { OnOk result (self.new.out.items ≡ self.old.out.items ++ rewriting.white_in (rewriting.zone self.old.machine.place) self.old.white.items) }
        ensures machine { OnOk result (self.new.machine ≡ self.old.machine) }
        ensures white { OnOk result (self.new.white.items ≡ self.old.white.items) }
    {
        match zone_of(self.machine.place) {
            Zone::Outside => Ok(()),
            Zone::Begun => Ok(()),
            Zone::Quoted(_) => Ok(()),
            Zone::Unquoted => Ok(()),
            Zone::Ended => self.out.extend_from_slice(&self.white),
        }
    }

    // Writes what a byte that leads to a place makes ready, and holds white after a bare URL back.
    fn write_at(&mut self, place: Place, byte: u8) -> Result<(), AllocError>
        ensures out { OnOk result (self.new.out.items ≡ rewriting.out_at (rewriting.zone place) self.old.out.items (rewriting.held (rewrite_of self.old)) byte) }
        ensures white { OnOk result (self.new.white.items ≡ rewriting.white_at (rewriting.zone place) (rewriting.zone self.old.machine.place) self.old.white.items byte) }
        ensures machine { OnOk result (self.new.machine ≡ self.old.machine) }
    {
        match zone_of(place) {
            Zone::Outside => self.write_out(byte),
            Zone::Begun => self.write_out(byte),
            Zone::Quoted(_) => self.write_out(byte),
            Zone::Unquoted => self.write_out(byte),
            Zone::Ended => self.hold(byte),
        }
    }

    // Writes what is held back, and a byte.
    fn write_out(&mut self, byte: u8) -> Result<(), AllocError>
        ensures out { OnOk result (self.new.out.items ≡ self.old.out.items ++ (rewriting.held (rewrite_of self.old) ++ byte ∷ [])) }
        ensures white { OnOk result (self.new.white.items ≡ self.old.white.items) }
        ensures machine { OnOk result (self.new.machine ≡ self.old.machine) }
    {
        self.push_held()?;
        self.out.push(byte)?;
        Ok(())
    }

    // Holds white back.
    fn hold(&mut self, byte: u8) -> Result<(), AllocError>
        ensures out { OnOk result (self.new.out.items ≡ self.old.out.items) }
        ensures white { OnOk result (self.new.white.items ≡ rewriting.white_in (rewriting.zone self.old.machine.place) self.old.white.items ++ byte ∷ []) }
        ensures machine { OnOk result (self.new.machine ≡ self.old.machine) }
    {
        match zone_of(self.machine.place) {
            Zone::Outside => self.white.clear(),
            Zone::Begun => self.white.clear(),
            Zone::Quoted(_) => self.white.clear(),
            Zone::Unquoted => self.white.clear(),
            Zone::Ended => (),
        }
        self.white.push(byte)?;
        Ok(())
    }

    // Writes a byte with which a text goes on, unless that may be a reference.
    fn write_with(&mut self, place: Place, byte: u8) -> Result<(), AllocError>
        ensures out { OnOk result (self.new.out.items ≡ rewriting.out_with (rewriting.zone place) self.old.out.items byte) }
        ensures white { OnOk result (self.new.white.items ≡ self.old.white.items) }
        ensures machine { OnOk result (self.new.machine ≡ self.old.machine) }
    {
        match zone_of(place) {
            Zone::Outside => self.out.push(byte)?,
            Zone::Begun => self.out.push(byte)?,
            Zone::Quoted(_) => (),
            Zone::Unquoted => (),
            Zone::Ended => self.out.push(byte)?,
        }
        Ok(())
    }

    // Writes a byte.
    fn write_byte(&mut self, byte: u8) -> Result<(), AllocError>
        ensures out { OnOk result (self.new.out.items ≡ self.old.out.items ++ byte ∷ []) }
        ensures white { OnOk result (self.new.white.items ≡ self.old.white.items) }
        ensures machine { OnOk result (self.new.machine ≡ self.old.machine) }
    {
        self.out.push(byte)?;
        Ok(())
    }

    // Writes a reference anew, and the byte that ends it.
    fn write_reference<C: Change>(&mut self, change: &C, byte: u8) -> Result<(), AllocError>
        ensures out { OnOk result (self.new.out.items ≡ self.old.out.items ++ (rewriting.anew (C.becomes change.now) self.old.machine.raw.items ++ (rewriting.white_in (rewriting.zone self.old.machine.place) self.old.white.items ++ byte ∷ []))) }
        ensures white { OnOk result (self.new.white.items ≡ self.old.white.items) }
        ensures machine { OnOk result (self.new.machine ≡ self.old.machine) }
    {
        push_anew(self.alloc, change, &mut self.out, &self.machine.raw)?;
        self.push_white()?;
        self.write_byte(byte)
    }

    // Writes what a byte that does this makes ready.
    fn write<C: Change>(&mut self, change: &C, turn: Turn, byte: u8) -> Result<(), AllocError>
        ensures out { OnOk result (self.new.out.items ≡ rewriting.out_of (C.becomes change.now) (rewrite_of self.old) byte turn) }
        ensures white { OnOk result (self.new.white.items ≡ rewriting.white_of (rewrite_of self.old) byte turn) }
        ensures machine { OnOk result (self.new.machine ≡ self.old.machine) }
    {
        match turn {
            Turn::At(place) => self.write_at(place, byte),
            Turn::Anew(_) => self.write_byte(byte),
            Turn::First(_) => self.write_byte(byte),
            Turn::With(place) => self.write_with(place, byte),
            Turn::Refer => self.write_reference(change, byte),
            Turn::Quote(_) => self.write_byte(byte),
            Turn::UrlQuote(_) => self.write_byte(byte),
            Turn::Open(_) => self.write_byte(byte),
            Turn::Close => self.write_byte(byte),
        }
    }

    // Reads the next byte of the sheet.
    fn step<C: Change>(&mut self, change: &C, byte: u8) -> Result<(), AllocError>
        ensures { OnOk result (rewrite_of self.new ≡ rewriting.rewrite_step (C.becomes change.now) (rewrite_of self.old) byte) }
    {
        let turn = turn(self.alloc, self.machine.place, &self.machine.raw, byte)?;
        self.write(change, turn, byte)?;
        self.machine.follow(turn, byte)
    }

    /// Reads a piece of the sheet.
    pub(crate) fn feed<C: Change>(&mut self, change: &C, piece: &[u8]) -> Result<(), AllocError>
        ensures { OnOk result (rewrite_of self.new ≡ rewriting.rewrite_fed (C.becomes change.now) (rewrite_of self.old) piece.now) }
    {
        let mut left = piece;
        while let [byte, others @ ..] = left {
            self.step(change, *byte)?;
            left = others;
        }
        Ok(())
    }

    /// What is written and wasn't taken yet.
    pub(crate) fn take(&mut self) -> Vec<u8>
        ensures out { result.items ≡ self.old.out.items }
        ensures left { self.new.out.items ≡ [] }
        ensures machine { self.new.machine ≡ self.old.machine }
        ensures white { self.new.white ≡ self.old.white }
    {
        mem::replace(&mut self.out, Vec::new(self.alloc))
    }

    // Writes what the end of the sheet adds.
    fn close<C: Change>(&mut self, change: &C) -> Result<(), AllocError>
        ensures { OnOk result (self.new.out.items ≡ rewriting.rewrite_ended (C.becomes change.now) (rewrite_of self.old)) }
    {
        match zone_of(self.machine.place) {
            Zone::Outside => Ok(()),
            Zone::Begun => Ok(()),
            Zone::Quoted(_) => push_anew(self.alloc, change, &mut self.out, &self.machine.raw),
            Zone::Unquoted => push_anew(self.alloc, change, &mut self.out, &self.machine.raw),
            Zone::Ended => {
                push_anew(self.alloc, change, &mut self.out, &self.machine.raw)?;
                self.out.extend_from_slice(&self.white)
            },
        }
    }

    /// All that is written of the sheet and wasn't taken.
    pub(crate) fn finish<C: Change>(mut self, change: &C) -> Result<Vec<u8>, AllocError>
        ensures { IfOk result (λ out. out.items ≡ rewriting.rewrite_ended (C.becomes change.now) (rewrite_of self)) }
    {
        self.close(change)?;
        let Rewriter { out, .. } = self;
        Ok(out)
    }
}

/// A style sheet with its references changed, all other bytes as they were. If every text that the change makes can
/// be a reference (it isn't empty, and its bytes are visible), the references of the new sheet are those of the old
/// one, changed, in their order.
///
/// # Errors
/// `Memory` if a growth is refused.
pub fn rewrite<C: Change>(alloc: Global, change: &C, sheet: &[u8]) -> Result<Vec<u8>, Memory>
    ensures sheet { IfOk result (λ out. out.items ≡ rewritten (C.becomes change.now) sheet.now) }
    // No byte outside of references is another.
    ensures kept { IfOk result (λ out. IsAnew (C.becomes change.now) sheet.now out.items) }
    ensures references { IsWriting (C.becomes change.now) → IfOk result (λ out. references out.items ≡ map (changed (C.becomes change.now)) (references sheet.now)) }
{
    let mut rewriter = Rewriter::new(alloc);
    rewriter.feed(change, sheet)?;
    Ok(rewriter.finish(change)?)
}
