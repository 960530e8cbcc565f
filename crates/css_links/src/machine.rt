//! A machine that reads a style sheet byte by byte (CSS Syntax Level 3, section 4.3).
ghost use Rattle.std.specs.Prelude.{◌≡◌, ◌≤◌, ◌++◌, ◌∷◌, OnOk, IfOk, length, reverse};
ghost use Rattle.css_links.specs.Scanning.{front_of, seen_of};
ghost use Rattle.css_links.specs.References.{front, nothing_read, left_open, left_open_in, ended, reference, step, fed, turned, opened, string_at};
ghost use Rattle.css_links.specs.inner.Spans.{until, from, ends_span, quiet_span};
ghost use Rattle.css_links.specs.inner.Quiet.{lead_behind, place_after};
ghost use Rattle.css_links.specs.declared.place.Place.TheVariants as places;

use crate::escape::decoded;
use crate::found::Found;
use crate::place::{Lead, Place, SheetPart, Turn};
use crate::span::{Span, from_star};
use crate::turns::turn;
use std::alloc::{AllocError, Global};

/// How far a sheet was read: the place, the text of the word, string or URL that is being read, what was found, and how many
/// parentheses are open from that of an image set on.
#[derive(Drop)]
pub(crate) struct Machine {
    alloc: Global,
    pub(crate) place: Place,
    pub(crate) raw: Vec<u8>,
    found: Vec<Found>,
    depth: u64,
}

impl Machine {
    pub(crate) fn new(alloc: Global) -> Self
        ensures { front_of result ≡ nothing_read }
    {
        Machine {
            alloc,
            place: Place::Between,
            raw: Vec::new(alloc),
            found: Vec::new(alloc),
            depth: 0,
        }
    }

    /// Reads a byte, and of what follows it all that stays in the same part of the sheet. Gives what is left.
    pub(crate) fn advance<'a>(&mut self, byte: u8, others: &'a [u8]) -> Result<&'a [u8], AllocError>
        ensures gives { IfOk result (λ left. fed (front_of self.new) left.now ≡ fed (front_of self.old) (byte ∷ others.now)) }
        ensures shorter { IfOk result (λ left. length left.now ≤ length others.now) }
    {
        self.step(byte)?;
        self.run(others)
    }

    // Takes from the front of a text, many bytes at a time, what stays in the present part, and gives what is left.
    fn run<'a>(&mut self, text: &'a [u8]) -> Result<&'a [u8], AllocError>
        ensures gives { IfOk result (λ left. fed (front_of self.new) left.now ≡ fed (front_of self.old) text.now) }
        ensures shorter { IfOk result (λ left. length left.now ≤ length text.now) }
    {
        match self.place {
            Place::Between => self.quiet_run(text),
            Place::Comment => Ok(from_star(text)),
            Place::ImportComment => Ok(from_star(text)),
            Place::Inside(part) => self.part_run(part, text),
            _ => Ok(text),
        }
    }

    fn part_run<'a>(&mut self, part: SheetPart, text: &'a [u8]) -> Result<&'a [u8], AllocError>
        requires { self.old.place ≡ places.Inside part }
        ensures gives { IfOk result (λ left. fed (front_of self.new) left.now ≡ fed (front_of self.old) text.now) }
        ensures shorter { IfOk result (λ left. length left.now ≤ length text.now) }
    {
        match part {
            SheetPart::Word(_) => self.text_run(Span::Name, text),
            SheetPart::Reference(quote) => self.text_run(Span::Quoted(quote), text),
            SheetPart::Other(quote) => Ok(Span::Quoted(quote).split(text).1),
            SheetPart::Bare => self.text_run(Span::Unquoted, text),
            SheetPart::Bad => Ok(Span::Bad.split(text).1),
        }
    }

    // Puts what the part goes on with to its text.
    fn text_run<'a>(&mut self, span: Span, text: &'a [u8]) -> Result<&'a [u8], AllocError>
        ensures front { OnOk result (front_of self.new ≡ front self.old.place (self.old.raw.items ++ until (ends_span span) text.now) (seen_of self.old)) }
        ensures left { IfOk result (λ left. left.now ≡ from (ends_span span) text.now) }
        ensures shorter { IfOk result (λ left. length left.now ≤ length text.now) }
    {
        let (run, left) = span.split(text);
        self.raw.extend_from_slice(run)?;
        Ok(left)
    }

    // Between tokens: passes over words and what is between them, and keeps the last word.
    fn quiet_run<'a>(&mut self, text: &'a [u8]) -> Result<&'a [u8], AllocError>
        ensures gives { IfOk result (λ left. fed (front_of self.new) left.now ≡ fed (front places.Between self.old.raw.items (seen_of self.old)) text.now) }
        ensures shorter { IfOk result (λ left. length left.now ≤ length text.now) }
    {
        let (quiet, left) = self.split_quiet(text);
        let (named, plain) = Span::Plain.split_end(quiet);
        if named.is_empty() {
            self.place = Place::Between;
            return Ok(left);
        }
        let (before, word) = Span::Name.split_end(named);
        self.raw.clear();
        self.raw.extend_from_slice(word)?;
        self.place = place_after(before, plain);
        Ok(left)
    }

    // A text cut after words and what is between them. The search is written twice, so that each is a loop of its own.
    fn split_quiet<'a>(&self, text: &'a [u8]) -> (&'a [u8], &'a [u8])
        ensures front { result.0.now ≡ until (ends_span (quiet_span self.now.depth)) text.now }
        ensures left { result.1.now ≡ from (ends_span (quiet_span self.now.depth)) text.now }
        ensures shorter { length result.1.now ≤ length text.now }
    {
        if self.depth == 0 {
            Span::Quiet.split(text)
        } else {
            Span::InSet.split(text)
        }
    }

    /// Reads the next byte of the sheet.
    pub(crate) fn step(&mut self, byte: u8) -> Result<(), AllocError>
        ensures { OnOk result (front_of self.new ≡ step (front_of self.old) byte) }
    {
        let turn = turn(self.alloc, self.place, &self.raw, byte)?;
        self.follow(turn, byte)
    }

    /// Does what the byte does in its place.
    pub(crate) fn follow(&mut self, turn: Turn, byte: u8) -> Result<(), AllocError>
        ensures { OnOk result (front_of self.new ≡ turned (front_of self.old) byte turn) }
    {
        match turn {
            Turn::At(place) => self.place = place,
            Turn::Anew(place) => {
                self.raw.clear();
                self.place = place;
            },
            Turn::First(place) => {
                self.raw.clear();
                self.raw.push(byte)?;
                self.place = place;
            },
            Turn::With(place) => {
                self.raw.push(byte)?;
                self.place = place;
            },
            Turn::Refer => {
                self.note()?;
                self.raw.clear();
                self.place = Place::Between;
            },
            Turn::Quote(quote) => {
                self.raw.clear();
                self.place = Place::Inside(string_at(self.depth, quote));
            },
            Turn::UrlQuote(quote) => {
                self.depth = opened(false, self.depth)?;
                self.raw.clear();
                self.place = Place::Inside(SheetPart::Reference(quote));
            },
            Turn::Open(set) => {
                self.depth = opened(set, self.depth)?;
                self.place = Place::Between;
            },
            Turn::Close => {
                self.depth = self.depth.saturating_sub(1);
                self.place = Place::Between;
            },
        }
        Ok(())
    }

    // Notes the text as a reference, if it isn't empty.
    fn note(&mut self) -> Result<(), AllocError>
        ensures found { OnOk result (self.new.found.items ≡ self.old.found.items ++ reference self.old.raw.items) }
        ensures raw { self.new.raw.items ≡ self.old.raw.items }
        ensures place { self.new.place ≡ self.old.place }
        ensures depth { self.new.depth ≡ self.old.depth }
    {
        let text = decoded(self.alloc, &self.raw)?;
        if !text.is_empty() {
            self.found.push(Found { text })?;
        }
        Ok(())
    }

    // Notes what the end of the sheet ends in this part.
    fn close_part(&mut self, part: SheetPart) -> Result<(), AllocError>
        ensures { OnOk result (self.new.found.items ≡ self.old.found.items ++ left_open_in part self.old.raw.items) }
    {
        match part {
            SheetPart::Reference(_) => self.note(),
            SheetPart::Bare => self.note(),
            SheetPart::Word(_) => Ok(()),
            SheetPart::Other(_) => Ok(()),
            SheetPart::Bad => Ok(()),
        }
    }

    // Notes what the end of the sheet ends.
    fn close(&mut self) -> Result<(), AllocError>
        ensures { OnOk result (self.new.found.items ≡ self.old.found.items ++ left_open self.old.place self.old.raw.items) }
    {
        match self.place {
            Place::Inside(part) => self.close_part(part),
            Place::Escaped(part, _) => self.close_part(part),
            Place::UrlEnded => self.note(),
            _ => Ok(()),
        }
    }

    /// The references of a sheet of which all was read.
    pub(crate) fn finish(mut self) -> Result<Vec<Found>, AllocError>
        ensures { IfOk result (λ found. found.items ≡ ended (front_of self)) }
    {
        self.close()?;
        let Machine { found, .. } = self;
        Ok(found)
    }
}

// The depth after a `(`, which may be that of an image set. The error is more than 2^64 of them, for which there is no memory.
fn opened(set: bool, depth: u64) -> Result<u64, AllocError>
    ensures { IfOk result (λ d. d ≡ opened set depth) }
{
    if depth == 0 {
        return Ok(if set { 1 } else { 0 });
    }
    if depth == u64::MAX {
        return Err(AllocError);
    }
    Ok(depth + 1)
}

// What a string between tokens is.
fn string_at(depth: u64, quote: u8) -> SheetPart
    ensures { result ≡ string_at depth quote }
{
    if depth == 1 {
        SheetPart::Reference(quote)
    } else {
        SheetPart::Other(quote)
    }
}

// The place at the end of a text between tokens, by what is before its last word and what is after it.
fn place_after(before: &[u8], plain: &[u8]) -> Place
    ensures { result ≡ place_after (reverse before.now) plain.now }
{
    match plain {
        [] => Place::Inside(SheetPart::Word(lead_behind(before))),
        _ => Place::Between,
    }
}

// What a word follows, by the bytes before it.
fn lead_behind(before: &[u8]) -> Lead
    ensures { result ≡ lead_behind (reverse before.now) }
{
    match before {
        [.., last] if *last == b'#' => Lead::Hash,
        _ => Lead::Nothing,
    }
}
