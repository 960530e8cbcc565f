//! Searches for the byte that ends a part of a style sheet.
ghost use Rattle.std.specs.Prelude.{◌≡◌, ◌≤◌, ◌==◌, ◌||◌, ◌++◌, length, reverse};
ghost use Rattle.memchr.specs.Find.{Nowhere, Passes};
ghost use Rattle.css_links.specs.Bytes.{is_newline, is_white, is_unfit, is_loud};
ghost use Rattle.css_links.specs.inner.Lanes.{Covers};
ghost use Rattle.css_links.specs.inner.Spans.{until, from, is, ends_span};

use crate::bytes::{is_loud, is_name, is_newline, is_unfit, is_white};
use crate::lanes::{at_most, either, equal_to, load, lowest, marks};
use memchr::memchr;
use std::simd::prelude::*;

/// A part of a style sheet that a class of bytes ends.
#[derive(Clone, Copy)]
pub(crate) enum Span {
    /// Words, and what is between them.
    Quiet,
    /// The same in an image set, in which parentheses are counted.
    InSet,
    /// What is between words there, except `#`.
    Plain,
    /// Bytes of a name.
    Name,
    /// A string between such quotes.
    Quoted(u8),
    /// A URL without quotes.
    Unquoted,
    /// What is left of a bad URL.
    Bad,
}

impl Span {
    fn ends_at(self, byte: u8) -> bool
        ensures { result ≡ ends_span self byte }
    {
        match self {
            Span::Quiet => is_loud(byte),
            Span::InSet => byte == b')' || is_loud(byte),
            Span::Plain => is_name(byte) || byte == b'#',
            Span::Name => !is_name(byte),
            Span::Quoted(quote) => byte == quote || is_newline(byte) || byte == b'\\',
            Span::Unquoted => { byte == b')' || is_white(byte) || byte == b'\\' || is_unfit(byte) },
            Span::Bad => byte == b')' || byte == b'\\',
        }
    }

    // Sets the lanes of the bytes that end the part. Words are short, so no byte of theirs is passed over by lanes.
    #[inline(always)]
    fn lanes(self, bytes: u8x32) -> u8x32
        ensures { Covers (ends_span self) bytes result }
    {
        match self {
            Span::Quiet => loud_lanes(bytes),
            Span::InSet => either(equal_to(bytes, b')'), loud_lanes(bytes)),
            Span::Plain => u8x32::splat(255),
            Span::Name => u8x32::splat(255),
            Span::Quoted(quote) => either(equal_to(bytes, quote), string_lanes(bytes)),
            Span::Unquoted => either(equal_to(bytes, b')'), unquoted_lanes(bytes)),
            Span::Bad => either(equal_to(bytes, b')'), equal_to(bytes, b'\\')),
        }
    }

    // How far no byte of a text ends the part, as far as vectors show it.
    #[inline(always)]
    fn calm(self, text: &[u8]) -> usize
        ensures within { result ≤ length text.now }
        ensures calm { Nowhere (Passes (ends_span self) text.now) 0 result }
    {
        let mut at = 0;
        while 32 <= text.len() - at {
            let marked = marks(self.lanes(load(text, at)));
            if marked != 0 {
                return at + lowest(marked);
            }
            at += 32;
        }
        at
    }

    /// A text cut before the first byte that ends the part; whole, if there is none.
    #[inline(always)]
    pub(crate) fn split(self, text: &[u8]) -> (&[u8], &[u8])
        ensures front { result.0.now ≡ until (ends_span self) text.now }
        ensures left { result.1.now ≡ from (ends_span self) text.now }
        ensures shorter { length result.1.now ≤ length text.now }
    {
        let calm = self.calm(text);
        let (_, others) = text.split_at(calm);
        let (run, _) = self.split_by_bytes(others);
        text.split_at(calm + run.len())
    }

    // The same, byte by byte.
    #[inline(always)]
    fn split_by_bytes(self, text: &[u8]) -> (&[u8], &[u8])
        ensures front { result.0.now ≡ until (ends_span self) text.now }
        ensures left { result.1.now ≡ from (ends_span self) text.now }
        ensures shorter { length result.1.now ≤ length text.now }
    {
        for (i, byte) in text.iter().enumerate() {
            if self.ends_at(*byte) {
                return text.split_at(i);
            }
        }
        (text, &[])
    }

    /// A text cut after the last byte that ends the part: what follows is the part.
    #[inline(always)]
    pub(crate) fn split_end(self, text: &[u8]) -> (&[u8], &[u8])
        ensures front { result.0.now ≡ reverse (from (ends_span self) (reverse text.now)) }
        ensures whole { text.now ≡ result.0.now ++ result.1.now }
    {
        let mut front = text;
        while let [others @ .., last] = front
            && !self.ends_at(*last)
        {
            front = others;
        }
        text.split_at(front.len())
    }
}

// Sets the lanes of the bytes that are loud.
#[inline(always)]
fn loud_lanes(bytes: u8x32) -> u8x32
    ensures { Covers is_loud bytes result }
{
    let quote = either(equal_to(bytes, b'"'), equal_to(bytes, b'\''));
    let last = either(equal_to(bytes, b'@'), equal_to(bytes, b'\\'));
    let slash = either(equal_to(bytes, b'/'), last);
    let open = either(equal_to(bytes, b'('), slash);
    either(quote, open)
}

// Sets the lanes of newlines and backslashes.
#[inline(always)]
fn string_lanes(bytes: u8x32) -> u8x32
    ensures { Covers (λ b. is_newline b || b == 92) bytes result }
{
    either(at_most(bytes, b'\r'), equal_to(bytes, b'\\'))
}

// Sets the lanes of what a URL without quotes can't have, and of backslashes.
#[inline(always)]
fn unquoted_lanes(bytes: u8x32) -> u8x32
    ensures { Covers (λ b. is_white b || (b == 92 || is_unfit b)) bytes result }
{
    let quote = either(equal_to(bytes, b'"'), equal_to(bytes, b'\''));
    let last = either(equal_to(bytes, b'('), equal_to(bytes, 127));
    let seen = either(equal_to(bytes, b'\\'), either(quote, last));
    either(at_most(bytes, b' '), seen)
}

/// A text from its first `*` on; nothing, if there is none.
pub(crate) fn from_star(text: &[u8]) -> &[u8]
    ensures left { result.now ≡ from (is 42) text.now }
    ensures shorter { length result.now ≤ length text.now }
{
    match memchr(b'*', text) {
        Some(at) => text.split_at(at).1,
        None => &[],
    }
}
