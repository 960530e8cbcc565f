//! Escapes (CSS Syntax Level 3, sections 4.3.5, 4.3.7 and 4.3.11).
ghost use Rattle.std.specs.Prelude.{◌≡◌, false, ◌<◌, ◌≤◌, ◌++◌, [], ◌∷◌, length, IfOk, OnOk, OnErr, string_bytes};
ghost use Rattle.std.specs.Str.Lossy.{utf8_lossy};
ghost use Rattle.std.specs.Char.{IsAsciiHexdigit};
ghost use Rattle.css_links.specs.Escapes.{unescaped, digit, with_digit, character, plainly, begun, ended, numbered, returned, read_in, whole_in, says, read};
ghost use Rattle.css_links.specs.inner.Spans.{until, from, is};

use crate::bytes::{is_newline, is_white};
use bstr::ByteVec;
use memchr::memchr;
use std::alloc::{AllocError, Global};

/// Where in an escape the next byte is.
#[derive(Clone, Copy)]
pub(crate) enum Reading {
    Plain,
    /// After the backslash.
    Begun,
    /// After that many hexadecimal digits, with the number that they say.
    Number(u8, u32),
    /// After a carriage return that was left out: a line feed belongs to it.
    Return,
}

/// Whether an escape may be in a text. If not, it says itself.
pub(crate) fn has_escape(raw: &[u8]) -> bool
    ensures { result ≡ false → unescaped raw.now ≡ raw.now }
{
    memchr(b'\\', raw).is_some()
}

/// A text with its escapes replaced.
#[tactic(auto, unfolding(crate::specs::Escapes::unescaped))]
pub(crate) fn unescaped(alloc: Global, raw: &[u8]) -> Result<Vec<u8>, AllocError>
    ensures { IfOk result (λ text. text.items ≡ unescaped raw.now) }
{
    let mut text = Vec::with_capacity(alloc, raw.len())?;
    let mut reading = Reading::Plain;
    let mut left = raw;
    while let [byte, others @ ..] = left {
        reading = read_in(&mut text, reading, *byte)?;
        left = read_run(&mut text, reading, others)?;
    }
    end(&mut text, reading)?;
    Ok(text)
}

/// A text with its escapes replaced, decoded as UTF-8.
pub(crate) fn decoded(alloc: Global, raw: &[u8]) -> Result<String, AllocError>
    ensures { IfOk result (λ text. string_bytes text ≡ utf8_lossy (unescaped raw.now)) }
{
    if !has_escape(raw) {
        return String::from_utf8_lossy(alloc, raw);
    }
    match String::from_utf8(unescaped(alloc, raw)?) {
        Ok(text) => Ok(text),
        Err(fault) => String::from_utf8_lossy(alloc, fault.as_bytes()),
    }
}

// Outside of escapes, puts down what is before the next one. Gives what is left.
fn read_run<'a>(
    text: &mut Vec<u8>,
    reading: Reading,
    left: &'a [u8],
) -> Result<&'a [u8], AllocError>
    ensures says { IfOk result (λ rest. says (read text.new.items reading) rest.now ≡ says (read text.old.items reading) left.now) }
    ensures shorter { IfOk result (λ rest. length rest.now ≤ length left.now) }
{
    match reading {
        Reading::Plain => {
            let (run, rest) = before_backslash(left);
            text.extend_from_slice(run)?;
            Ok(rest)
        },
        _ => Ok(left),
    }
}

// A text cut before its first backslash; whole, if there is none.
fn before_backslash(text: &[u8]) -> (&[u8], &[u8])
    ensures front { result.0.now ≡ until (is 92) text.now }
    ensures left { result.1.now ≡ from (is 92) text.now }
    ensures shorter { length result.1.now ≤ length text.now }
{
    match memchr(b'\\', text) {
        Some(at) => text.split_at(at),
        None => (text, &[]),
    }
}

// Puts down what one more byte says, and gives the next place.
fn read_in(text: &mut Vec<u8>, reading: Reading, byte: u8) -> Result<Reading, AllocError>
    ensures { IfOk result (λ next. read text.new.items next ≡ read_in reading text.old.items byte) }
{
    match reading {
        Reading::Plain => plainly(text, byte),
        Reading::Begun => begun(text, byte),
        Reading::Number(count, value) => numbered(text, count, value, byte),
        Reading::Return => returned(text, byte),
    }
}

fn plainly(text: &mut Vec<u8>, byte: u8) -> Result<Reading, AllocError>
    ensures { IfOk result (λ next. read text.new.items next ≡ plainly text.old.items byte) }
{
    if byte == b'\\' {
        return Ok(Reading::Begun);
    }
    text.push(byte)?;
    Ok(Reading::Plain)
}

fn begun(text: &mut Vec<u8>, byte: u8) -> Result<Reading, AllocError>
    ensures { IfOk result (λ next. read text.new.items next ≡ begun text.old.items byte) }
{
    if byte == b'\r' {
        return Ok(Reading::Return);
    }
    if is_newline(byte) {
        return Ok(Reading::Plain);
    }
    if byte.is_ascii_hexdigit() {
        return Ok(Reading::Number(1, hex_digit(byte)));
    }
    text.push(byte)?;
    Ok(Reading::Plain)
}

fn numbered(text: &mut Vec<u8>, count: u8, value: u32, byte: u8) -> Result<Reading, AllocError>
    ensures { IfOk result (λ next. read text.new.items next ≡ numbered count value text.old.items byte) }
{
    if count < 6 && byte.is_ascii_hexdigit() {
        return Ok(Reading::Number(count + 1, with_digit(value, byte)));
    }
    push_character(text, value)?;
    ended(text, byte)
}

fn ended(text: &mut Vec<u8>, byte: u8) -> Result<Reading, AllocError>
    ensures { IfOk result (λ next. read text.new.items next ≡ ended text.old.items byte) }
{
    if byte == b'\r' {
        return Ok(Reading::Return);
    }
    if is_white(byte) {
        return Ok(Reading::Plain);
    }
    plainly(text, byte)
}

fn returned(text: &mut Vec<u8>, byte: u8) -> Result<Reading, AllocError>
    ensures { IfOk result (λ next. read text.new.items next ≡ returned text.old.items byte) }
{
    if byte == b'\n' {
        return Ok(Reading::Plain);
    }
    plainly(text, byte)
}

// Puts down a number that is at the end.
fn end(text: &mut Vec<u8>, reading: Reading) -> Result<(), AllocError>
    ensures { OnOk result (text.new.items ≡ whole_in reading text.old.items) }
{
    match reading {
        Reading::Number(_, value) => push_character(text, value),
        _ => Ok(()),
    }
}

fn push_character(text: &mut Vec<u8>, value: u32) -> Result<(), AllocError>
    ensures { OnOk result (text.new.items ≡ text.old.items ++ character value) }
{
    match char::from_u32(value) {
        Some(character) if value != 0 => text.push_char(character),
        _ => text.push_char('\u{FFFD}'),
    }
}

fn with_digit(value: u32, byte: u8) -> u32
    requires { IsAsciiHexdigit byte }
    ensures { result ≡ with_digit value byte }
{
    if value > 0x10FFFF {
        return value;
    }
    value * 16 + hex_digit(byte)
}

fn hex_digit(byte: u8) -> u32
    requires { IsAsciiHexdigit byte }
    ensures value { result ≡ digit byte }
    ensures small { result < 16 }
{
    if byte < b':' {
        (byte - b'0') as u32
    } else {
        (byte.to_ascii_lowercase() - b'a') as u32 + 10
    }
}
