//! Units: what a name is made of, and never cut within.
ghost use Rattle.std.specs.Prelude.{◌≡◌, ◌<◌, ◌≤◌, ◌-◌, ◌++◌, ◌||◌, OnOk, Some, map, drop, string_bytes, length};
ghost use Rattle.std.specs.List.{list_all};
ghost use Rattle.percent_encoding.specs.Percent.{percent_encode_byte};
ghost use Rattle.local_names.specs.PlainNames.{is_control, is_slash, is_refused_by_windows, is_kept, in_case, piece_units, units_of, marked_units, without_dots, cut, is_part, cut_in, local_segment, dir_segment};
ghost use Rattle.local_names.specs.inner.Units.{unit_text, is_dot_unit, started, is_new, below, below_within};

use crate::plain_name::{MAX_SEGMENT, PART, is_original};
use crate::rules::{CharRules, LetterCase};
use bstr::decode_utf8;
use percent_encoding::percent_encode_byte;
use std::alloc::AllocError;

/// A part of a name that it has whole or not at all.
#[derive(Clone, Copy, PartialEq, Eq)]
pub(crate) enum Unit {
    /// A character.
    Char(char),
    /// `%` and two digits for a byte.
    Escape(u8),
}

impl Unit {
    // How many bytes it has.
    fn len(self) -> usize
        ensures { result ≡ length (unit_text self) }
    {
        match self {
            Unit::Char(c) => c.len_utf8(),
            Unit::Escape(_) => 3,
        }
    }

    // Adds its bytes to a name.
    fn push_onto(self, name: &mut String) -> Result<(), AllocError>
        ensures { OnOk result (string_bytes name.new ≡ string_bytes name.old ++ unit_text self) }
    {
        match self {
            Unit::Char(c) => name.push(c),
            Unit::Escape(byte) => name.push_str(percent_encode_byte(byte)),
        }
    }

    // Whether it is a dot.
    fn is_dot(self) -> bool
        ensures { result ≡ is_dot_unit self }
    {
        match self {
            Unit::Char(c) => c == '.',
            Unit::Escape(_) => false,
        }
    }
}

// Whether a byte, or the character that it is, is a control byte or a slash.
fn is_reserved(c: char) -> bool
    ensures { result ≡ (is_control c || is_slash c) }
{
    c < ' ' || c == '\x7f' || c == '/'
}

// Whether Windows refuses the character.
fn is_refused_by_windows(c: char) -> bool
    ensures { result ≡ is_refused_by_windows c }
{
    c == '"' || c == '*' || c == ':' || c == '<' || c == '>' || c == '?' || c == '\\' || c == '|'
}

// Whether a name has the character as it is.
fn is_kept(rules: CharRules, c: char) -> bool
    ensures { result ≡ is_kept rules c }
{
    !is_reserved(c)
        && !(rules.is_ascii && c > '\x7f')
        && !(rules.is_windows && is_refused_by_windows(c))
}

// The character in this case.
fn in_case(letter_case: LetterCase, c: char) -> char
    ensures { result ≡ in_case letter_case c }
{
    match letter_case {
        LetterCase::AsIs => c,
        LetterCase::Lower => c.to_ascii_lowercase(),
        LetterCase::Upper => c.to_ascii_uppercase(),
    }
}

// Adds an escape for each of these bytes.
fn push_escapes(units: &mut Vec<Unit>, bytes: &[u8]) -> Result<(), AllocError>
    ensures { OnOk result (map unit_text units.new.items ≡ map unit_text units.old.items ++ map percent_encode_byte bytes.now) }
{
    for byte in bytes {
        units.push(Unit::Escape(*byte))?;
    }
    Ok(())
}

// Adds a character as it is, or an escape for each of its bytes.
fn push_char(
    units: &mut Vec<Unit>,
    rules: CharRules,
    found: char,
    bytes: &[u8],
) -> Result<(), AllocError>
    ensures { OnOk result (map unit_text units.new.items ≡ map unit_text units.old.items ++ piece_units rules (Some found) bytes.now) }
{
    if !is_kept(rules, found) {
        return push_escapes(units, bytes);
    }
    units.push(Unit::Char(in_case(rules.letter_case, found)))?;
    Ok(())
}

// Adds the units of a piece, which is this character if it is one.
fn push_piece(
    units: &mut Vec<Unit>,
    rules: CharRules,
    found: Option<char>,
    bytes: &[u8],
) -> Result<(), AllocError>
    ensures { OnOk result (map unit_text units.new.items ≡ map unit_text units.old.items ++ piece_units rules found bytes.now) }
{
    match found {
        Some(found) => push_char(units, rules, found, bytes),
        None => push_escapes(units, bytes),
    }
}

/// Adds the units of a text.
pub(crate) fn push_units(
    units: &mut Vec<Unit>,
    rules: CharRules,
    text: &[u8],
) -> Result<(), AllocError>
    ensures { OnOk result (map unit_text units.new.items ≡ map unit_text units.old.items ++ units_of rules text.now) }
{
    let mut rest = text;
    'pieces: while !rest.is_empty() {
        let (found, size) = decode_utf8(rest);
        push_piece(units, rules, found, &rest[..size])?;
        rest = &rest[size..];
    }
    Ok(())
}

/// Adds the units of what follows a mark, if there is one, with this in its place.
pub(crate) fn push_marked(
    units: &mut Vec<Unit>,
    rules: CharRules,
    mark: char,
    text: &[u8],
) -> Result<(), AllocError>
    requires { mark < 128 }
    ensures { OnOk result (map unit_text units.new.items ≡ map unit_text units.old.items ++ marked_units rules mark text.now) }
{
    if text.is_empty() {
        return Ok(());
    }
    units.push(Unit::Char(mark))?;
    push_units(units, rules, &text[1..])
}

// Whether these are dots alone.
fn are_dots(units: &[Unit]) -> bool
    ensures { result ≡ list_all is_dot_unit units.now }
{
    units.iter().all(|unit| unit.is_dot())
}

// Escapes the dots of a segment of dots alone.
fn escape_dots(units: &mut Vec<Unit>)
    ensures { map unit_text units.new.items ≡ without_dots (map unit_text units.old.items) }
{
    if are_dots(units) {
        units.fill(Unit::Escape(b'.'));
    }
}

// Adds the first units to a name for which there is room.
fn push_cut(name: &mut String, room: usize, units: &[Unit]) -> Result<(), AllocError>
    ensures { OnOk result (string_bytes name.new ≡ string_bytes name.old ++ cut room (map unit_text units.now)) }
{
    let mut room = room;
    for unit in units {
        let len = unit.len();
        if len > room {
            return Ok(());
        }
        unit.push_onto(name)?;
        room -= len;
    }
    Ok(())
}

// Whether the text begins as what a folder writes before it gets its name.
fn is_part(text: &str) -> bool
    ensures { result ≡ is_part text.now }
{
    text.as_bytes().starts_with(PART.as_bytes())
}

// Writes a name's first segment anew, with its first dot escaped.
fn escape_first(name: &mut String, room: usize, units: &[Unit]) -> Result<(), AllocError>
    requires room { 3 ≤ room }
    requires some { 0 < length units.now }
    ensures { OnOk result (string_bytes name.new ≡ percent_encode_byte 46 ++ cut (room - 3) (drop 1 (map unit_text units.now))) }
{
    name.clear();
    name.push_str(percent_encode_byte(b'.'))?;
    push_cut(name, room - 3, &units[1..])
}

// Adds the first units to a name for which there is room. If nothing is there and they would begin as a part does, their first
// dot is escaped.
fn push_apart(name: &mut String, room: usize, units: &[Unit]) -> Result<(), AllocError>
    requires { 3 ≤ room }
    ensures { OnOk result (string_bytes name.new ≡ string_bytes name.old ++ cut_in (is_new (string_bytes name.old)) room (map unit_text units.now)) }
{
    let is_new = name.is_empty();
    push_cut(name, room, units)?;
    if is_new && is_part(name.as_str()) {
        return escape_first(name, room, units);
    }
    Ok(())
}

// Adds what is between segments, if the name has one.
fn push_slash(name: &mut String) -> Result<(), AllocError>
    ensures { OnOk result (string_bytes name.new ≡ started (string_bytes name.old)) }
{
    if name.is_empty() {
        return Ok(());
    }
    name.push('/')?;
    Ok(())
}

// Adds a segment of these units, in which dots alone are escaped, below those that are there. It has no more bytes than this.
fn push_escaped(name: &mut String, room: usize, units: &[Unit]) -> Result<(), AllocError>
    requires { 3 ≤ room }
    ensures { OnOk result (string_bytes name.new ≡ started (string_bytes name.old) ++ cut_in (is_new (string_bytes name.old)) room (map unit_text units.now)) }
{
    push_slash(name)?;
    push_apart(name, room, units)
}

/// Adds a segment of these units, which has no more bytes than this, to a name, below those that are there.
pub(crate) fn push_within(
    name: &mut String,
    room: usize,
    mut units: Vec<Unit>,
) -> Result<(), AllocError>
    requires { 3 ≤ room }
    ensures { OnOk result (string_bytes name.new ≡ below_within room (string_bytes name.old) (map unit_text units.items)) }
{
    escape_dots(&mut units);
    push_escaped(name, room, &units)
}

/// Adds a segment with as many bytes as a segment may have.
pub(crate) fn push_segment(name: &mut String, units: Vec<Unit>) -> Result<(), AllocError>
    ensures { OnOk result (string_bytes name.new ≡ below (string_bytes name.old) (λ is_first. local_segment is_first (map unit_text units.items))) }
{
    push_within(name, MAX_SEGMENT, units)
}

/// The same for a directory of a path, which gets `.1` if it would end as the name of a body as it came, and names have originals. The
/// cut leaves room for it.
pub(crate) fn push_dir(
    name: &mut String,
    has_originals: bool,
    mut units: Vec<Unit>,
) -> Result<(), AllocError>
    ensures { OnOk result (string_bytes name.new ≡ below (string_bytes name.old) (dir_segment has_originals (map unit_text units.items))) }
{
    escape_dots(&mut units);
    let len = name.len();
    push_escaped(name, MAX_SEGMENT, &units)?;
    if has_originals && is_original(name.as_str()) {
        name.truncate(len);
        push_escaped(name, MAX_SEGMENT - 2, &units)?;
        name.push_str(".1")?;
    }
    Ok(())
}
