//! The lines of a robots file (RFC 9309, section 2.2).
ghost use Rattle.std.specs.Prelude.{◌≡◌, ◌==◌, position, map, IfOk};
ghost use Rattle.std.specs.List.{before_last};
ghost use Rattle.robots_rules.specs.Lines.{is_line_end, is_blank, without_mark, used, trim_start, trim_end, without_blanks, uncommented, line_by, line_of, lines_in, is_word};
ghost use Rattle.robots_rules.specs.inner.LineView.{line_value};
ghost use Rattle.std.specs.Char.{to_ascii_lowercase};
ghost use Rattle.std.specs.Option.{option_map};

use std::alloc::{AllocError, Global};

/// How many bytes of a file are used, as section 2.5 asks of a parser at least.
const MAX_BYTES: usize = 512_000;

/// What a line says: a user agent of a group, or a rule.
#[derive(Clone, Copy)]
pub(crate) enum Line<'a> {
    Agent(&'a [u8]),
    Rule { allows: bool, pattern: &'a [u8] },
}

/// What the lines of a file say, one after another.
pub(crate) fn lines_in(alloc: Global, file: &[u8]) -> Result<Vec<Line<'_>>, AllocError>
    ensures { IfOk result (λ lines. map line_value lines.items ≡ lines_in file.now) }
{
    let mut lines = Vec::new(alloc);
    for text in used(file).split(|octet| is_line_end(*octet)) {
        if let Some(line) = line_of(text) {
            lines.push(line)?;
        }
    }
    Ok(lines)
}

/// The part of the file that is used: of a longer one what is before the last line end there.
pub(crate) fn used(file: &[u8]) -> &[u8]
    ensures { result.now ≡ used file.now }
{
    if file.len() <= MAX_BYTES {
        return without_mark(file);
    }
    let (head, _) = file.split_at(MAX_BYTES);
    without_last_line(without_mark(head))
}

fn without_last_line(text: &[u8]) -> &[u8]
    ensures { result.now ≡ before_last is_line_end text.now }
{
    let mut rest = text;
    while let [before @ .., octet] = rest {
        rest = before;
        if is_line_end(*octet) {
            break;
        }
    }
    rest
}

fn without_mark(text: &[u8]) -> &[u8]
    ensures { result.now ≡ without_mark text.now }
{
    match text {
        [0xef, 0xbb, 0xbf, rest @ ..] => rest,
        _ => text,
    }
}

pub(crate) fn is_line_end(octet: u8) -> bool
    ensures { result ≡ is_line_end octet }
{
    octet == b'\r' || octet == b'\n'
}

/// What the line says, or `None` if it says nothing.
#[tactic(auto, unfolding(crate::specs::Lines::line_of))]
pub(crate) fn line_of(text: &[u8]) -> Option<Line<'_>>
    ensures { option_map line_value result ≡ line_of text.now }
{
    let text = uncommented(text);
    match first_colon(text) {
        Some(colon) => line_by(trimmed(&text[..colon]), trimmed(&text[colon + 1..])),
        None => None,
    }
}

pub(crate) fn uncommented(text: &[u8]) -> &[u8]
    ensures { result.now ≡ uncommented text.now }
{
    match first_hash(text) {
        Some(comment) => &text[..comment],
        None => text,
    }
}

fn first_hash(text: &[u8]) -> Option<usize>
    ensures { result ≡ position (λ octet. octet == 35) text.now }
{
    text.iter().position(|octet| *octet == b'#')
}

pub(crate) fn first_colon(text: &[u8]) -> Option<usize>
    ensures { result ≡ position (λ octet. octet == 58) text.now }
{
    text.iter().position(|octet| *octet == b':')
}

#[tactic(auto, unfolding(crate::specs::Lines::line_by))]
fn line_by<'a>(key: &[u8], value: &'a [u8]) -> Option<Line<'a>>
    ensures { option_map line_value result ≡ line_by key.now value.now }
{
    if is_word(b"user-agent", key) {
        Some(Line::Agent(value))
    } else if is_word(b"allow", key) {
        Some(Line::Rule {
            allows: true,
            pattern: value,
        })
    } else if is_word(b"disallow", key) {
        Some(Line::Rule {
            allows: false,
            pattern: value,
        })
    } else {
        None
    }
}

/// Whether the text is the word, without regard to case.
pub(crate) fn is_word(word: &[u8], text: &[u8]) -> bool
    requires { map to_ascii_lowercase word.now ≡ word.now }
    ensures { result ≡ is_word word.now text.now }
{
    text.eq_ignore_ascii_case(word)
}

/// The text without the blanks at both ends.
pub(crate) fn trimmed(text: &[u8]) -> &[u8]
    ensures { result.now ≡ without_blanks text.now }
{
    trim_end(trim_start(text))
}

fn trim_start(text: &[u8]) -> &[u8]
    ensures { result.now ≡ trim_start text.now }
{
    let mut rest = text;
    while let [b' ' | b'\t', behind @ ..] = rest {
        rest = behind;
    }
    rest
}

fn trim_end(text: &[u8]) -> &[u8]
    ensures { result.now ≡ trim_end text.now }
{
    let mut rest = text;
    while let [before @ .., b' ' | b'\t'] = rest {
        rest = before;
    }
    rest
}

pub(crate) fn is_blank(octet: u8) -> bool
    ensures { result ≡ is_blank octet }
{
    octet == b' ' || octet == b'\t'
}
