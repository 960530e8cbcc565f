//! What the bytes of a style sheet do in their places (CSS Syntax Level 3, section 4.3).
ghost use Rattle.std.specs.Prelude.{◌≡◌, ℕ, List, IfOk};
ghost use Rattle.css_links.specs.Bytes.{lower};
ghost use Rattle.css_links.specs.Escapes.{unescaped};
ghost use Rattle.css_links.specs.Places as places;
ghost use Rattle.css_links.specs.declared.place.Lead.TheVariants as lead;

use crate::bytes::{is_name, is_newline, is_quote, is_unfit, is_white};
use crate::escape::{has_escape, unescaped};
use crate::place::{Escape, Lead, Place, SheetPart, Turn};
use std::alloc::{AllocError, Global};

/// What a byte does in a place, after that text of a word, string or URL. Fails only if memory runs out.
pub(crate) fn turn(alloc: Global, place: Place, raw: &[u8], byte: u8) -> Result<Turn, AllocError>
    ensures { IfOk result (λ t. t ≡ places.turn place raw.now byte) }
{
    match place {
        Place::Between => Ok(between(byte)),
        Place::Slash => Ok(slash(byte)),
        Place::Comment => Ok(comment(byte)),
        Place::CommentStar => Ok(comment_star(byte)),
        Place::Import => Ok(import(byte)),
        Place::ImportSlash => Ok(import_slash(byte)),
        Place::ImportComment => Ok(import_comment(byte)),
        Place::ImportCommentStar => Ok(import_comment_star(byte)),
        Place::Inside(part) => inside(alloc, part, raw, byte),
        Place::Escaped(part, escape) => escaped(alloc, part, escape, raw, byte),
        Place::UrlBegun => Ok(url_begun(byte)),
        Place::UrlEnded => Ok(url_ended(byte)),
    }
}

// Whether the text is that word, in any case.
fn is_word(alloc: Global, word: &[u8], raw: &[u8]) -> Result<bool, AllocError>
    ensures { IfOk result (λ is. is ≡ places.is_word (lower word.now) raw.now) }
{
    if !has_escape(raw) {
        return Ok(raw.eq_ignore_ascii_case(word));
    }
    let text = unescaped(alloc, raw)?;
    Ok(text.eq_ignore_ascii_case(word))
}

fn between(byte: u8) -> Turn
    ensures { result ≡ places.between byte }
{
    if byte == b'/' {
        Turn::At(Place::Slash)
    } else if is_quote(byte) {
        Turn::Quote(byte)
    } else if byte == b'(' {
        Turn::Open(false)
    } else if byte == b')' {
        Turn::Close
    } else if byte == b'#' {
        Turn::Anew(Place::Inside(SheetPart::Word(Lead::Hash)))
    } else if byte == b'@' {
        Turn::Anew(Place::Inside(SheetPart::Word(Lead::At)))
    } else if byte == b'\\' {
        Turn::First(Place::Escaped(SheetPart::Word(Lead::Nothing), Escape::Begun))
    } else if is_name(byte) {
        Turn::First(Place::Inside(SheetPart::Word(Lead::Nothing)))
    } else {
        Turn::At(Place::Between)
    }
}

fn slash(byte: u8) -> Turn
    ensures { result ≡ places.slash byte }
{
    if byte == b'*' {
        Turn::At(Place::Comment)
    } else {
        between(byte)
    }
}

fn comment(byte: u8) -> Turn
    ensures { result ≡ places.comment byte }
{
    if byte == b'*' {
        Turn::At(Place::CommentStar)
    } else {
        Turn::At(Place::Comment)
    }
}

fn comment_star(byte: u8) -> Turn
    ensures { result ≡ places.comment_star byte }
{
    if byte == b'/' {
        Turn::At(Place::Between)
    } else {
        comment(byte)
    }
}

fn import(byte: u8) -> Turn
    ensures { result ≡ places.import byte }
{
    if is_white(byte) {
        Turn::At(Place::Import)
    } else if byte == b'/' {
        Turn::At(Place::ImportSlash)
    } else if is_quote(byte) {
        Turn::Anew(Place::Inside(SheetPart::Reference(byte)))
    } else {
        between(byte)
    }
}

fn import_slash(byte: u8) -> Turn
    ensures { result ≡ places.import_slash byte }
{
    if byte == b'*' {
        Turn::At(Place::ImportComment)
    } else {
        slash(byte)
    }
}

fn import_comment(byte: u8) -> Turn
    ensures { result ≡ places.import_comment byte }
{
    if byte == b'*' {
        Turn::At(Place::ImportCommentStar)
    } else {
        Turn::At(Place::ImportComment)
    }
}

fn import_comment_star(byte: u8) -> Turn
    ensures { result ≡ places.import_comment_star byte }
{
    if byte == b'/' {
        Turn::At(Place::Import)
    } else {
        import_comment(byte)
    }
}

fn inside(alloc: Global, part: SheetPart, raw: &[u8], byte: u8) -> Result<Turn, AllocError>
    ensures { IfOk result (λ t. t ≡ places.inside part raw.now byte) }
{
    match part {
        SheetPart::Word(lead) => word(alloc, lead, raw, byte),
        SheetPart::Reference(quote) => Ok(reference_string(quote, byte)),
        SheetPart::Other(quote) => Ok(other_string(quote, byte)),
        SheetPart::Bare => Ok(bare(byte)),
        SheetPart::Bad => Ok(bad(byte)),
    }
}

fn word(alloc: Global, lead: Lead, raw: &[u8], byte: u8) -> Result<Turn, AllocError>
    ensures { IfOk result (λ t. t ≡ places.word lead raw.now byte) }
{
    if is_name(byte) {
        return Ok(Turn::With(Place::Inside(SheetPart::Word(lead))));
    }
    if byte == b'\\' {
        return Ok(Turn::With(Place::Escaped(SheetPart::Word(lead), Escape::Begun)));
    }
    behind_word(alloc, lead, raw, byte)
}

fn behind_word(alloc: Global, lead: Lead, raw: &[u8], byte: u8) -> Result<Turn, AllocError>
    ensures { IfOk result (λ t. t ≡ places.behind_word lead raw.now byte) }
{
    match lead {
        Lead::Nothing => behind_name(alloc, raw, byte),
        Lead::Hash => Ok(between(byte)),
        Lead::At => behind_at(alloc, raw, byte),
    }
}

fn behind_name(alloc: Global, raw: &[u8], byte: u8) -> Result<Turn, AllocError>
    ensures { IfOk result (λ t. t ≡ places.behind_word lead.Nothing raw.now byte) }
{
    if byte != b'(' {
        return Ok(between(byte));
    }
    function(alloc, raw)
}

// After the name of a function and `(`.
fn function(alloc: Global, raw: &[u8]) -> Result<Turn, AllocError>
    ensures { IfOk result (λ t. t ≡ places.function raw.now) }
{
    if !has_escape(raw) {
        return Ok(named_function(raw));
    }
    let name = unescaped(alloc, raw)?;
    Ok(named_function(&name))
}

// After the name of a function, in which escapes were replaced, and `(`.
fn named_function(name: &[u8]) -> Turn
    ensures { (raw : List ℕ) → name.now ≡ unescaped raw → result ≡ places.function raw }
{
    if name.eq_ignore_ascii_case(b"url") {
        return Turn::Anew(Place::UrlBegun);
    }
    Turn::Open(is_set(name))
}

// Whether it is the name of the function of an image set.
fn is_set(name: &[u8]) -> bool
    ensures { (raw : List ℕ) → name.now ≡ unescaped raw → result ≡ places.is_set raw }
{
    name.eq_ignore_ascii_case(b"image-set") || name.eq_ignore_ascii_case(b"-webkit-image-set")
}

fn behind_at(alloc: Global, raw: &[u8], byte: u8) -> Result<Turn, AllocError>
    ensures { IfOk result (λ t. t ≡ places.behind_word lead.At raw.now byte) }
{
    if is_word(alloc, b"import", raw)? {
        return Ok(import(byte));
    }
    Ok(between(byte))
}

fn reference_string(quote: u8, byte: u8) -> Turn
    ensures { result ≡ places.reference_string quote byte }
{
    if byte == quote {
        Turn::Refer
    } else if is_newline(byte) {
        Turn::At(Place::Between)
    } else if byte == b'\\' {
        Turn::With(Place::Escaped(SheetPart::Reference(quote), Escape::Begun))
    } else {
        Turn::With(Place::Inside(SheetPart::Reference(quote)))
    }
}

fn other_string(quote: u8, byte: u8) -> Turn
    ensures { result ≡ places.other_string quote byte }
{
    if byte == quote || is_newline(byte) {
        Turn::At(Place::Between)
    } else if byte == b'\\' {
        Turn::At(Place::Escaped(SheetPart::Other(quote), Escape::Begun))
    } else {
        Turn::At(Place::Inside(SheetPart::Other(quote)))
    }
}

fn bare(byte: u8) -> Turn
    ensures { result ≡ places.bare byte }
{
    if byte == b')' {
        Turn::Refer
    } else if is_white(byte) {
        Turn::At(Place::UrlEnded)
    } else if byte == b'\\' {
        Turn::With(Place::Escaped(SheetPart::Bare, Escape::Begun))
    } else if is_unfit(byte) {
        Turn::At(Place::Inside(SheetPart::Bad))
    } else {
        Turn::With(Place::Inside(SheetPart::Bare))
    }
}

fn bad(byte: u8) -> Turn
    ensures { result ≡ places.bad byte }
{
    if byte == b')' {
        Turn::At(Place::Between)
    } else if byte == b'\\' {
        Turn::At(Place::Escaped(SheetPart::Bad, Escape::Begun))
    } else {
        Turn::At(Place::Inside(SheetPart::Bad))
    }
}

fn url_begun(byte: u8) -> Turn
    ensures { result ≡ places.url_begun byte }
{
    if is_white(byte) {
        Turn::At(Place::UrlBegun)
    } else if is_quote(byte) {
        Turn::UrlQuote(byte)
    } else {
        bare(byte)
    }
}

fn url_ended(byte: u8) -> Turn
    ensures { result ≡ places.url_ended byte }
{
    if is_white(byte) {
        Turn::At(Place::UrlEnded)
    } else if byte == b')' {
        Turn::Refer
    } else {
        bad(byte)
    }
}

// Goes to a place, with the byte put to the part's text, if that is kept.
fn put(part: SheetPart, place: Place) -> Turn
    ensures { result ≡ places.put part place }
{
    match part {
        SheetPart::Word(_) => Turn::With(place),
        SheetPart::Reference(_) => Turn::With(place),
        SheetPart::Other(_) => Turn::At(place),
        SheetPart::Bare => Turn::With(place),
        SheetPart::Bad => Turn::At(place),
    }
}

fn continued(part: SheetPart, byte: u8) -> Turn
    ensures { result ≡ places.continued part byte }
{
    if byte == b'\r' {
        put(part, Place::Escaped(part, Escape::Return))
    } else {
        put(part, Place::Inside(part))
    }
}

fn broken(part: SheetPart, byte: u8) -> Turn
    ensures { result ≡ places.broken part byte }
{
    match part {
        SheetPart::Word(_) => Turn::At(Place::Between),
        SheetPart::Reference(quote) => continued(SheetPart::Reference(quote), byte),
        SheetPart::Other(quote) => continued(SheetPart::Other(quote), byte),
        SheetPart::Bare => Turn::At(Place::Inside(SheetPart::Bad)),
        SheetPart::Bad => Turn::At(Place::Inside(SheetPart::Bad)),
    }
}

fn escaped(
    alloc: Global,
    part: SheetPart,
    escape: Escape,
    raw: &[u8],
    byte: u8,
) -> Result<Turn, AllocError>
    ensures { IfOk result (λ t. t ≡ places.escaped part escape raw.now byte) }
{
    match escape {
        Escape::Begun => Ok(escape_begun(part, byte)),
        Escape::Digits(count) => escape_digits(alloc, part, count, raw, byte),
        Escape::Return => escape_return(alloc, part, raw, byte),
    }
}

fn escape_begun(part: SheetPart, byte: u8) -> Turn
    ensures { result ≡ places.escape_begun part byte }
{
    if is_newline(byte) {
        broken(part, byte)
    } else if byte.is_ascii_hexdigit() {
        put(part, Place::Escaped(part, Escape::Digits(1)))
    } else {
        put(part, Place::Inside(part))
    }
}

fn escape_digits(
    alloc: Global,
    part: SheetPart,
    count: u8,
    raw: &[u8],
    byte: u8,
) -> Result<Turn, AllocError>
    ensures { IfOk result (λ t. t ≡ places.escape_digits part count raw.now byte) }
{
    if count < 6 && byte.is_ascii_hexdigit() {
        return Ok(put(part, Place::Escaped(part, Escape::Digits(count + 1))));
    }
    if byte == b'\r' {
        return Ok(put(part, Place::Escaped(part, Escape::Return)));
    }
    if is_white(byte) {
        return Ok(put(part, Place::Inside(part)));
    }
    inside(alloc, part, raw, byte)
}

fn escape_return(alloc: Global, part: SheetPart, raw: &[u8], byte: u8) -> Result<Turn, AllocError>
    ensures { IfOk result (λ t. t ≡ places.escape_return part raw.now byte) }
{
    if byte == b'\n' {
        return Ok(put(part, Place::Inside(part)));
    }
    inside(alloc, part, raw, byte)
}
