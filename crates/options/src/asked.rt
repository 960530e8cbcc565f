//! Words that request something instead of a retrieval: the help, or name and version.
ghost use Rattle.std.specs.Prelude.{◌≡◌, None};
ghost use Rattle.options.specs.Asked.{is_asking, wish_after, wish_fault, wish_in, wish_of, wish_of_form, wish_of_letter, without_kind};
ghost use Rattle.options.specs.inner.Said.{meaning_in};
ghost use Rattle.options.specs.declared.said.Letter.TheVariants.{Is};

use crate::fault::LineFault;
use crate::meant::{meant, without_dash};
use crate::said::{Letter, Meaning, letter_in};
use crate::table::option_rows;
use clap::error::ErrorKind;

/// What is requested.
#[derive(Clone, Copy)]
pub(crate) enum Wish {
    Help,
    Version,
}

/// Whether the kind is that of words that ask.
pub(crate) fn is_asking(kind: ErrorKind) -> bool
    ensures { result ≡ is_asking kind }
{
    match kind {
        ErrorKind::DisplayHelp | ErrorKind::DisplayVersion => true,
        _ => false,
    }
}

/// The fault of words that request this.
pub(crate) fn wish_fault(wish: Wish) -> LineFault
    ensures value { result ≡ wish_fault wish }
    ensures kept { without_kind result ≡ wish_fault wish }
{
    match wish {
        Wish::Help => LineFault::Words(ErrorKind::DisplayHelp),
        Wish::Version => LineFault::Words(ErrorKind::DisplayVersion),
    }
}

// What a long form requests.
fn wish_of_form(form: &str) -> Option<Wish>
    ensures { result ≡ wish_of_form form.now }
{
    if form == "--help" {
        return Some(Wish::Help);
    }
    if form == "--version" {
        return Some(Wish::Version);
    }
    None
}

// What the first of these letters requests.
fn wish_of_letter(letters: &str) -> Option<Wish>
    ensures { result ≡ wish_of_letter letters.now }
{
    if letters.as_bytes().starts_with(b"h") {
        return Some(Wish::Help);
    }
    if letters.as_bytes().starts_with(b"V") {
        return Some(Wish::Version);
    }
    None
}

// What letters request if the first one ends the word with this meaning.
fn wish_by(meaning: Meaning<&str>, letters: &str) -> Option<Wish>
    ensures { result ≡ wish_after letters.now (Is (meaning_in meaning.entry)) None }
{
    match meaning {
        Meaning::Unknown => wish_of_letter(letters),
        Meaning::Means(_, _) | Meaning::Waits(_) => None,
    }
}

// What the letters after a dash request: the first one that is no option's may request something.
fn wish_in(letters: &str) -> Option<Wish>
    ensures { result ≡ wish_in letters.entry.now }
{
    let mut letters = letters;
    while !letters.is_empty() {
        match letter_in(letters, option_rows()) {
            Letter::Goes(_name, _value, rest) => letters = rest,
            Letter::Is(meaning) => return wish_by(meaning, letters),
        }
    }
    None
}

/// What a word requests that isn't read, if anything.
#[tactic(auto, unfolding(crate::specs::Asked::wish_of))]
pub(crate) fn wish_of(word: &str) -> Option<Wish>
    ensures { result ≡ wish_of word.now }
{
    if let Some(wish) = wish_of_form(meant(word)) {
        return Some(wish);
    }
    match without_dash(word) {
        Some(letters) => wish_in(letters),
        None => None,
    }
}
