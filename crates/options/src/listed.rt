//! What is read of words before they are known to be an order: the files that are read before a run, one whose addresses are starts
//! too and one of cookies, and whether nothing is to be printed.
ghost use Rattle.std.specs.Prelude.{◌≡◌, IfOk, map, option_map, string_bytes};
ghost use Rattle.options.specs.Listed.{are_quiet, cookie_file_in, cookie_file_of_words, is_on, last_said, list_in, list_of_words, list_said};
ghost use Rattle.options.specs.inner.Said.{saying_in};

use crate::said::{Saying, sayings};
use crate::written::value_in;
use std::alloc::{AllocError, Global};

/// A file whose addresses are starts.
#[derive(Drop)]
pub struct StartList {
    /// Its path; `-` is standard input.
    pub path: String,
    /// Whether it is HTML, of which the links are starts; else a line is one.
    pub is_html: bool,
    /// What its texts are relative to, as it is typed.
    pub base: Option<String>,
}

// The value that counts of what is said of an option.
fn last_said(alloc: Global, name: &str, said: &[Saying<&str>]) -> Result<Option<String>, AllocError>
    ensures { IfOk result (λ value. option_map string_bytes value ≡ last_said name.now (map saying_in said.now)) }
{
    value_in(alloc, name, false, said)
}

// Whether an option was put on last.
fn is_on(value: &Option<String>) -> bool
    ensures { result ≡ is_on (option_map string_bytes value.now) }
{
    match value {
        Some(value) => value.as_str() == "on",
        None => false,
    }
}

// The file of starts that is named, if one is.
fn list_in(alloc: Global, said: &[Saying<&str>]) -> Result<Option<StartList>, AllocError>
    ensures { IfOk result (λ list. option_map list_said list ≡ list_in (map saying_in said.now)) }
{
    let Some(path) = last_said(alloc, "input-file", said)? else {
        return Ok(None);
    };
    let html = last_said(alloc, "force-html", said)?;
    let base = last_said(alloc, "base", said)?;
    Ok(Some(StartList {
        path,
        is_html: is_on(&html),
        base,
    }))
}

/// The file of starts that words name, if they name one.
pub fn start_list(alloc: Global, words: &[&str]) -> Result<Option<StartList>, AllocError>
    ensures { IfOk result (λ list. option_map list_said list ≡ list_of_words (map (λ word. word.now) words.now)) }
{
    let said = sayings(alloc, words)?;
    list_in(alloc, said.as_slice())
}

// The cookie file that is named, unless no cookies are sent.
fn cookie_file_in(alloc: Global, said: &[Saying<&str>]) -> Result<Option<String>, AllocError>
    ensures { IfOk result (λ path. option_map string_bytes path ≡ cookie_file_in (map saying_in said.now)) }
{
    let none = last_said(alloc, "no-cookies", said)?;
    if is_on(&none) {
        return Ok(None);
    }
    last_said(alloc, "load-cookies", said)
}

/// The cookie file that words name, if they name one.
pub fn cookie_file(alloc: Global, words: &[&str]) -> Result<Option<String>, AllocError>
    ensures { IfOk result (λ path. option_map string_bytes path ≡ cookie_file_of_words (map (λ word. word.now) words.now)) }
{
    let said = sayings(alloc, words)?;
    cookie_file_in(alloc, said.as_slice())
}

/// Whether words say that nothing is to be printed, whatever else is wrong with them.
pub fn are_quiet(alloc: Global, words: &[&str]) -> Result<bool, AllocError>
    ensures { IfOk result (λ quiet. quiet ≡ are_quiet (map (λ word. word.now) words.now)) }
{
    let said = sayings(alloc, words)?;
    let quiet = last_said(alloc, "quiet", said.as_slice())?;
    Ok(is_on(&quiet))
}
