//! How the file that words name is read, and words with its starts before them.
ghost use Rattle.std.specs.Prelude.{◌≡◌, ◌⊎◌, ◌++◌, ◌∷◌, Err, IfOk, MatchResult, Ok, OnOk, drop, map, option_map, string_bytes};
ghost use Rattle.options.specs.Listed.{list_said};
ghost use Rattle.options.specs.Order.{AnswersWords};
ghost use Rattle.start_lists.specs.Words.{base_by, file_of, file_read, has_input, is_input, stand_in};
ghost use Rattle.start_lists.specs.declared.fault.ListFault.TheVariants as fault;

use crate::fault::ListFault;
use crate::resolved::resolved;
use address::Address;
use options::{LineFault, Order, Source, StartList, read_order, with_scheme};
use std::alloc::{AllocError, Global};

// A start that takes the place of those of a file that isn't read yet.
const STAND_IN: &str = "http://localhost/";

/// A file of starts, and how it is read.
#[derive(Drop)]
pub struct FileOfStarts {
    /// Its path; `-` is standard input.
    pub path: String,
    /// Whether it is HTML, of which the links are starts; else a line is one.
    pub is_html: bool,
    /// What its texts are relative to.
    pub base: Option<Address>,
    /// Whether https is an address, too.
    pub by_proxy: bool,
}

// What a file's texts are relative to, if that is said.
fn base_by(
    alloc: Global,
    by_proxy: bool,
    base: &Option<String>,
) -> Result<Option<Address>, ListFault>
    ensures { MatchResult result
        (λ found. base_by by_proxy (option_map string_bytes base.now) ≡ Ok found)
        (λ wrong. (base_by by_proxy (option_map string_bytes base.now) ≡ Err wrong) ⊎ (wrong ≡ fault.Memory)) }
{
    let Some(text) = base else {
        return Ok(None);
    };
    let full = with_scheme(alloc, text.as_str())?;
    let found = resolved(alloc, by_proxy, None, full.as_str());
    drop(full);
    match found? {
        Some(base) => Ok(Some(base)),
        None => Err(ListFault::Base),
    }
}

// Whether standard input has the site.
fn has_input(source: Source) -> bool
    ensures { result ≡ has_input source }
{
    match source {
        Source::Live => false,
        Source::Map | Source::Recorded => true,
    }
}

/// How the file of starts that is said is read, by where the site is and whether there is a proxy. The error is that its base is no
/// address, that standard input is to be both the file and the site, or that memory ran out.
pub fn file_of(
    alloc: Global,
    said: StartList,
    source: Source,
    by_proxy: bool,
) -> Result<FileOfStarts, ListFault>
    ensures { MatchResult result
        (λ file. file_of (list_said said) source by_proxy ≡ Ok (file_read file))
        (λ wrong. (file_of (list_said said) source by_proxy ≡ Err wrong) ⊎ (wrong ≡ fault.Memory)) }
{
    if said.path.as_str() == "-" && has_input(source) {
        drop(said);
        return Err(ListFault::Input);
    }
    let base = match base_by(alloc, by_proxy, &said.base) {
        Ok(base) => base,
        Err(fault) => {
            drop(said);
            return Err(fault);
        }
    };
    let StartList {
        path,
        is_html,
        base: _typed,
    } = said;
    Ok(FileOfStarts {
        path,
        is_html,
        base,
        by_proxy,
    })
}

// A start that takes the place of those of a file, and these words, as texts.
fn texts_without<'a>(alloc: Global, words: &[&'a str]) -> Result<Vec<&'a str>, AllocError>
    ensures { IfOk result (λ all. map (λ text. text.now) all.items ≡ stand_in ∷ map (λ word. word.now) words.now) }
{
    let mut all = Vec::new(alloc);
    all.push(STAND_IN)?;
    all.extend_from_slice(words)?;
    Ok(all)
}

/// What words order with a start that takes the place of those of a file.
pub fn order_without(alloc: Global, words: &[&str]) -> Result<Order, LineFault>
    ensures { AnswersWords (stand_in ∷ map (λ word. word.now) words.now) result }
{
    match texts_without(alloc, words) {
        Ok(all) => read_order(alloc, all.as_slice()),
        Err(_) => Err(LineFault::Memory),
    }
}

// These starts and words as texts.
fn texts_with<'a>(
    alloc: Global,
    starts: &'a [Address],
    words: &[&'a str],
) -> Result<Vec<&'a str>, AllocError>
    ensures { IfOk result (λ all. map (λ text. text.now) all.items ≡ starts.now ++ map (λ word. word.now) words.now) }
{
    let mut all = Vec::new(alloc);
    for start in starts {
        all.push(start.as_str())?;
    }
    all.extend_from_slice(words)?;
    Ok(all)
}

/// What words order with these starts before them.
pub fn order_with(alloc: Global, starts: &[Address], words: &[&str]) -> Result<Order, LineFault>
    ensures { AnswersWords (starts.now ++ map (λ word. word.now) words.now) result }
{
    match texts_with(alloc, starts, words) {
        Ok(all) => read_order(alloc, all.as_slice()),
        Err(_) => Err(LineFault::Memory),
    }
}

// The program's name, which a system may leave out.
fn name_of(all: &[String]) -> &str {
    match all {
        [name, ..] => name.as_str(),
        [] => "",
    }
}

// What follows the program's name.
fn after_name(all: &[String]) -> &[String]
    ensures { result.now ≡ drop 1 all.now }
{
    match all {
        [_, words @ ..] => words,
        [] => all,
    }
}

// Adds starts as words.
fn push_starts(alloc: Global, all: &mut Vec<String>, starts: &[Address]) -> Result<(), AllocError>
    ensures { OnOk result (map string_bytes all.new.items ≡ map string_bytes all.old.items ++ starts.now) }
{
    for start in starts {
        all.push(String::from_str(alloc, start.as_str())?)?;
    }
    Ok(())
}

// Adds copies of these words.
fn push_copies(alloc: Global, all: &mut Vec<String>, words: &[String]) -> Result<(), AllocError>
    ensures { OnOk result (map string_bytes all.new.items ≡ map string_bytes all.old.items ++ map string_bytes words.now) }
{
    for word in words {
        all.push(String::from_str(alloc, word.as_str())?)?;
    }
    Ok(())
}

/// These arguments of the program, its name first, with these starts before the words.
pub fn before(
    alloc: Global,
    starts: &[Address],
    given: &[String],
) -> Result<Vec<String>, AllocError>
    ensures { IfOk result (λ all. map string_bytes (drop 1 all.items) ≡ starts.now ++ map string_bytes (drop 1 given.now)) }
{
    let mut all = Vec::new(alloc);
    all.push(String::from_str(alloc, name_of(given))?)?;
    push_starts(alloc, &mut all, starts)?;
    push_copies(alloc, &mut all, after_name(given))?;
    Ok(all)
}
