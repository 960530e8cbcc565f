//! Directories (GNU Wget manual, section Directory-Based Limits).
ghost use Rattle.std.specs.Prelude.{◌≡◌, ◌<◌, ◌∷◌, [], length, Some, IfOk, is_some, MatchOption, MatchResult};
ghost use Rattle.std.specs.String.{string_bytes};
ghost use Rattle.follow_filters.specs.Elements.{IsFaultOf};
ghost use Rattle.follow_filters.specs.Directories.{begins_with_names, is_rooted, names_in, read_names, rooted, without_closing_slashes};

use crate::elements::ElementFault;
use crate::parts::Parts;
use crate::spelling::is_spelled;
use std::alloc::{AllocError, Global};
use std::marker::Model;

/// A directory, such as `/a/b`, or a pattern of directories, such as `/*/b`: it has those directories
/// and the ones below them. `*`, `?` and classes match no slash.
#[derive(Drop)]
pub struct Directory {
    text: String,
    names: Vec<Parts>,
}

// Contracts see a directory as its text, without closing slashes; its names are what the text spells.
impl Model for Directory {
    ghost use Rattle.std.specs.Prelude.{◌≡◌, List, ℕ, Some};
    ghost use Rattle.std.specs.String.{string_bytes};
    ghost use Rattle.follow_filters.specs.Directories.{read_names};

    ghost Value = { List ℕ };

    ghost view = { λ d. string_bytes d.text };

    ghost invariant = { λ d. read_names (string_bytes d.text) ≡ Some d.names.items };
}

impl Directory {
    ghost use Rattle.std.specs.Prelude.{◌≡◌, IfOk, Err, None};
    ghost use Rattle.follow_filters.specs.Elements.{ReadsElement};
    ghost use Rattle.follow_filters.specs.Directories.{is_in_directory, read_directory};

    /// Reads a directory. A slash that is missing in front is put there, and the slashes at its end are
    /// taken off. A class that is empty, unclosed, has a slash in it or a range with its greater byte
    /// first is `Bad`, and nothing else.
    pub fn read(alloc: Global, text: &str) -> Result<Directory, ElementFault>
        ensures reads { ReadsElement result (read_directory text.now) }
        ensures refuses { read_directory text.now ≡ None → result ≡ Err ElementFault.Bad }
    {
        let bare = without_closing_slashes(text);
        if !are_spelled(bare) {
            return Err(ElementFault::Bad);
        }
        let text = rooted(alloc, bare)?;
        let names = read_names(alloc, text.as_str())?;
        Ok(Directory { text, names })
    }

    /// Whether this has the directory `dir`, such as `/a/b/`, or one above it; if `ignores_case`, letters
    /// of ASCII match in either case. Takes no memory, and time linear in `dir`.
    pub fn has(&self, dir: &str, ignores_case: bool) -> bool
        ensures { result ≡ is_in_directory ignores_case self.now dir.now }
    {
        begins_with_names(self.names.as_slice(), dir, ignores_case)
    }

    /// The directory as it was read, with its leading slash and without its closing slashes. Takes no
    /// memory.
    pub fn as_str(&self) -> &str
        ensures { result.now ≡ self.now }
    {
        self.text.as_str()
    }

    // An equal directory.
    pub(crate) fn try_clone(&self) -> Result<Directory, AllocError>
        ensures { IfOk result (λ copy. copy ≡ self.now) }
    {
        let text = self.text.clone()?;
        match read_names(*self.text.allocator(), self.as_str()) {
            Ok(names) => Ok(Directory { text, names }),
            Err(_) => Err(AllocError),
        }
    }
}

// Whether the names match the first of a directory one by one, and more follow.
fn begins_with_names(names: &[Parts], dir: &str, ignores_case: bool) -> bool
    ensures { result ≡ begins_with_names ignores_case names.now (names_in dir.now) }
{
    let mut rest = dir;
    for name in names {
        let (first, behind) = split_name(rest);
        let Some(behind) = behind else {
            return false;
        };
        if !name.matches(first.as_bytes(), ignores_case) {
            return false;
        }
        rest = behind;
    }
    true
}

// What is before the first slash, and what is after it, if there is one.
fn split_name(text: &str) -> (&str, Option<&str>)
    ensures { MatchOption result.1 (names_in text.now ≡ result.0.now ∷ [])
        (λ rest. (names_in text.now ≡ result.0.now ∷ names_in rest.now) × (length rest.now < length text.now)) }
{
    match text.split_once('/') {
        Some((first, rest)) => (first, Some(rest)),
        None => (text, None),
    }
}

// Whether the names of a directory spell parts.
fn are_spelled(text: &str) -> bool
    ensures { result ≡ is_some (read_names text.now) }
{
    let mut rest = text;
    loop {
        let (first, behind) = split_name(rest);
        if !is_spelled(first.as_bytes()) {
            return false;
        }
        match behind {
            Some(behind) => rest = behind,
            None => return true,
        }
    }
}

// The names that a directory spells.
fn read_names(alloc: Global, text: &str) -> Result<Vec<Parts>, ElementFault>
    ensures { MatchResult result (λ v. read_names text.now ≡ Some v.items) (IsFaultOf (read_names text.now)) }
{
    let mut names = Vec::new(alloc);
    let mut rest = text;
    loop {
        let (first, behind) = split_name(rest);
        let name = Parts::spelled(alloc, first.as_bytes())?;
        names.push(name)?;
        match behind {
            Some(behind) => rest = behind,
            None => return Ok(names),
        }
    }
}

fn is_rooted(text: &[u8]) -> bool
    ensures { result ≡ is_rooted text.now }
{
    text.is_empty() || text.starts_with(b"/")
}

// The text with the slash that it may lack in front.
#[tactic(auto, unfolding(crate::specs::Directories::rooted))]
fn rooted(alloc: Global, text: &str) -> Result<String, AllocError>
    ensures { IfOk result (λ whole. string_bytes whole ≡ rooted text.now) }
{
    if is_rooted(text.as_bytes()) {
        return Ok(String::from_str(alloc, text)?);
    }
    let mut whole = String::from_str(alloc, "/")?;
    whole.push_str(text)?;
    Ok(whole)
}

// The text without the slashes at its end.
fn without_closing_slashes(text: &str) -> &str
    ensures { result.now ≡ without_closing_slashes text.now }
{
    let mut bare = text;
    while let Some(front) = bare.strip_suffix('/') {
        bare = front;
    }
    bare
}
