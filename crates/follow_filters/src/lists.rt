//! Lists of elements, which are between commas (GNU Wget manual, chapter Following Links).
ghost use Rattle.std.specs.Prelude.{◌≡◌, ◌<◌, ◌∷◌, [], length, MatchOption};
ghost use Rattle.std.specs.List.{slice_split};
ghost use Rattle.follow_filters.specs.Elements.{ReadsElement};
ghost use Rattle.follow_filters.specs.Lists.{is_comma, read_list};

use crate::directory::Directory;
use crate::domain::Domain;
use crate::elements::{ElementFault, Elements};
use crate::pattern::Pattern;
use std::alloc::Global;

/// An element that a list may have.
pub trait Element: Sized + Drop {
    ghost use Rattle.std.specs.Prelude.{List, ℕ, Option};
    ghost use Rattle.follow_filters.specs.Elements.{ReadsElement};

    ghost read_of: { List ℕ → Option Self };

    /// Reads an element; `Bad` if the text breaks the grammar of its kind.
    fn read(alloc: Global, text: &str) -> Result<Self, ElementFault>
        ensures { ReadsElement result (read_of text.now) };
}

impl Element for Pattern {
    ghost use Rattle.follow_filters.specs.Patterns.{read_element};

    ghost read_of = { read_element };

    fn read(alloc: Global, text: &str) -> Result<Pattern, ElementFault> {
        Pattern::read(alloc, text)
    }
}

impl Element for Directory {
    ghost use Rattle.follow_filters.specs.Directories.{read_directory};

    ghost read_of = { read_directory };

    fn read(alloc: Global, text: &str) -> Result<Directory, ElementFault> {
        Directory::read(alloc, text)
    }
}

impl Element for Domain {
    ghost use Rattle.follow_filters.specs.Domains.{read_domain};

    ghost read_of = { read_domain };

    fn read(alloc: Global, text: &str) -> Result<Domain, ElementFault> {
        Domain::read(alloc, text)
    }
}

// What is before the first comma, and what follows it, if there is one.
fn split_list(list: &str) -> (&str, Option<&str>)
    ensures { MatchOption result.1 (slice_split is_comma list.now ≡ result.0.now ∷ [])
        (λ rest. (slice_split is_comma list.now ≡ result.0.now ∷ slice_split is_comma rest.now) × (length rest.now < length list.now)) }
{
    match list.split_once(',') {
        Some((first, rest)) => (first, Some(rest)),
        None => (list, None),
    }
}

impl<T: Element> Elements<T> {
    /// Reads a list, such as `a,b`: its elements are between commas, and empty ones are dropped; `Bad` if one breaks
    /// the grammar of its kind.
    pub fn read(alloc: Global, list: &str) -> Result<Elements<T>, ElementFault>
        ensures { ReadsElement result (read_list T.read_of list.now) }
    {
        let mut items = Vec::new(alloc);
        let mut rest = list;
        loop {
            let (first, behind) = split_list(rest);
            if !first.is_empty() {
                match T::read(alloc, first) {
                    Ok(element) => items.push(element)?,
                    Err(fault) => return Err(fault),
                }
            }
            match behind {
                Some(behind) => rest = behind,
                None => return Ok(Elements::of(items)),
            }
        }
    }
}
