//! Names of files in order, and which of them are below others.
ghost use Rattle.std.specs.Prelude.{◌≡◌, ◌++◌, ◌∷◌, [], IfOk, map, string_bytes, take};
ghost use Rattle.std.specs.List.{list_any};
ghost use Rattle.std.specs.List.Sorted.{IsPermutation, IsSorted};
ghost use Rattle.local_names.specs.PlainNames.{slash};
ghost use Rattle.mirror_index.specs.Entries.{Text};
ghost use Rattle.mirror_upkeep.specs.Joined.{names};
ghost use Rattle.mirror_upkeep.specs.Names.{has_name, is_directory_of};
ghost use Rattle.mirror_upkeep.specs.inner.Lent.{front_order, lent_text, text_cmp};

use mirror_index::Entry;
use std::alloc::{AllocError, Global};
use std::cmp::Ordering;

/// These names in order.
pub(crate) fn in_order(alloc: Global, names: &[String]) -> Result<Vec<&[u8]>, AllocError>
    ensures sorted { IfOk result (λ sorted. IsSorted text_cmp sorted.items) }
    ensures same { IfOk result (λ sorted. IsPermutation (map string_bytes names.now) (map lent_text sorted.items)) }
{
    let mut sorted = Vec::new(alloc);
    let mut rest = names;
    'names: while let Some((name, later)) = rest.split_first() {
        sorted.push(name.as_bytes())?;
        rest = later;
    }
    sorted.sort()?;
    Ok(sorted)
}

/// The names of entries, in order.
pub(crate) fn entry_names(alloc: Global, entries: &[Entry]) -> Result<Vec<&[u8]>, AllocError>
    ensures sorted { IfOk result (λ sorted. IsSorted text_cmp sorted.items) }
    ensures same { IfOk result (λ sorted. IsPermutation (names entries.now) (map lent_text sorted.items)) }
{
    let mut sorted = Vec::new(alloc);
    let mut rest = entries;
    'entries: while let Some((entry, later)) = rest.split_first() {
        sorted.push(entry.name().as_bytes())?;
        rest = later;
    }
    sorted.sort()?;
    Ok(sorted)
}

/// Whether one of these names, which are in order, is this one.
pub(crate) fn is_among(names: &[&[u8]], name: &[u8]) -> bool
    requires { IsSorted text_cmp names.now }
    ensures { result ≡ has_name (map lent_text names.now) name.now }
{
    names.binary_search(&name).is_ok()
}

// The first bytes of a name: as many as `len`, if it has them.
fn front_of(name: &[u8], len: usize) -> &[u8]
    ensures { result.now ≡ take len name.now }
{
    &name[..len.min(name.len())]
}

// Whether one of these names, which are in order, is below a directory, whose name with a slash is given.
fn has_front(names: &[&[u8]], front: &[u8]) -> bool
    requires { IsSorted text_cmp names.now }
    ensures { (name : Text) → front.now ≡ name ++ slash ∷ [] → result ≡ list_any (λ other. is_directory_of other name) (map lent_text names.now) }
{
    let place = names.binary_search_by(
        |other: &&[u8]| -> Ordering
            ensures { result ≡ front_order front.entry.now other.now }
        { front_of(other, front.len()).cmp(front) },
    );
    place.is_ok()
}

/// Whether one of these names, which are in order, is below a directory of this name.
pub(crate) fn has_below(alloc: Global, names: &[&[u8]], name: &str) -> Result<bool, AllocError>
    requires { IsSorted text_cmp names.now }
    ensures { IfOk result (λ has. has ≡ list_any (λ other. is_directory_of other name.now) (map lent_text names.now)) }
{
    let front = format!(in alloc; "{name}/")?;
    Ok(has_front(names, front.as_bytes()))
}

/// Whether a directory of this name is one of these, which are in order.
pub(crate) fn is_below(names: &[&[u8]], name: &[u8]) -> bool
    requires { IsSorted text_cmp names.now }
    ensures { result ≡ list_any (is_directory_of name.now) (map lent_text names.now) }
{
    for i in 0..name.len() {
        if name[i] == b'/' && is_among(names, &name[..i]) {
            return true;
        }
    }
    false
}
