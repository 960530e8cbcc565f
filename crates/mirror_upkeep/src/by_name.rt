//! Entries by the names of their files.
ghost use Rattle.std.specs.Prelude.{◌≡◌, ◌↔◌, IfOk, IsTrue, MatchBool, OnOk, length, map};
ghost use Rattle.std.specs.List.Sorted.{IsPermutation, IsSortedBy};
ghost use Rattle.mirror_upkeep.specs.ByName.{AreByName, IsAnothers};
ghost use Rattle.mirror_upkeep.specs.inner.NamedPlaces.{AreBefore, AreNamed, NamedAt, is_before, is_named_before};

use address::Address;
use mirror_index::Entry;
use std::alloc::{AllocError, Global};

// The names of entries, each with its place.
fn named_places(alloc: Global, entries: &[Entry]) -> Result<Vec<(&str, usize)>, AllocError>
    ensures { IfOk result (λ named. AreNamed entries.now named.items (length entries.now)) }
{
    let mut named = Vec::new(alloc);
    for (place, entry) in entries.iter().enumerate() {
        named.push((entry.name(), place))?;
    }
    Ok(named)
}

// Sorts places by names.
fn sort_by_name(named: &mut Vec<(&str, usize)>) -> Result<(), AllocError>
    ensures sorted { OnOk result (IsSortedBy is_named_before named.new.items) }
    ensures same { IsPermutation named.old.items named.new.items }
{
    named.sort_by(|one, other| one.0.cmp(other.0))
}

// The places alone.
fn places_of(alloc: Global, named: &[(&str, usize)]) -> Result<Vec<usize>, AllocError>
    ensures { IfOk result (λ places. places.items ≡ map (λ n. n.1) named.now) }
{
    named.iter().map(|one| one.1).collect(alloc)
}

/// The places of entries, in the order of their names. Fails only if memory runs out.
pub fn places_by_name(alloc: Global, entries: &[Entry]) -> Result<Vec<usize>, AllocError>
    ensures { IfOk result (λ places. AreByName entries.now places.items) }
{
    let mut named = named_places(alloc, entries)?;
    sort_by_name(&mut named)?;
    places_of(alloc, named.as_slice())
}

// Whether the name of the entry at a place is before this one.
fn is_before(entries: &[Entry], place: usize, name: &str) -> bool
    ensures { result ≡ is_before entries.now name.now place }
{
    if place >= entries.len() {
        return false;
    }
    entries[place].name().cmp(name).is_lt()
}

// Whether the entry at a place has this name.
fn is_named(entries: &[Entry], place: usize, name: &str) -> bool
    ensures { MatchBool result (NamedAt entries.now place name.now) (¬ NamedAt entries.now place name.now) }
{
    place < entries.len() && entries[place].name() == name
}

// Whether one of these entries, of which these places are in the order of names, has this name and another address; so it is known of
// the first ones of these places.
fn is_anothers_from(
    entries: &[Entry],
    by_name: &[usize],
    first: usize,
    name: &str,
    at: &Address,
) -> bool
    ensures { AreByName entries.now by_name.now → AreBefore entries.now by_name.now name.now first → IsTrue result ↔ IsAnothers entries.now name.now at.now }
{
    for k in first..by_name.len() {
        let place = by_name[k];
        if !is_named(entries, place, name) {
            return false;
        }
        if entries[place].address() != at {
            return true;
        }
    }
    false
}

/// Whether one of these entries, of which these places are in the order of names, has this name and another address.
pub fn is_anothers(entries: &[Entry], by_name: &[usize], name: &str, at: &Address) -> bool
    ensures { AreByName entries.now by_name.now → IsTrue result ↔ IsAnothers entries.now name.now at.now }
{
    let first = by_name.partition_point(
        |place: &usize| -> bool
            ensures { result ≡ is_before entries.entry.now name.entry.now place.now }
        { is_before(entries, *place, name) },
    );
    is_anothers_from(entries, by_name, first, name, at)
}
