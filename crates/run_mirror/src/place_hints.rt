//! Guesses of where addresses are in a list.
ghost use Rattle.std.specs.Prelude.{◌≡◌, ◌<◌, [], IfSome, length, slice_index_or, true};

use address::Address;
use std::alloc::{AllocError, Global};
use std::hash::{DefaultHasher, Hash, Hasher};

/// How many slots are looked at for an address. One that has no slot among them is searched for.
const PROBES: usize = 8;

/// Where the addresses of a list may be in it, by hashes of their texts. Each guess is compared with the list before it counts, so nothing is
/// said of them: without a good one there is a search, which takes a page of the list's memory for each of its steps.
#[derive(Drop)]
pub(crate) struct PlaceHints {
    // Places, counted from 1; 0 is none.
    slots: Vec<u32>,
}

// The number of a text's first slot, not yet within their count.
fn first_slot(address: &Address) -> usize {
    let mut hasher = DefaultHasher::new();
    address.hash(&mut hasher);
    hasher.finish() as usize
}

// Whether an address is at a place of a list.
fn is_at(list: &[Address], place: usize, address: &Address) -> bool
    ensures place { result ≡ true → place < length list.now }
    ensures address { result ≡ true → slice_index_or list.now place [] ≡ address.now }
{
    match list.get(place) {
        Some(there) => *there == *address,
        None => false,
    }
}

impl PlaceHints {
    /// Those of the addresses of a list, which take 8 bytes each.
    pub(crate) fn of(alloc: Global, list: &[Address]) -> Result<PlaceHints, AllocError> {
        let mut slots = Vec::new(alloc);
        let count = list.len().saturating_mul(2);
        slots.resize(count, 0)?;
        let mut hints = PlaceHints { slots };
        for (place, address) in list.iter().enumerate() {
            hints.put(address, place);
        }
        Ok(hints)
    }

    // The number of a slot, so many after the first one of an address.
    fn slot(&self, first: usize, step: usize) -> Option<usize> {
        first.wrapping_add(step).checked_rem(self.slots.len())
    }

    // Keeps the place of an address, if one of its slots is free.
    fn put(&mut self, address: &Address, place: usize) {
        let Ok(mark) = u32::try_from(place.saturating_add(1)) else {
            return;
        };
        let first = first_slot(address);
        for step in 0..PROBES {
            let Some(slot) = self.slot(first, step) else {
                return;
            };
            match self.slots.get_mut(slot) {
                Some(free) if *free == 0 => {
                    *free = mark;
                    return;
                }
                _ => {}
            }
        }
    }

    // The place that is kept in a slot, if there is one.
    fn guess(&self, first: usize, step: usize) -> Option<usize> {
        let slot = self.slot(first, step)?;
        let mark = self.slots.get(slot)?;
        (*mark as usize).checked_sub(1)
    }

    /// The place of an address in the list, if it is guessed.
    pub(crate) fn place(&self, list: &[Address], address: &Address) -> Option<usize>
        ensures place { IfSome result (λ place. place < length list.now) }
        ensures address { IfSome result (λ place. slice_index_or list.now place [] ≡ address.now) }
    {
        let first = first_slot(address);
        for step in 0..PROBES {
            let place = self.guess(first, step)?;
            if is_at(list, place, address) {
                return Some(place);
            }
        }
        None
    }
}
