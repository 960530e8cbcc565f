//! A first order of named things, by a few bytes of each name: a comparison of two texts mostly waits for memory, one of two
//! numbers doesn't. A sort comes after it, which finds little to do; so nothing is said of the order here.
ghost use Rattle.std.specs.Prelude.{◌≡◌, IsPermutation};

use crate::named::Named;
use std::alloc::{AllocError, Global};
use std::cmp::Ordering;

// Sixteen bytes of a name, and the place of what it names.
#[derive(Clone, Copy)]
struct NamePrefix {
    first: u64,
    second: u64,
    place: usize,
}

// With how many bytes both begin alike, of so many.
fn alike(name: &[u8], other: &[u8], most: usize) -> usize {
    let most = most.min(name.len()).min(other.len());
    for k in 0..most {
        if name[k] != other[k] {
            return k;
        }
    }
    most
}

// With how many bytes all names begin alike.
fn shared_len<T: Named>(things: &[T]) -> usize {
    let Some((first, others)) = things.split_first() else {
        return 0;
    };
    let name = first.name();
    let mut len = name.len();
    for other in others {
        len = alike(name.as_bytes(), other.name().as_bytes(), len);
    }
    len
}

// Eight bytes from a place on, as a number that is the greater the later they are in order; zeros are after the last byte.
fn word_at(bytes: &[u8], from: usize) -> u64 {
    let mut word = 0u64;
    for k in 0..8 {
        let byte = match bytes.get(from.saturating_add(k)) {
            Some(byte) => *byte,
            None => 0,
        };
        word = (word << 8) | byte as u64;
    }
    word
}

// The mark of each thing, whose names all begin with so many bytes alike.
fn marks_of<T: Named>(
    alloc: Global,
    things: &[T],
    from: usize,
) -> Result<Vec<NamePrefix>, AllocError> {
    let mut marks = Vec::with_capacity(alloc, things.len())?;
    for thing in things {
        let bytes = thing.name().as_bytes();
        let place = marks.len();
        marks.push(NamePrefix {
            first: word_at(bytes, from),
            second: word_at(bytes, from.saturating_add(8)),
            place,
        })?;
    }
    Ok(marks)
}

// The name of the thing at a place.
fn name_at<T: Named>(things: &[T], place: usize) -> &str {
    match things.get(place) {
        Some(thing) => thing.name(),
        None => "",
    }
}

// How two marks compare; the names, if the marks are equal.
fn compare<T: Named>(things: &[T], mark: &NamePrefix, other: &NamePrefix) -> Ordering {
    if mark.first != other.first {
        return mark.first.cmp(&other.first);
    }
    if mark.second != other.second {
        return mark.second.cmp(&other.second);
    }
    name_at(things, mark.place).cmp(name_at(things, other.place))
}

// Where each thing belongs, by the order of the marks.
fn homes_of(alloc: Global, marks: &[NamePrefix]) -> Result<Vec<usize>, AllocError> {
    let mut homes = Vec::with_capacity(alloc, marks.len())?;
    for mark in marks {
        homes.push(mark.place)?;
    }
    for k in 0..marks.len() {
        if let Some(home) = homes.get_mut(marks[k].place) {
            *home = k;
        }
    }
    Ok(homes)
}

// Brings the thing at a place home, in exchange for what is there. Says whether it is there already.
fn bring_home<T>(things: &mut [T], homes: &mut [usize], place: usize) -> bool
    ensures { IsPermutation things.old things.new }
{
    let len = things.len().min(homes.len());
    if place >= len {
        return true;
    }
    let home = homes[place];
    if home == place || home >= len {
        return true;
    }
    things.swap(place, home);
    homes.swap(place, home);
    false
}

// Brings each thing home.
fn bring_all_home<T>(things: &mut [T], homes: &mut [usize])
    ensures { IsPermutation things.old things.new }
{
    let mut place = 0usize;
    // Each step brings one home, or goes on by a place.
    for _ in 0..things.len().saturating_mul(2) {
        if bring_home(things, homes, place) {
            place = place.saturating_add(1);
        }
    }
}

// Whether each name is before the next one.
fn ascend<T: Named>(things: &[T]) -> bool {
    for k in 1..things.len() {
        if !things[k - 1].name().cmp(things[k].name()).is_lt() {
            return false;
        }
    }
    true
}

// Where each thing belongs, by its name.
fn homes_by_name<T: Named>(alloc: Global, things: &[T]) -> Result<Vec<usize>, AllocError> {
    let mut marks = marks_of(alloc, things, shared_len(things))?;
    marks.sort_unstable_by(|mark, other| compare(things, mark, other));
    homes_of(alloc, &marks)
}

/// Puts things nearly into the order of their names' bytes. If there is no memory for it they are left as they are.
pub fn order_nearly<T: Named>(things: &mut Vec<T>)
    ensures { IsPermutation things.old.items things.new.items }
{
    if ascend(things) {
        return;
    }
    let alloc = *things.allocator();
    if let Ok(mut homes) = homes_by_name(alloc, things) {
        bring_all_home(things, &mut homes);
    }
}
