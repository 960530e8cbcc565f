//! Names that are free: no directory of a page's plain name, and no earlier page's name.
ghost use Rattle.std.specs.Prelude.{◌≡◌, ◌≢◌, ◌↔◌, ◌⊎◌, ◌<◌, ◌≤◌, ◌+◌, ◌-◌, ◌^◌, ◌++◌, ◌∷◌, [], ℕ, List, IsTrue, IsSome, IfOk, HoldsAt, Some, None, map, take, length, string_bytes};
ghost use Rattle.std.specs.BTreeMap.{get_by_text};
ghost use Rattle.std.specs.Cmp.Lexicographic.{slice_cmp};
ghost use Rattle.std.specs.Ordering.{nat_cmp};
ghost use Rattle.std.specs.declared.cmp.Ordering.TheVariants.{Less, Greater};
ghost use Rattle.std.specs.List.Sorted.{IsSorted};
ghost use Rattle.local_names.specs.PlainNames.{slash};
ghost use Rattle.local_names.specs.Names.{IsDirectory, numbered_by};
ghost use Rattle.local_names.specs.inner.Taken.{lent_text, text_cmp, below_order, IsNameTaken};

use crate::ending::{ending_of, stem_of};
use std::alloc::{AllocError, Global};
use std::cmp::Ordering;
use std::collections::BTreeMap;

// The plain name with this number: `f`, `f.1`, `f.2`, ..; if names have endings, the number is before it.
fn numbered(
    alloc: Global,
    has_endings: bool,
    plain: &str,
    number: u64,
) -> Result<String, AllocError>
    ensures { IfOk result (λ name. string_bytes name ≡ numbered_by has_endings plain.now number) }
{
    if number == 0 {
        return String::from_str(alloc, plain);
    }
    let stem = stem_of(has_endings, plain);
    let ending = ending_of(has_endings, plain);
    format!(in alloc; "{stem}.{number}{ending}")
}

// The first bytes of a name: as many as `len`, if it has them.
fn front_of(name: &[u8], len: usize) -> &[u8]
    ensures { result.now ≡ take len name.now }
{
    &name[..len.min(name.len())]
}

// How the first bytes of a name compare to those with which each name in this directory begins.
fn compare_below(name: &str, directory: &str) -> Ordering
    ensures { result ≡ slice_cmp nat_cmp (take (length directory.now + 1) name.now) (directory.now ++ slash ∷ []) }
{
    let name = name.as_bytes();
    let directory = directory.as_bytes();
    let slash: &[u8] = b"/";
    let front = front_of(name, directory.len());
    match front.cmp(directory) {
        Ordering::Equal => front_of(&name[front.len()..], 1).cmp(slash),
        unequal => unequal,
    }
}

// Whether the last of so many of these names, if there is one, orders before all in this directory.
fn ends_before(sorted: &[&str], place: usize, directory: &str) -> bool
    requires { place ≤ length sorted.now }
    ensures { IsTrue result → 0 < place → HoldsAt (λ name. below_order directory.now name ≡ Less) sorted.now (place - 1) }
{
    place == 0 || compare_below(sorted[place - 1], directory).is_lt()
}

// Whether the name after so many of these, if there is one, orders after all in this directory.
fn begins_behind(sorted: &[&str], place: usize, directory: &str) -> bool
    requires { place ≤ length sorted.now }
    ensures { IsTrue result → place < length sorted.now → HoldsAt (λ name. below_order directory.now name ≡ Greater) sorted.now place }
{
    place == sorted.len() || compare_below(sorted[place], directory).is_gt()
}

// Whether the first so many of these names, which are sorted, order before where a name in this directory would be,
// and the others after it.
fn parts_at(sorted: &[&str], place: usize, directory: &str) -> bool
    requires { IsSorted text_cmp sorted.now }
    ensures { IsTrue result → ¬ IsDirectory (map lent_text sorted.now) directory.now }
{
    if place > sorted.len() {
        return false;
    }
    ends_before(sorted, place, directory) && begins_behind(sorted, place, directory)
}

// Whether the name is a directory of one of these names, which are sorted: those that begin with it and a `/` are
// together. They are looked for near this place first, and then by halves.
fn is_directory(sorted: &[&str], name: &str, near: usize) -> bool
    requires { IsSorted text_cmp sorted.now }
    ensures { IsTrue result ↔ IsDirectory (map lent_text sorted.now) name.now }
{
    if parts_at(sorted, near, name) {
        return false;
    }
    let place = sorted.binary_search_by(
        |other: &&str| -> Ordering
            ensures { result ≡ below_order name.entry.now other.now }
        { compare_below(other, name) },
    );
    place.is_ok()
}

// Whether the name has an entry, or is a directory of one of the sorted names.
fn is_taken(sorted: &[&str], next: &BTreeMap<String, u64>, name: &str, near: usize) -> bool
    requires { IsSorted text_cmp sorted.now }
    ensures { IsTrue result ↔ IsNameTaken (map lent_text sorted.now) next.now name.now }
{
    if next.contains_key(name) {
        return true;
    }
    is_directory(sorted, name, near)
}

/// The first free name of a page with this plain name, and its number. `sorted` are all plain names in
/// order; `next` has each given name, and beside it a number below which none of its own numbered names
/// is free. `near` says where among the sorted names those in a directory of this name would be; it
/// may be wrong, and then the search takes longer.
pub(crate) fn first_free(
    alloc: Global,
    has_endings: bool,
    sorted: &[&str],
    next: &BTreeMap<String, u64>,
    plain: &str,
    near: usize,
) -> Result<(String, u64), AllocError>
    requires sorted { IsSorted text_cmp sorted.now }
    requires few { length sorted.now < 2 ^ 63 }
    requires passed { (v k : ℕ) → get_by_text next.now plain.now ≡ Some v → k < v → IsNameTaken (map lent_text sorted.now) next.now (numbered_by has_endings plain.now k) }
    ensures small { IfOk result (λ found. found.1 < 2 ^ 64 - 1) }
    ensures name { IfOk result (λ found. string_bytes found.0 ≡ numbered_by has_endings plain.now found.1) }
    ensures free { IfOk result (λ found. ¬ IsNameTaken (map lent_text sorted.now) next.now (string_bytes found.0)) }
    ensures before { IfOk result (λ found. (k : ℕ) → k < found.1 → IsNameTaken (map lent_text sorted.now) next.now (numbered_by has_endings plain.now k)) }
{
    let start = match next.get(plain) {
        Some(number) => *number,
        None if is_directory(sorted, plain, near) => 1,
        None => return Ok((String::from_str(alloc, plain)?, 0)),
    };
    // Each entry and each plain name takes one numbered name at most, so one more is free.
    let end = (next.len() + sorted.len()) as u64 + 1;
    for number in start..end {
        let name = numbered(alloc, has_endings, plain, number)?;
        if !is_taken(sorted, next, name.as_str(), near) {
            return Ok((name, number));
        }
    }
    // There are more numbers than names that are taken.
    unreachable!()
}
