//! What is kept of all pages.
ghost use Rattle.std.specs.Prelude.{◌≡◌, ◌++◌, ◌<◌, ◌≤◌, ◌↔◌, ◌∷◌, [], IfOk, IsTrue, MatchBool, MatchOption, OnErr, length};
ghost use Rattle.mirror_index.specs.Entries.{IsEntry};
ghost use Rattle.std.specs.Cmp.Lexicographic.{slice_cmp};
ghost use Rattle.std.specs.Ordering.{nat_cmp};
ghost use Rattle.mirror_index.specs.Indexes.{Follows, HasNone, HasThis, IsInOrder, IsIndex};

use crate::entry::{Entry, is_entry};
use address::Address;
use std::alloc::{AllocError, Global};
use std::cmp::Ordering;
use std::marker::Model;

/// The most entries of an index.
pub const MAX_ENTRIES: usize = 10_000_000;

/// What is kept of pages, in the order of their addresses.
pub struct MirrorIndex {
    entries: Vec<Entry>,
}

// Written by hand: a user that drops one proves a call, and nothing about its fields.
impl Drop for MirrorIndex {
    fn drop(self) {
        let MirrorIndex { entries: _entries } = self;
    }
}

impl Model for MirrorIndex {
    ghost use Rattle.std.specs.Prelude.{List};
    ghost use Rattle.mirror_index.specs.Entries.{Entry};

    ghost Value = { List Entry };

    ghost use Rattle.mirror_index.specs.Indexes.{IsIndex};

    ghost view = { λ i. i.entries.items };

    ghost invariant = { λ i. IsIndex i.entries.items };
}

// Whether an entry's address is after that of the last of these.
fn follows(entries: &[Entry], entry: &Entry) -> bool
    ensures { IsTrue result ↔ Follows entries.now entry.now }
{
    if entries.is_empty() {
        return true;
    }
    let place = entries.len() - 1;
    let last = &entries[place];
    last.address().cmp(entry.address()).is_lt()
}

// Whether an entry may come after these.
fn may_follow(alloc: Global, entries: &[Entry], entry: &Entry) -> Result<bool, AllocError>
    ensures { IfOk result (λ may. IsIndex entries.now → IsTrue may ↔ IsIndex (entries.now ++ entry.now ∷ [])) }
{
    if entries.len() >= MAX_ENTRIES {
        return Ok(false);
    }
    if !follows(entries, entry) {
        return Ok(false);
    }
    is_entry(alloc, entry)
}

// What is kept of the page of an address.
fn entry_of<'a>(entries: &'a [Entry], at: &Address) -> Option<&'a Entry>
    requires { IsInOrder entries.now }
    ensures { MatchOption result (HasNone entries.now at.now) (λ e. HasThis entries.now at.now e.now) }
{
    let found = entries.binary_search_by(
        |entry: &Entry| -> Ordering
            ensures { result ≡ slice_cmp nat_cmp entry.now.address at.entry.now }
        { entry.address().cmp(at) },
    );
    match found {
        Ok(place) => Some(&entries[place]),
        Err(_) => None,
    }
}

impl MirrorIndex {
    /// Of no pages. Takes no memory.
    pub fn new(alloc: Global) -> MirrorIndex
        ensures { result ≡ [] }
    {
        MirrorIndex {
            entries: Vec::new(alloc),
        }
    }

    /// Adds what is kept of one more page, and says whether it did: not if its address isn't after that of the last, its name leads
    /// out of the folder or is of a file of the program's own, its line has more than 65,536 bytes, or 10,000,000 are there. Fails
    /// only if memory runs out, and then adds nothing.
    pub fn add(&mut self, alloc: Global, entry: Entry) -> Result<bool, AllocError>
        ensures added { IfOk result (λ added. MatchBool added ((self.new ≡ self.old ++ entry ∷ []) × IsIndex self.new) ((self.new ≡ self.old) × (¬ IsIndex (self.old ++ entry ∷ [])))) }
        ensures memory { OnErr result (self.new ≡ self.old) }
    {
        let may = may_follow(alloc, self.entries.as_slice(), &entry)?;
        if !may {
            return Ok(false);
        }
        self.entries.push(entry)?;
        Ok(true)
    }

    /// How many entries there are.
    pub fn len(&self) -> usize
        ensures count { result ≡ length self.now }
        // What all indexes are, for callers to use.
        ensures index { IsIndex self.now }
    {
        self.entries.len()
    }

    /// The entries, in the order of their addresses.
    pub fn entries(&self) -> &[Entry]
        ensures entries { result.now ≡ self.now }
        ensures index { IsIndex self.now }
    {
        self.entries.as_slice()
    }

    /// What is kept of the page of an address, if it is kept.
    pub fn entry(&self, at: &Address) -> Option<&Entry>
        ensures { MatchOption result (HasNone self.now at.now) (λ e. HasThis self.now at.now e.now) }
    {
        entry_of(self.entries.as_slice(), at)
    }
}
