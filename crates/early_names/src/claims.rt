//! Names that were claimed.
ghost use Rattle.std.specs.Prelude.{◌≡◌, ◌↔◌, ◌||◌, ◌&&◌, ℕ, Bool, List, false, true, Ok, Some, MatchOption, OnOk, OnErr, IfOk, IsTrue, bytes_eq, cond};
ghost use Rattle.local_names.specs.Names.{IsDirectoryOf};
ghost use Rattle.early_names.specs.Claims.{IsClear, is_claimed, is_name, no_claims};
ghost use Rattle.early_names.specs.inner.Entries.{entry_of, HasClaimedAbove, IsLongestDirectory, IsUnmarked, IsAdded, MarksAll, MarksSome};

use indexmap::IndexMap;
use std::alloc::{AllocError, Global};
use std::marker::Model;

/// Names that one folder can hold, each claimed by one page: none is a directory of another.
#[derive(Drop)]
pub struct Claims {
    alloc: Global,
    // Of each claimed name true, and of each directory of one false.
    entries: IndexMap<String, bool>,
    // Whether memory ran out at a claim; its directories may have entries.
    is_closed: bool,
}

// Contracts see which names have an entry.
impl Model for Claims {
    ghost use Rattle.early_names.specs.Claims.{ClaimsValue};
    ghost use Rattle.early_names.specs.inner.Entries.{entry_of, table_of, IsTable};

    ghost Value = { ClaimsValue };

    ghost view = { λ c. record { table = table_of c.entries; is_closed = c.is_closed } };

    ghost invariant = { λ c. IsTable c.is_closed (entry_of c.entries) };
}

// The longest directory of a name.
fn directory_of(name: &str) -> Option<&str>
    ensures { MatchOption result ((q : List ℕ) → IsDirectoryOf name.now q → ⊥) (λ directory. IsLongestDirectory name.now directory.now) }
{
    match name.rsplit_once('/') {
        Some((directory, _)) => Some(directory),
        None => None,
    }
}

// Whether the name has the entry of a directory.
fn is_marked(entries: &IndexMap<String, bool>, name: &str) -> bool
    ensures { IsTrue result ↔ (entry_of entries.now name.now ≡ Some false) }
{
    entries.get(name) == Some(&false)
}

// Whether a directory of the name is claimed. The longest one that has an entry decides, as those above it are marked if it is.
fn is_below_claimed(entries: &IndexMap<String, bool>, name: &str) -> bool
    requires { MarksAll (entry_of entries.now) }
    ensures { IsTrue result ↔ HasClaimedAbove (entry_of entries.now) name.now }
{
    let mut rest = name;
    while let Some(directory) = directory_of(rest) {
        if let Some(is_name) = entries.get(directory) {
            return *is_name;
        }
        rest = directory;
    }
    false
}

// Gives a name this entry.
fn set(
    alloc: Global,
    entries: &mut IndexMap<String, bool>,
    name: &str,
    is_name: bool,
) -> Result<(), AllocError>
    ensures set { OnOk result ((q : List ℕ) → entry_of entries.new q ≡ cond (bytes_eq name.now q) (Some is_name) (entry_of entries.old q)) }
    ensures err { OnErr result ((q : List ℕ) → entry_of entries.new q ≡ entry_of entries.old q) }
{
    let key = String::from_str(alloc, name)?;
    entries.insert(key, is_name)?;
    Ok(())
}

// Gives the directories of a name the entries of such, the longest first, up to one that has its own: those above it are marked.
fn mark_directories(
    alloc: Global,
    entries: &mut IndexMap<String, bool>,
    name: &str,
) -> Result<(), AllocError>
    requires { MarksAll (entry_of entries.old) }
    ensures some { MarksSome (entry_of entries.old) (entry_of entries.new) name.now }
    ensures all { OnOk result ((q : List ℕ) → IsDirectoryOf name.now q → entry_of entries.new q ≡ Some false) }
{
    let mut rest = name;
    while let Some(directory) = directory_of(rest) {
        if is_marked(entries, directory) {
            return Ok(());
        }
        set(alloc, entries, directory, false)?;
        rest = directory;
    }
    Ok(())
}

// Whether the name has no entry, and no directory of it is claimed.
fn is_clear(entries: &IndexMap<String, bool>, name: &str) -> bool
    requires { MarksAll (entry_of entries.now) }
    ensures { IsTrue result ↔ IsUnmarked (entry_of entries.now) name.now }
{
    !entries.contains_key(name) && !is_below_claimed(entries, name)
}

// Gives a name its entry, after those of its directories.
fn add(alloc: Global, entries: &mut IndexMap<String, bool>, name: &str) -> Result<(), AllocError>
    requires { MarksAll (entry_of entries.old) }
    ensures added { OnOk result (IsAdded (entry_of entries.old) (entry_of entries.new) name.now) }
    ensures err { OnErr result (MarksSome (entry_of entries.old) (entry_of entries.new) name.now) }
{
    mark_directories(alloc, entries, name)?;
    set(alloc, entries, name, true)?;
    Ok(())
}

impl Claims {
    /// No name is claimed. Takes no memory.
    pub fn new(alloc: Global) -> Claims
        ensures { result ≡ no_claims }
    {
        Claims {
            alloc,
            entries: IndexMap::new(alloc),
            is_closed: false,
        }
    }

    /// Claims a name, unless it is claimed, or a directory of it is, or a name of which it is a directory. Whether it is claimed from
    /// now on. The error is out of memory: nothing is claimed then, and later claims are refused.
    pub fn claim(&mut self, name: &str) -> Result<bool, AllocError>
        // What is claimed is clear of all that was claimed before.
        ensures clear { IfOk result (λ is_new. IsTrue is_new → IsClear self.old name.now) }
        ensures exact { self.old.is_closed ≡ false → IfOk result (λ is_new. IsTrue is_new ↔ IsClear self.old name.now) }
        ensures claimed { IfOk result (λ is_new. (other : List ℕ) → is_claimed self.new other ≡ (is_claimed self.old other || (is_new && bytes_eq name.now other))) }
        ensures open { OnOk result (self.new.is_closed ≡ self.old.is_closed) }
        ensures err { OnErr result ((other : List ℕ) → is_claimed self.new other ≡ is_claimed self.old other) }
        // Once memory ran out nothing more is claimed.
        ensures closed { OnErr result (self.new.is_closed ≡ true) }
        ensures shut { self.old.is_closed ≡ true → result ≡ Ok false }
    {
        if self.is_closed || !is_clear(&self.entries, name) {
            return Ok(false);
        }
        match add(self.alloc, &mut self.entries, name) {
            Ok(()) => Ok(true),
            Err(error) => {
                self.is_closed = true;
                Err(error)
            }
        }
    }
}
