ghost use Rattle.std.specs.Prelude.{◌≡◌, ◌≤◌, option_map, drop, length, [], IfOk, OnOk};
ghost use Rattle.memory_disk.specs.Acts.{IsOpen, file_at};

use disk_folder::{Disk, DiskError};
use std::alloc::{AllocError, Global};

/// What was done to a name.
#[derive(Drop)]
pub enum Act {
    /// A file of these bytes is there.
    Put(String, Vec<u8>),
    /// Nothing does.
    Gone(String),
    /// It is under the second, and no more under the first.
    Moved(String, String, Vec<u8>),
}

/// A disk in memory. Each call is done at once, so a crash leaves what is there. It keeps all that was done, the last first.
#[derive(Drop)]
pub struct MemoryDisk {
    alloc: Global,
    acts: Vec<Act>,
    open: Option<String>,
}

// What is under a name.
fn stands<'a>(acts: &'a [Act], name: &str) -> Option<&'a [u8]>
    ensures { option_map (λ bytes. bytes.now) result ≡ file_at acts.now name.now }
{
    match acts {
        [] => None,
        [Act::Put(at, bytes), rest @ ..] => {
            if at.as_str() == name {
                Some(bytes.as_slice())
            } else {
                stands(rest, name)
            }
        }
        [Act::Gone(at), rest @ ..] => {
            if at.as_str() == name {
                None
            } else {
                stands(rest, name)
            }
        }
        [Act::Moved(from, to, bytes), rest @ ..] => {
            if to.as_str() == name {
                Some(bytes.as_slice())
            } else if from.as_str() == name {
                None
            } else {
                stands(rest, name)
            }
        }
    }
}

// The name of the open file after another name was given to the file of this one. None is known if that was another file.
fn renamed(
    alloc: Global,
    was: &Option<String>,
    from: &str,
    to: &str,
) -> Result<Option<String>, AllocError>
    ensures { IfOk result (λ is. IsOpen was.now from.now → IsOpen is to.now) }
{
    match was {
        Some(name) if name.as_str() == from => Ok(Some(String::from_str(alloc, to)?)),
        _ => Ok(None),
    }
}

impl MemoryDisk {
    /// An empty disk.
    pub fn new(alloc: Global) -> MemoryDisk
        ensures { result.acts.items ≡ [] }
    {
        MemoryDisk {
            alloc,
            acts: Vec::new(alloc),
            open: None,
        }
    }

    /// How many moments there were.
    pub fn moments(&self) -> usize
        ensures { result ≡ length self.now.acts.items }
    {
        self.acts.len()
    }

    /// Goes back to the moment so many acts ago, as a crash then would. No file is open.
    pub fn go_back(&mut self, ago: usize)
        ensures { self.new.acts.items ≡ drop ago self.old.acts.items }
    {
        let mut rest = ago;
        while rest > 0 && !self.acts.is_empty() {
            self.acts.remove(0);
            rest -= 1;
        }
        self.open = None;
    }

    /// What was under a name so many moments ago.
    pub fn stood(&self, ago: usize, name: &str) -> Option<&[u8]>
        requires { ago ≤ length self.now.acts.items }
        ensures { option_map (λ bytes. bytes.now) result ≡ file_at (drop ago self.now.acts.items) name.now }
    {
        stands(&self.acts[ago..], name)
    }
}

impl Disk for MemoryDisk {
    ghost use Rattle.memory_disk.specs.Acts.{IsOpen, Stood};
    ghost use Rattle.memory_disk.specs.Moments.{counts, only};
    ghost use Rattle.std.specs.Prelude.{◌≡◌, List, ℕ, Some, length};
    ghost use Rattle.std.proofs.Common.{◌∙◌, sym, inr};

    ghost tells = { Unit {0} };

    ghost opened = { λ m n. IsOpen m.open n };

    ghost held = { λ _ _. Unit {0} };

    ghost found_open = { λ m n. IsOpen m.open n };

    ghost found_free = { λ _ _. Unit {0} };

    ghost seen = { λ m n c. c ≡ file_at m.acts.items n };

    ghost named = { λ m n. (b : List ℕ) × (file_at m.acts.items n ≡ Some b) };

    ghost stale = { λ _ _ _. ⊥ };

    ghost kept = { λ m n x. file_at m.acts.items n ≡ Some x };

    ghost left = { λ m n c. c ≡ file_at m.acts.items n };

    ghost moment = { λ m. length m.acts.items };

    ghost since = { λ m t n c. Stood m.acts.items t n c };

    ghost told = { λ m n c seen. tt };

    ghost leaves_named = { λ m n c named left. (named.0, left ∙ named.1, named.1) };

    ghost leaves_seen = { λ m n b c seen left. inr (b, left ∙ sym seen, sym seen) };

    ghost counts_now = { λ m t n c le now. counts m.acts.items t n c le now };

    ghost only_now = { λ m n c left. only m.acts.items n c left };

    fn make(&mut self, name: &str) -> Result<(), DiskError> {
        if stands(self.acts.as_slice(), name).is_some() {
            return Err(DiskError::Name);
        }
        let at = String::from_str(self.alloc, name)?;
        let open = String::from_str(self.alloc, name)?;
        self.acts.insert(0, Act::Put(at, Vec::new(self.alloc)))?;
        self.open = Some(open);
        Ok(())
    }

    fn reopen(&mut self, name: &str) -> Result<(), DiskError> {
        if stands(self.acts.as_slice(), name).is_none() {
            return Err(DiskError::Name);
        }
        self.open = Some(String::from_str(self.alloc, name)?);
        Ok(())
    }

    fn hold(&mut self) -> Result<bool, DiskError> {
        Ok(self.open.is_some())
    }

    fn is_anothers(&self, _name: &str) -> bool {
        false
    }

    fn is_open_at(&self, name: &str) -> bool {
        match &self.open {
            Some(at) => at.as_str() == name,
            None => false,
        }
    }

    fn add(&mut self, bytes: &[u8]) -> Result<(), DiskError> {
        let Some(open) = &self.open else {
            return Err(DiskError::Closed);
        };
        let Some(was) = stands(self.acts.as_slice(), open.as_str()) else {
            return Err(DiskError::Closed);
        };
        let mut all = was.to_vec(self.alloc)?;
        all.extend_from_slice(bytes)?;
        let at = String::from_str(self.alloc, open.as_str())?;
        self.acts.insert(0, Act::Put(at, all))?;
        Ok(())
    }

    fn sync(&mut self) -> Result<(), DiskError> {
        Ok(())
    }

    fn sync_names(&mut self) -> Result<(), DiskError> {
        Ok(())
    }

    fn rename(&mut self, from: &str, to: &str) -> Result<(), DiskError> {
        let Some(bytes) = stands(self.acts.as_slice(), from) else {
            return Err(DiskError::Name);
        };
        let bytes = bytes.to_vec(self.alloc)?;
        let left = String::from_str(self.alloc, from)?;
        let at = String::from_str(self.alloc, to)?;
        let open = renamed(self.alloc, &self.open, from, to)?;
        self.acts.insert(0, Act::Moved(left, at, bytes))?;
        self.open = open;
        Ok(())
    }

    fn remove(&mut self, name: &str) -> Result<(), DiskError> {
        let at = String::from_str(self.alloc, name)?;
        self.acts.insert(0, Act::Gone(at))?;
        self.open = None;
        Ok(())
    }

    fn read(&mut self, alloc: Global, name: &str) -> Result<Option<Vec<u8>>, DiskError> {
        match stands(self.acts.as_slice(), name) {
            Some(bytes) => Ok(Some(bytes.to_vec(alloc)?)),
            None => Ok(None),
        }
    }
}
