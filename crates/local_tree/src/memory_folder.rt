//! A folder that is kept in memory.
ghost use Rattle.std.specs.Prelude.{◌≡◌, ◌+◌, ◌-◌, ◌^◌, ℕ, List, [], Some, None, IsErr, OnOk, OnErr, min, option_map};
ghost use Rattle.local_tree.specs.Folders.{Puts, KeepsOthers, CountsRefusedPut, with_file};
ghost use Rattle.local_tree.specs.MemoryFolders.{file_in};

use crate::folder::{Folder, FolderFault};
use std::alloc::{AllocError, Global};
use std::collections::BTreeMap;
use std::marker::Model;

/// A folder in memory. A put of it can be made to fail.
#[derive(Drop)]
pub struct MemoryFolder {
    alloc: Global,
    files: BTreeMap<String, Vec<u8>>,
    puts: u64,
    failed: u64,
    failing: Option<u64>,
}

impl Model for MemoryFolder {
    ghost use Rattle.std.specs.Prelude.{map, string_bytes};
    ghost use Rattle.local_tree.specs.MemoryFolders.{Kept};

    ghost Value = { Kept };

    ghost view = { λ f. record {
      files = map (λ file. (string_bytes file.0, file.1.items)) f.files.entries;
      puts = f.puts;
      failed = f.failed;
      failing = f.failing;
    } };
}

impl MemoryFolder {
    /// An empty folder.
    pub fn new(alloc: Global) -> MemoryFolder
        ensures files { result.files ≡ [] }
        ensures puts { result.puts ≡ 0 }
        ensures failed { result.failed ≡ 0 }
        ensures failing { result.failing ≡ None }
    {
        MemoryFolder {
            alloc,
            files: BTreeMap::new(alloc),
            puts: 0,
            failed: 0,
            failing: None,
        }
    }

    /// An empty folder whose put of this number, counted from 0, fails and changes nothing.
    pub fn failing_at(alloc: Global, put: u64) -> MemoryFolder
        ensures files { result.files ≡ [] }
        ensures puts { result.puts ≡ 0 }
        ensures failed { result.failed ≡ 0 }
        ensures failing { result.failing ≡ Some put }
    {
        MemoryFolder {
            alloc,
            files: BTreeMap::new(alloc),
            puts: 0,
            failed: 0,
            failing: Some(put),
        }
    }

    /// The bytes of the file of this name, if there is one.
    pub fn file(&self, name: &str) -> Option<&[u8]>
        ensures { option_map (λ bytes. bytes.now) result ≡ file_in self.now.files name.now }
    {
        match self.files.get(name) {
            Some(bytes) => Some(bytes.as_slice()),
            None => None,
        }
    }

    // Keeps a file. Fails only if memory runs out.
    fn keep(&mut self, name: &str, bytes: &[u8]) -> Result<(), AllocError>
        ensures kept { OnOk result ((other : List ℕ) → file_in self.new.files other ≡ with_file (file_in self.old.files) name.now bytes.now other) }
        ensures same { OnErr result (self.new.files ≡ self.old.files) }
        ensures puts { self.new.puts ≡ self.old.puts }
        ensures failed { self.new.failed ≡ self.old.failed }
        ensures failing { self.new.failing ≡ self.old.failing }
    {
        let name = String::from_str(self.alloc, name)?;
        let bytes = bytes.to_vec(self.alloc)?;
        self.files.insert(name, bytes)?;
        Ok(())
    }
}

impl Folder for MemoryFolder {
    ghost use Rattle.std.specs.Prelude.{Some};
    ghost use Rattle.local_tree.specs.MemoryFolders.{file_in};

    ghost files = { λ f. Some (file_in f.files) };

    ghost failed = { λ f. f.failed };

    /// Keeps the file. It fails if this put was to fail, or memory runs out.
    fn put(&mut self, name: &str, bytes: &[u8]) -> Result<(), FolderFault>
        ensures put { OnOk result (Puts (Some (file_in self.old.files)) (Some (file_in self.new.files)) name.now bytes.now) }
        ensures torn { OnErr result (KeepsOthers (Some (file_in self.old.files)) (Some (file_in self.new.files)) name.now) }
        ensures counted { CountsRefusedPut self.old.failed self.new.failed result }

        // If it was to fail, it fails and then, as when memory runs out, changes nothing.
        ensures same { OnErr result (self.new.files ≡ self.old.files) }
        ensures planned { self.old.failing ≡ Some self.old.puts → IsErr result }
        ensures puts { self.new.puts ≡ min (self.old.puts + 1) (2 ^ 64 - 1) }
        ensures failing { self.new.failing ≡ self.old.failing }
    {
        let number = self.puts;
        self.puts = self.puts.saturating_add(1);
        if self.failing != Some(number) && self.keep(name, bytes).is_ok() {
            return Ok(());
        }
        self.failed = self.failed.saturating_add(1);
        Err(FolderFault::Device)
    }

    fn failures(&self) -> u64 {
        self.failed
    }
}
