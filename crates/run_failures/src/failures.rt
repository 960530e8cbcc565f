//! All that failed in a run, as far as it is reported to a person.
ghost use Rattle.std.specs.Prelude.{◌≡◌, ◌++◌, [], ◌∷◌, IfOk, OnOk, OnErr, string_bytes};
ghost use Rattle.std.specs.List.{flat_map};
ghost use Rattle.run_failures.specs.Files.{fault_line};
ghost use Rattle.run_failures.specs.Losses.{LosesOne, loss_lines_of};

use crate::file_fault::FileFault;
use crate::loss_kind::LossKind;
use crate::losses::Losses;
use address::Address;
use std::alloc::{AllocError, Global};
use std::marker::Model;

/// The files that couldn't be written in a run, and the connections that were lost.
#[derive(Drop)]
pub struct Failures {
    alloc: Global,
    files: Vec<FileFault>,
    losses: Losses,
}

impl Model for Failures {
    ghost use Rattle.run_failures.specs.Files.{Failed};

    ghost Value = { Failed };

    ghost view = { λ f. record { files = f.files.items; losses = f.losses } };
}

// Adds the lines of files.
fn push_files(text: &mut String, files: &[FileFault]) -> Result<(), AllocError>
    ensures ok { OnOk result (string_bytes text.new ≡ string_bytes text.old ++ flat_map fault_line files.now) }
{
    for file in files {
        file.push_line(text)?;
    }
    Ok(())
}

impl Failures {
    /// None. Takes no memory; later growth comes from `alloc`.
    pub fn new(alloc: Global) -> Failures
        ensures files { result.files ≡ [] }
        ensures losses { result.losses ≡ [] }
    {
        Failures {
            alloc,
            files: Vec::new(alloc),
            losses: Losses::new(alloc),
        }
    }

    /// A file couldn't be written. Fails only if memory runs out; then nothing is kept of it.
    pub fn fail(&mut self, file: FileFault) -> Result<(), AllocError>
        ensures ok { OnOk result (self.new.files ≡ self.old.files ++ file ∷ []) }
        ensures err { OnErr result (self.new.files ≡ self.old.files) }
        ensures losses { self.new.losses ≡ self.old.losses }
    {
        self.files.push(file)?;
        Ok(())
    }

    /// A connection was lost, which was to request this address. Fails only if memory runs out; then it isn't counted.
    pub fn lose(&mut self, kind: LossKind, at: Address) -> Result<(), AllocError>
        ensures ok { OnOk result (LosesOne self.old.losses self.new.losses kind at) }
        ensures err { OnErr result (self.new.losses ≡ self.old.losses) }
        ensures files { self.new.files ≡ self.old.files }
    {
        self.losses.add(kind, at)
    }

    /// The lines for a person: one for each file, and one for each kind of lost connection with its count and first address. It is
    /// empty if nothing failed.
    pub fn text(&self) -> Result<String, AllocError>
        ensures { IfOk result (λ text. string_bytes text ≡ flat_map fault_line self.now.files ++ loss_lines_of self.now.losses) }
    {
        let mut text = String::new(self.alloc);
        push_files(&mut text, self.files.as_slice())?;
        self.losses.push_lines(&mut text)?;
        Ok(text)
    }
}
