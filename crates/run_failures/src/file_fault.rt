//! Files that couldn't be written.
ghost use Rattle.std.specs.Prelude.{◌≡◌, ◌++◌, IfOk, OnOk, option_map, string_bytes};
ghost use Rattle.std.specs.IoError.{error_kind, raw_os_error};
ghost use Rattle.run_failures.specs.Files.{HasReason, TellsOf, fault_line, own_words};

use std::alloc::{AllocError, Global};
use std::io::{Error, ErrorKind};

/// Why a file couldn't be written.
#[derive(Drop)]
pub enum FileFault {
    /// The file of this name, for this reason.
    Named {
        /// Its name, or its path.
        name: String,
        /// Words for a person.
        reason: String,
    },
    /// Memory ran out, for the file or for these words.
    Memory,
}

// What is said of an error that the program itself gives; nothing of one of the system's, which has words of its own.
fn own_words(error: &Error) -> Option<&'static str>
    ensures { option_map (λ words. words.now) result ≡ own_words (raw_os_error error.now) (error_kind error.now) }
{
    if error.raw_os_error().is_some() {
        return None;
    }
    match error.kind() {
        ErrorKind::AlreadyExists => Some("a link, a folder or a device stands there"),
        ErrorKind::NotADirectory => Some("a link or a file stands where a folder is to be"),
        ErrorKind::Other => Some("the disk may not have kept it"),
        _ => None,
    }
}

// The words of the system's error, without its number.
fn system_words(alloc: Global, error: &Error) -> Result<String, AllocError> {
    let text = format!(in alloc; "{error}")?;
    match text.as_str().split_once(" (os error ") {
        Some((words, _)) => String::from_str(alloc, words),
        None => Ok(text),
    }
}

// Why it couldn't be written.
fn reason_of(alloc: Global, error: &Error) -> Result<String, AllocError>
    ensures { IfOk result (λ reason. HasReason error.now (string_bytes reason)) }
{
    match own_words(error) {
        Some(words) => String::from_str(alloc, words),
        None => system_words(alloc, error),
    }
}

// The fault of this file with this error. Fails only if memory runs out.
fn named(alloc: Global, name: &str, error: &Error) -> Result<FileFault, AllocError>
    ensures { IfOk result (TellsOf name.now error.now) }
{
    Ok(FileFault::Named {
        name: String::from_str(alloc, name)?,
        reason: reason_of(alloc, error)?,
    })
}

impl FileFault {
    /// That of the file of this name, with this error. If that is out of memory, no memory is taken.
    pub fn new(alloc: Global, name: &str, error: &Error) -> FileFault
        ensures tells { TellsOf name.now error.now result }
    {
        if error.kind() == ErrorKind::OutOfMemory {
            return FileFault::Memory;
        }
        match named(alloc, name, error) {
            Ok(fault) => fault,
            Err(_) => FileFault::Memory,
        }
    }

    // Adds its line.
    pub(crate) fn push_line(&self, text: &mut String) -> Result<(), AllocError>
        ensures ok { OnOk result (string_bytes text.new ≡ string_bytes text.old ++ fault_line self.now) }
    {
        match self {
            FileFault::Named { name, reason } => writeln!(text, "couldn't write {name}: {reason}"),
            FileFault::Memory => writeln!(text, "couldn't write a file: out of memory"),
        }
    }
}
