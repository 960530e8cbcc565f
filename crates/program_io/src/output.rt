//! What takes the report of a run: standard output, a file, or nothing.
use crate::shared_failures::SharedFailures;
use std::fs::{File, Files};
use std::io;
use std::io::Write;
use std::sync::Wait;
use streams::write_text;

/// What takes the report of a run.
#[derive(Drop)]
pub enum Output<W: Write + Drop, F: Write + Drop> {
    /// Standard output.
    Standard(W),
    /// A file, which takes what failed, too.
    File(F),
    /// Nothing: it is thrown away.
    Nowhere,
}

/// The file at a path, which keeps what it has or is begun afresh; it is made if there is none.
pub fn open_file<D: Files>(disk: &D, path: &str, appends: bool) -> io::Result<D::File> {
    File::options()
        .write(true)
        .append(appends)
        .truncate(!appends)
        .create(true)
        .open(disk, path)
}

// Gives back that file, if there is one to be opened: `-` is standard output.
fn file_of<D: Files>(disk: &D, log: Option<(&str, bool)>) -> io::Result<Option<D::File>> {
    match log {
        Some((path, appends)) if path != "-" => Ok(Some(open_file(disk, path, appends)?)),
        _ => Ok(None),
    }
}

impl<W: Write + Drop, F: Write + Drop> Output<W, F> {
    /// Opens the file that takes the report, if there is one: its path, and whether it keeps what it has. If that can't be opened its
    /// line is written to standard output, unless nothing is to be printed, why is kept for a person, and there is nothing.
    pub fn open<D: Files<File = F> + Wait>(
        disk: &D,
        failures: &SharedFailures,
        standard: W,
        is_quiet: bool,
        log: Option<(&str, bool)>,
    ) -> Option<Output<W, F>> {
        let mut standard = standard;
        let file = match file_of(disk, log) {
            Ok(file) => file,
            Err(error) => {
                if let Some((path, _)) = log {
                    failures.fail(disk, path, &error);
                }
                if !is_quiet {
                    let _ = write_text(&mut standard, b"log not written\n");
                }
                return None;
            }
        };
        if is_quiet {
            return Some(Output::Nowhere);
        }
        match file {
            Some(file) => Some(Output::File(file)),
            None => Some(Output::Standard(standard)),
        }
    }

    /// Whether it takes what failed, too, or else standard error does.
    pub fn takes_failures(&self) -> bool {
        match self {
            Output::Standard(_) => false,
            Output::File(_) | Output::Nowhere => true,
        }
    }
}

impl<W: Write + Drop, F: Write + Drop> Write for Output<W, F> {
    ghost use Rattle.std.specs.Prelude.{None};

    ghost contents = { λ _. None };

    fn write(&mut self, bytes: &[u8]) -> io::Result<usize> {
        match self {
            Output::Standard(inner) => inner.write(bytes),
            Output::File(file) => file.write(bytes),
            Output::Nowhere => Ok(bytes.len()),
        }
    }

    fn flush(&mut self) -> io::Result<()> {
        match self {
            Output::Standard(inner) => inner.flush(),
            Output::File(file) => file.flush(),
            Output::Nowhere => Ok(()),
        }
    }
}
