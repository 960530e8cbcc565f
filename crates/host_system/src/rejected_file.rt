//! The file that takes the log of rejected links.
use live_system::RejectedLog;
use program_io::{SharedFailures, open_file};
use std::fs::Files;
use std::io;
use std::io::{Error, ErrorKind, Write};
use std::sync::Wait;
use streams::write_text;

/// The line that is written if the log isn't.
const NOT_WRITTEN: &[u8] = b"rejected log not written\n";

// A file, with its path.
#[derive(Drop)]
struct PathFile<F: Write + Drop> {
    path: String,
    file: F,
}

/// The file of the log, if the words name one, and what keeps why it couldn't be written.
#[derive(Drop)]
pub struct RejectedFile<'a, R: Wait + Files> {
    rt: &'a R,
    failures: &'a SharedFailures,
    named: Option<PathFile<R::File>>,
    // Whether the log couldn't be written.
    is_lost: bool,
}

// The file at a path, begun afresh, if there is one.
fn named_at<R: Files>(rt: &R, path: Option<String>) -> Result<Option<PathFile<R::File>>, Unopened> {
    let Some(path) = path else {
        return Ok(None);
    };
    match open_file(rt, path.as_str(), false) {
        Ok(file) => Ok(Some(PathFile { path, file })),
        Err(error) => Err(Unopened { path, error }),
    }
}

// A file that can't be opened, and why.
#[derive(Drop)]
struct Unopened {
    path: String,
    error: Error,
}

impl<'a, R: Wait + Files> RejectedFile<'a, R> {
    /// Opens the file at this path, if there is one, and begins it afresh. If it can't be opened its line is written there, why is kept
    /// for a person, and there is nothing.
    pub fn open<W: Write>(
        rt: &'a R,
        failures: &'a SharedFailures,
        path: Option<String>,
        writer: &mut W,
    ) -> Option<RejectedFile<'a, R>> {
        match named_at(rt, path) {
            Ok(named) => Some(RejectedFile {
                rt,
                failures,
                named,
                is_lost: false,
            }),
            Err(Unopened { path, error }) => {
                failures.fail(rt, path.as_str(), &error);
                let _ = write_text(writer, NOT_WRITTEN);
                None
            }
        }
    }

    // Writes the log, if there is a file for it.
    fn write(&mut self, text: &str) -> io::Result<()> {
        match &mut self.named {
            Some(named) => named.file.write_all(text.as_bytes()),
            None => Ok(()),
        }
    }

    // Writes it likewise, or keeps why that can't be done.
    fn write_or_fail(&mut self, text: &str) {
        if let Err(error) = self.write(text) {
            self.fail(&error);
        }
    }

    // Keeps why the log couldn't be written.
    fn fail(&mut self, error: &Error) {
        self.is_lost = true;
        if let Some(named) = &self.named {
            self.failures.fail(self.rt, named.path.as_str(), error);
        }
    }

    /// The status of a run that would have this one: if the log couldn't be written its line is, and the status is 3, or 1.
    pub fn status<W: Write>(&self, status: u8, writer: &mut W) -> u8 {
        if !self.is_lost {
            return status;
        }
        match write_text(writer, NOT_WRITTEN) {
            Ok(()) if status != 1 => 3,
            _ => 1,
        }
    }
}

impl<'a, R: Wait + Files> RejectedLog for RejectedFile<'a, R> {
    ghost use Rattle.std.specs.Prelude.{None};

    ghost contents = { λ _. None };

    fn take(&mut self, text: &str) {
        self.write_or_fail(text);
    }

    fn lose(&mut self) {
        self.fail(&Error::from(ErrorKind::OutOfMemory));
    }
}
