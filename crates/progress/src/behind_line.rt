//! A writer on the terminal that shows the line.
ghost use Rattle.std.specs.Prelude.{◌≡◌};

use crate::progress::ProgressLine;
use std::io;
use std::io::Write;
use std::marker::Model;
use std::time::Clock;

/// Writes what another is to write, once the line is cleared, so that both may be on one terminal.
#[derive(Drop)]
pub struct BehindLine<'a, W: Write + Drop, R: Clock + Eprint> {
    inner: W,
    progress: &'a ProgressLine<'a, R>,
}

// Contracts see the other writer alone.
impl<'a, W: Write + Drop, R: Clock + Eprint> Model for BehindLine<'a, W, R> {
    ghost Value = { W };

    ghost view = { λ b. b.inner };
}

impl<'a, W: Write + Drop, R: Clock + Eprint> BehindLine<'a, W, R> {
    /// Writes to `inner`. Takes no memory.
    pub fn new(inner: W, progress: &'a ProgressLine<'a, R>) -> BehindLine<'a, W, R>
        ensures { result ≡ inner }
    {
        BehindLine { inner, progress }
    }
}

impl<'a, W: Write + Drop, R: Clock + Eprint> Write for BehindLine<'a, W, R> {
    ghost contents = { λ b. W.contents b };

    fn write(&mut self, bytes: &[u8]) -> io::Result<usize> {
        self.progress.clear();
        self.inner.write(bytes)
    }

    fn flush(&mut self) -> io::Result<()> {
        self.inner.flush()
    }
}
