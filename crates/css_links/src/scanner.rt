//! A scanner that is fed a sheet in any pieces.
ghost use Rattle.std.specs.Prelude.{◌≡◌, true, false, ℕ, List, [], ◌∷◌, ◌++◌, OnOk, OnErr, IfOk, IfErr};
ghost use Rattle.css_links.specs.References.{references, fed, ended};
ghost use Rattle.css_links.specs.Scanning.{ScanProgress, front_of, StandsFor};

use crate::found::Found;
use crate::machine::Machine;
use crate::memory::Memory;
use std::alloc::Global;
use std::fmt;
use std::marker::Model;

/// A scanner of a style sheet that comes in pieces: `feed` takes each piece in turn, `finish` gives the references.
///
/// It keeps what was found, and of the sheet the word, string or URL alone that isn't whole yet. Contracts say how far
/// it has come by `StandsFor scanner front`: it works, and has been fed the bytes `front`.
///
/// ```
/// let mut scanner = Scanner::new(alloc);
/// scanner.feed(b"a{background:url(b")?;
/// scanner.feed(b".png)}")?;
/// let found = scanner.finish()?; // one reference, `b.png`
/// ```
#[derive(Drop)]
pub struct Scanner {
    machine: Machine,
    failed: bool,
}

// What is held of the sheet isn't shown.
impl fmt::Debug for Scanner {
    fn fmt<W: fmt::Write>(&self, f: &mut fmt::Formatter<W>) -> fmt::Result {
        f.write_str("Scanner { .. }")
    }
}

impl Model for Scanner {
    ghost Value = { ScanProgress };

    ghost view = { λ s. record { front = front_of s.machine; failed = s.failed } };
}

impl Scanner {
    /// A scanner that was fed nothing yet. It takes no memory; later growth comes from `alloc`.
    pub fn new(alloc: Global) -> Self
        ensures { StandsFor result [] }
    {
        Scanner {
            machine: Machine::new(alloc),
            failed: false,
        }
    }

    /// Reads the next piece of the sheet, of any length, which may end anywhere.
    ///
    /// # Errors
    /// `Memory` if a growth is refused. Every later call of `feed` and `finish` then answers `Memory`
    /// too, and reads nothing.
    pub fn feed(&mut self, piece: &[u8]) -> Result<(), Memory>
        ensures ok { OnOk result ((front : List ℕ) → StandsFor self.old front → StandsFor self.new (front ++ piece.now)) }
        ensures front { OnOk result (self.new.front ≡ fed self.old.front piece.now) }
        ensures err { OnErr result (self.new.failed ≡ true) }
        ensures failed { self.old.failed ≡ true → IfOk result (λ _. ⊥) }
    {
        if self.failed {
            return Err(Memory);
        }
        let mut left = piece;
        while let [byte, others @ ..] = left {
            match self.machine.advance(*byte, others) {
                Ok(rest) => left = rest,
                Err(_) => {
                    self.failed = true;
                    return Err(Memory);
                },
            }
        }
        Ok(())
    }

    /// The references of the sheet whose pieces were fed, in its order.
    ///
    /// # Errors
    /// `Memory` if a `feed` answered it, or a growth is refused.
    pub fn finish(self) -> Result<Vec<Found>, Memory>
        ensures ok { IfOk result (λ found. (sheet : List ℕ) → StandsFor self sheet → found.items ≡ references sheet) }
        ensures front { IfOk result (λ found. found.items ≡ ended self.front) }
        ensures failed { self.failed ≡ true → IfOk result (λ _. ⊥) }
    {
        if self.failed {
            return Err(Memory);
        }
        let Scanner { machine, .. } = self;
        Ok(machine.finish()?)
    }
}

/// The references of a whole sheet, in its order.
///
/// # Errors
/// `Memory` if a growth is refused.
pub fn scan(alloc: Global, sheet: &[u8]) -> Result<Vec<Found>, Memory>
    ensures { IfOk result (λ found. found.items ≡ references sheet.now) }
{
    let mut scanner = Scanner::new(alloc);
    scanner.feed(sheet)?;
    scanner.finish()
}
