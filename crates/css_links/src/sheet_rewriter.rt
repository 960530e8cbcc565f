//! A rewriter that is fed a sheet in any pieces.
ghost use Rattle.std.specs.Prelude.{◌≡◌, true, ℕ, List, [], ◌++◌, OnOk, OnErr, IfOk};
ghost use Rattle.css_links.specs.Rewriting.{rewritten};
ghost use Rattle.css_links.specs.Rewriting as rewriting;
ghost use Rattle.css_links.specs.Scanning.{Rewrites, RewriteProgress, rewrite_of};

use crate::change::Change;
use crate::memory::Memory;
use crate::rewriter::Rewriter;
use std::alloc::Global;
use std::fmt;
use std::marker::Model;

/// A rewriter of a style sheet that comes in pieces: `feed` takes each piece in turn, `take` gives what is ready of the new
/// sheet, and `finish` the rest. Each call of `feed` and `finish` is to have the same change.
///
/// It keeps of the sheet the word, string or URL alone that isn't whole yet, and what wasn't taken. Contracts say how far it
/// has come by `Rewrites change rewriter front taken`.
#[derive(Drop)]
pub struct SheetRewriter {
    rewriter: Rewriter,
    failed: bool,
}

// What is held of the sheet isn't shown.
impl fmt::Debug for SheetRewriter {
    fn fmt<W: fmt::Write>(&self, f: &mut fmt::Formatter<W>) -> fmt::Result {
        f.write_str("SheetRewriter { .. }")
    }
}

impl Model for SheetRewriter {
    ghost Value = { RewriteProgress };

    ghost view = { λ s. record { rewrite = rewrite_of s.rewriter; failed = s.failed } };
}

impl SheetRewriter {
    /// A rewriter that was fed nothing yet. It takes no memory; later growth comes from `alloc`.
    pub fn new(alloc: Global) -> Self
        ensures { (change : rewriting.Change) → Rewrites change result [] [] }
    {
        SheetRewriter {
            rewriter: Rewriter::new(alloc),
            failed: false,
        }
    }

    /// Reads the next piece of the sheet, of any length, which may end anywhere.
    ///
    /// # Errors
    /// `Memory` if a growth is refused. Every later call of `feed` and `finish` then answers `Memory` too.
    pub fn feed<C: Change>(&mut self, change: &C, piece: &[u8]) -> Result<(), Memory>
        ensures ok { OnOk result ((sheet taken : List ℕ) → Rewrites (C.becomes change.now) self.old sheet taken → Rewrites (C.becomes change.now) self.new (sheet ++ piece.now) taken) }
        ensures err { OnErr result (self.new.failed ≡ true) }
        ensures failed { self.old.failed ≡ true → IfOk result (λ _. ⊥) }
    {
        if self.failed {
            return Err(Memory);
        }
        match self.rewriter.feed(change, piece) {
            Ok(()) => Ok(()),
            Err(_) => {
                self.failed = true;
                Err(Memory)
            },
        }
    }

    /// What is ready of the new sheet and wasn't taken yet. It takes no memory.
    pub fn take(&mut self) -> Vec<u8>
        ensures { (change : rewriting.Change) (sheet taken : List ℕ) → Rewrites change self.old sheet taken → Rewrites change self.new sheet (taken ++ result.items) }
    {
        self.rewriter.take()
    }

    /// The rest of the new sheet.
    ///
    /// # Errors
    /// `Memory` if a `feed` answered it, or a growth is refused.
    pub fn finish<C: Change>(self, change: &C) -> Result<Vec<u8>, Memory>
        ensures ok { IfOk result (λ rest. (sheet taken : List ℕ) → Rewrites (C.becomes change.now) self sheet taken → taken ++ rest.items ≡ rewritten (C.becomes change.now) sheet) }
        ensures failed { self.failed ≡ true → IfOk result (λ _. ⊥) }
    {
        if self.failed {
            return Err(Memory);
        }
        let SheetRewriter { rewriter, .. } = self;
        Ok(rewriter.finish(change)?)
    }
}
