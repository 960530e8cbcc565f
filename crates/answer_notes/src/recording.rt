//! Fetchers that may have notes of what they received.
ghost use Rattle.std.specs.Prelude.{◌≡◌, List};
ghost use Rattle.answer_notes.specs.declared.noted.Noted.{Noted};

use crate::noted::Noted;
use fetcher::{Body, Fetcher};

/// Asks as any fetcher does, and may note what it receives, so that this can be saved.
pub trait Recording: Fetcher<Body = Body> {
    /// What was noted, in order.
    ghost noted: { Self → List Noted };

    /// What was noted, in order. Takes no memory.
    fn notes(&self) -> &[Noted]
        ensures { result.now ≡ noted self.now };
}
