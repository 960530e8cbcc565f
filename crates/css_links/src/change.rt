//! What references become.
ghost use Rattle.std.specs.Prelude.{◌≡◌, ℕ, List, Option, IfOk, option_map, string_bytes};

use std::alloc::AllocError;

/// What references become: another text, or the same.
pub trait Change {
    // What a reference of that text becomes; nothing if it stays.
    ghost becomes: { Self → List ℕ → Option (List ℕ) };

    /// What a reference of that text becomes; nothing if it stays. Fails only if memory runs out.
    fn change(&self, text: &str) -> Result<Option<String>, AllocError>
        ensures { IfOk result (λ other. option_map string_bytes other ≡ becomes self.now text.now) };
}
