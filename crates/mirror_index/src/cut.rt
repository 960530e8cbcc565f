//! A text that is cut at a byte.
ghost use Rattle.std.specs.Prelude.{◌≡◌, ◌++◌, ◌∷◌, MatchOption};
ghost use Rattle.mirror_index.specs.Cuts.{Lacks};

use memchr::memchr;

/// What is before the first such byte, and what is after it.
pub(crate) fn cut_at(byte: u8, text: &[u8]) -> Option<(&[u8], &[u8])>
    ensures { MatchOption result (Lacks byte text.now) (λ parts. Lacks byte parts.0.now × (text.now ≡ parts.0.now ++ byte ∷ parts.1.now)) }
{
    match memchr(byte, text) {
        Some(at) => Some((&text[..at], &text[at + 1..])),
        None => None,
    }
}
