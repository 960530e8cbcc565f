//! The parts of a pattern, and the texts that they match.
ghost use Rattle.std.specs.Prelude.{◌≡◌, ◌==◌, ◌∷◌, [], ℕ, Bool, List, MatchOption};

/// A part of a pattern: a run takes any piece of the text, any other part takes one octet.
pub trait Part {
    ghost is_run: { Self → Bool };

    ghost takes: { Self → ℕ → Bool };

    /// Whether the part takes any piece, the empty one too.
    fn is_run(&self) -> bool
        ensures { result ≡ is_run self.now };

    /// Whether a part that is no run takes the octet. What a run answers here counts for nothing.
    fn takes(&self, octet: u8) -> bool
        ensures { result ≡ takes self.now octet };
}

/// An octet of a pattern that has `*` and nothing else of its own: `*` is a run, every other octet takes itself.
impl Part for u8 {
    ghost is_run = { λ octet. octet == 42 };

    ghost takes = { λ wanted octet. octet == wanted };

    fn is_run(&self) -> bool {
        *self == b'*'
    }

    fn takes(&self, octet: u8) -> bool {
        octet == *self
    }
}

/// A text that is read octet by octet, and can be read again from any place that was reached.
pub trait Text: Copy {
    ghost octets: { Self → List ℕ };

    /// The first octet and the text after it, or `None` at the end.
    fn split_first(self) -> Option<(u8, Self)>
        ensures { MatchOption result (octets self ≡ []) (λ x. octets self ≡ x.0 ∷ octets x.1) };
}

impl Text for &[u8] {
    ghost octets = { λ text. text.now };

    fn split_first(self) -> Option<(u8, Self)> {
        match self {
            [first, behind @ ..] => Some((*first, behind)),
            [] => None,
        }
    }
}
