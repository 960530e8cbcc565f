//! URLs that were found.
ghost use Rattle.std.specs.Prelude.{ℕ, List, string_bytes};

use std::marker::Model;

/// A URL of a source set, not yet joined to a base. Contracts see its bytes.
#[derive(Debug, Drop)]
pub struct FoundSource {
    /// The text, neither joined nor checked.
    pub text: String,
}

impl Model for FoundSource {
    ghost Value = { List ℕ };

    ghost view = { λ f. string_bytes f.text };
}
