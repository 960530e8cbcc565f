//! References that were found.
ghost use Rattle.std.specs.Prelude.{ℕ, List, string_bytes};

use std::marker::Model;

/// A reference of a style sheet: its text, with escapes replaced, not yet joined to a base. Contracts see its bytes.
#[derive(Debug, Drop)]
pub struct Found {
    /// The text, neither joined nor checked. It isn't empty.
    pub text: String,
}

impl Model for Found {
    ghost Value = { List ℕ };

    ghost view = { λ f. string_bytes f.text };
}
