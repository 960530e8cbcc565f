//! Fields of a line, which are between single spaces.
ghost use Rattle.std.specs.Prelude.{◌≡◌, [], ◌∷◌, MatchOption};
ghost use Rattle.site_inputs.specs.Fields.{fields};

/// The first field of a text, and what follows its space, if there is one. Takes no memory.
pub fn first_field(text: &str) -> (&str, Option<&str>)
    ensures { MatchOption result.1 (fields text.now ≡ result.0.now ∷ []) (λ rest. fields text.now ≡ result.0.now ∷ fields rest.now) }
{
    match text.split_once(' ') {
        Some((field, rest)) => (field, Some(rest)),
        None => (text, None),
    }
}
