//! Lines of the hops of a chain: what each says by itself.
ghost use Rattle.std.specs.Prelude.{◌≡◌, ℕ, List, [], ◌∷◌, MatchOption};
ghost use Rattle.site_inputs.specs.Fields.{fields};
ghost use Rattle.site_records.specs.EntryLines.{HopStatement, IsHopForm};
ghost use Rattle.site_records.specs.inner.Said.{said_hop};

use crate::entry_line::{length_of, three_fields};
use fetcher::FaultKind;

/// What the line of a hop says. The address is a text of the line, not read yet.
#[derive(Drop)]
pub(crate) enum HopLine<'a> {
    /// The response of this address has this many bytes.
    Whole(&'a str, usize),
    /// The address has no response, for this reason.
    Failed(FaultKind, &'a str),
}

impl<'a> HopLine<'a> {
    /// What a line says of a hop, or none if it has no such form.
    pub(crate) fn of(line: &'a str) -> Option<HopLine<'a>>
        ensures { MatchOption result ((s : HopStatement) → ¬ IsHopForm (fields line.now) s) (λ s. IsHopForm (fields line.now) (said_hop s)) }
    {
        let (word, second, third) = three_fields(line)?;
        HopLine::of_three(word, second, third)
    }

    // What three fields say of a hop.
    fn of_three(word: &str, second: &'a str, third: &'a str) -> Option<HopLine<'a>>
        ensures { let fs = word.now ∷ second.now ∷ third.now ∷ [] in MatchOption result ((s : HopStatement) → ¬ IsHopForm fs s) (λ s. IsHopForm fs (said_hop s)) }
    {
        match word {
            "hop" => match length_of(third) {
                Some(count) => Some(HopLine::Whole(second, count)),
                None => None,
            },
            "hopfault" => match FaultKind::of_word(second) {
                Some(kind) => Some(HopLine::Failed(kind, third)),
                None => None,
            },
            _ => None,
        }
    }
}
