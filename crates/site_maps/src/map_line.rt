//! Lines of a map: what each says by itself.
use crate::field::{behind_word, three_digits};
use crate::rule_kind::RuleKind;
use fetcher::{EdgeKind, FIRST_SUCCESS, FaultKind, is_redirect, is_successful};
use site_inputs::first_field;

/// What a line of a map says. Addresses are texts of the line, not read yet.
#[derive(Drop)]
pub(crate) enum MapLine<'a> {
    /// Nothing: the line is empty or a comment.
    Skipped,
    /// A page of this status has this address.
    Page(u16, &'a str),
    /// The page above has an edge of this kind to this address.
    Edge(EdgeKind, &'a str),
    /// The first address redirects to the second, with this status.
    Moved(u16, &'a str, &'a str),
    /// The address has an answer of this status that leads nowhere.
    Leaf(u16, &'a str),
    /// The address has no response, for this reason.
    Fault(FaultKind, &'a str),
    /// The address's origin has the rules of the rule lines below.
    Robots(&'a str),
    /// Nothing is allowed at the address's origin.
    Closed(&'a str),
    /// The origin above has one more rule; this follows its word.
    Rule(RuleKind, &'a str),
}

impl<'a> MapLine<'a> {
    ghost use Rattle.std.specs.Prelude.{◌≡◌, ℕ, List, [], ◌∷◌, MatchOption};
    ghost use Rattle.site_maps.specs.declared.rule_kind.RuleKind.{RuleKind};
    ghost use Rattle.site_maps.specs.RuleLines.{rule_word};
    ghost use Rattle.site_maps.specs.Lines.{Statement, three_digits, IsForm, HasForm, IsBehind, SaysRule};
    ghost use Rattle.site_inputs.specs.Fields.{fields};
    ghost use Rattle.site_maps.specs.inner.Said.{said};

    /// What a line says, or none if it has no form.
    pub(crate) fn of(line: &'a str) -> Option<MapLine<'a>>
        ensures { MatchOption result ((s : Statement) → ¬ HasForm line.now s) (λ s. HasForm line.now (said s)) }
    {
        if line.is_empty() || line.starts_with('#') {
            return Some(MapLine::Skipped);
        }
        match MapLine::of_rule(line) {
            Some(rule) => Some(rule),
            None => MapLine::of_fields(line),
        }
    }

    // What a rule line says.
    fn of_rule(line: &'a str) -> Option<MapLine<'a>>
        ensures { MatchOption result ((kind : RuleKind) (rest : List ℕ) → ¬ IsBehind line.now (rule_word kind) rest) (λ s. SaysRule line.now (said s)) }
    {
        if let Some(rest) = behind_word(line, "allow") {
            return Some(MapLine::Rule(RuleKind::Allow, rest));
        }
        if let Some(rest) = behind_word(line, "disallow") {
            return Some(MapLine::Rule(RuleKind::Disallow, rest));
        }
        None
    }

    // What the fields of a line say.
    fn of_fields(line: &'a str) -> Option<MapLine<'a>>
        ensures { MatchOption result ((s : Statement) → ¬ IsForm (fields line.now) s) (λ s. IsForm (fields line.now) (said s)) }
    {
        let (word, Some(rest)) = first_field(line) else {
            return None;
        };
        match first_field(rest) {
            (text, None) => MapLine::of_two(word, text),
            (number, Some(rest)) => match first_field(rest) {
                (text, None) => MapLine::of_three(word, number, text),
                (text, Some(rest)) => match first_field(rest) {
                    (target, None) => MapLine::of_four(word, number, text, target),
                    (_, Some(_)) => None,
                },
            },
        }
    }

    // What two fields say: an edge, or an origin's rules.
    fn of_two(word: &str, text: &'a str) -> Option<MapLine<'a>>
        ensures { let fs = word.now ∷ text.now ∷ [] in MatchOption result ((s : Statement) → ¬ IsForm fs s) (λ s. IsForm fs (said s)) }
    {
        match word {
            "link" => Some(MapLine::Edge(EdgeKind::Link, text)),
            "inline" => Some(MapLine::Edge(EdgeKind::Inline, text)),
            "robots" => Some(MapLine::Robots(text)),
            _ => None,
        }
    }

    // What three fields say: an answer with a status, a fault, or an origin that is closed.
    fn of_three(word: &str, second: &'a str, third: &'a str) -> Option<MapLine<'a>>
        ensures { let fs = word.now ∷ second.now ∷ third.now ∷ [] in MatchOption result ((s : Statement) → ¬ IsForm fs s) (λ s. IsForm fs (said s)) }
    {
        match word {
            "page" => match three_digits(second) {
                Some(status) if is_successful(status) => Some(MapLine::Page(status, third)),
                _ => None,
            },
            "leaf" => match three_digits(second) {
                Some(status) if FIRST_SUCCESS <= status => Some(MapLine::Leaf(status, third)),
                _ => None,
            },
            "fault" => match FaultKind::of_word(second) {
                Some(kind) => Some(MapLine::Fault(kind, third)),
                None => None,
            },
            "robots" if third == "none" => Some(MapLine::Closed(second)),
            _ => None,
        }
    }

    // What four fields say: a redirect.
    fn of_four(word: &str, number: &str, text: &'a str, target: &'a str) -> Option<MapLine<'a>>
        ensures { let fs = word.now ∷ number.now ∷ text.now ∷ target.now ∷ [] in MatchOption result ((s : Statement) → ¬ IsForm fs s) (λ s. IsForm fs (said s)) }
    {
        if word != "moved" {
            return None;
        }
        match three_digits(number) {
            Some(status) if is_redirect(status) => Some(MapLine::Moved(status, text, target)),
            _ => None,
        }
    }
}
