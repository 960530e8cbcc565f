//! The parts of a pattern, and the texts that they match.
ghost use Rattle.std.specs.Prelude.{◌≡◌, map, IfOk};

use crate::elements::ElementFault;
use crate::pattern::PatternPart;
use crate::spelling::{read_parts, spelled_parts};
use part_match::Text;
use std::alloc::{AllocError, Global};
use std::marker::Model;

// A part of which letters match in either case.
#[derive(Drop)]
struct AnyCase {
    part: PatternPart,
}

impl part_match::Part for AnyCase {
    ghost use Rattle.follow_filters.specs.Patterns.{is_run, takes_any_case};

    ghost is_run = { λ any. is_run any.part };

    ghost takes = { λ any byte. takes_any_case any.part byte };

    fn is_run(&self) -> bool {
        matches!(self.part, PatternPart::Run)
    }

    #[tactic(auto, unfolding(crate::specs::Patterns::takes_any_case))]
    fn takes(&self, byte: u8) -> bool {
        match &self.part {
            PatternPart::Run => false,
            PatternPart::Any => true,
            PatternPart::Byte(wanted) => byte.to_ascii_lowercase() == wanted.to_ascii_lowercase(),
            PatternPart::Class(class) => class.takes_any_case(byte),
        }
    }
}

/// The parts of a pattern. They are there twice, so that a match takes no memory whether the case of
/// letters counts or not.
#[derive(Drop)]
pub(crate) struct Parts {
    exact: Vec<PatternPart>,
    any_case: Vec<AnyCase>,
}

// Contracts see the parts as a list.
impl Model for Parts {
    ghost use Rattle.std.specs.Prelude.{◌≡◌, List, map};
    ghost use Rattle.follow_filters.specs.declared.pattern.PatternPart.{PatternPart};

    ghost Value = { List PatternPart };

    ghost view = { λ p. p.exact.items };

    ghost invariant = { λ p. map (λ any. any.part) p.any_case.items ≡ p.exact.items };
}

impl Parts {
    ghost use Rattle.std.specs.Prelude.{◌≡◌, Some, IfOk, MatchResult};
    ghost use Rattle.part_match.specs.Cuts.{is_match};
    ghost use Rattle.follow_filters.specs.Elements.{IsFaultOf};
    ghost use Rattle.follow_filters.specs.Patterns.{is_run, takes_in, read_pattern, parts_spelled};

    /// The parts of an element of patterns of file names; `Bad` if a class is bad.
    pub(crate) fn read(alloc: Global, element: &[u8]) -> Result<Parts, ElementFault>
        ensures { MatchResult result (λ parts. read_pattern element.now ≡ Some parts) (IsFaultOf (read_pattern element.now)) }
    {
        let exact = read_parts(alloc, element)?;
        let again = read_parts(alloc, element)?;
        Ok(Parts::of(alloc, exact, again)?)
    }

    /// The parts that a text spells; `Bad` if a class is bad.
    pub(crate) fn spelled(alloc: Global, text: &[u8]) -> Result<Parts, ElementFault>
        ensures { MatchResult result (λ parts. parts_spelled text.now ≡ Some parts) (IsFaultOf (parts_spelled text.now)) }
    {
        let exact = spelled_parts(alloc, text)?;
        let again = spelled_parts(alloc, text)?;
        Ok(Parts::of(alloc, exact, again)?)
    }

    // These parts, which were read twice.
    fn of(
        alloc: Global,
        exact: Vec<PatternPart>,
        again: Vec<PatternPart>,
    ) -> Result<Parts, AllocError>
        requires { again.items ≡ exact.items }
        ensures { IfOk result (λ parts. parts ≡ exact.items) }
    {
        let any_case = in_any_case(alloc, again)?;
        Ok(Parts { exact, any_case })
    }

    /// Whether the parts match the text, one piece each. Takes no memory, and time linear in the text.
    pub(crate) fn matches<T: Text>(&self, text: T, ignores_case: bool) -> bool
        ensures { result ≡ is_match is_run (takes_in ignores_case) self.now (T.octets text) }
    {
        if ignores_case {
            part_match::matches(self.any_case.as_slice(), text)
        } else {
            part_match::matches(self.exact.as_slice(), text)
        }
    }
}

fn in_any_case(alloc: Global, parts: Vec<PatternPart>) -> Result<Vec<AnyCase>, AllocError>
    ensures { IfOk result (λ any_case. map (λ any. any.part) any_case.items ≡ parts.items) }
{
    let mut any_case = Vec::new(alloc);
    for part in parts {
        any_case.push(AnyCase { part })?;
    }
    Ok(any_case)
}
