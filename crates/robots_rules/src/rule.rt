//! A rule of a robots file (RFC 9309, section 2.2.2).
ghost use Rattle.std.specs.Prelude.{◌≡◌, ◌↔◌, ◌++◌, [], ◌∷◌, ℕ, List, IsTrue, IfOk, IfSome, if◌then◌else◌, map, fold};
ghost use Rattle.robots_rules.specs.Access.{RulesAllow, rules_allow};
ghost use Rattle.robots_rules.specs.Groups.{with_rule};
ghost use Rattle.robots_rules.specs.inner.RuleView.{rule_by};

use crate::pattern::{ends_text, normal_of};
use crate::pieces::{NormalPath, matches_front};
use indexmap::IndexSet;
use std::alloc::{AllocError, Global};
use std::marker::Model;

/// A rule and the parts of its pattern in normal form: those of `/a` are `/a*`, those of `/a$` are `/a`.
#[derive(Drop)]
pub(crate) struct Rule {
    allows: bool,
    ends: bool,
    parts: Vec<u8>,
}

// Contracts see a rule as whether it allows, and its pattern in normal form.
impl Model for Rule {
    ghost use Rattle.robots_rules.specs.Access.{RuleValue};
    ghost use Rattle.robots_rules.specs.inner.RuleView.{AreParts, pattern_with};

    ghost Value = { RuleValue };

    ghost view = { λ rule. record { allows = rule.allows; pattern = pattern_with rule.ends rule.parts.items } };

    ghost invariant = { λ rule. AreParts rule.ends rule.parts.items };
}

impl Rule {
    ghost use Rattle.std.specs.Prelude.{◌≡◌, ◌↔◌, ◌==◌, ◌||◌, ◌&&◌, ◌++◌, ℕ, List, IsTrue, IfOk, IfSome, length};
    ghost use Rattle.robots_rules.specs.Access.{Applies};
    ghost use Rattle.robots_rules.specs.Groups.{rule_of};

    /// The rule that a line with this pattern states.
    pub(crate) fn read(alloc: Global, allows: bool, pattern: &[u8]) -> Result<Rule, AllocError>
        ensures { IfOk result (λ rule. rule ≡ rule_of (record { allows = allows; pattern = pattern.now })) }
    {
        let mut parts = normal_of(alloc, pattern)?;
        let ends = ends_text(&parts);
        if ends {
            parts.pop();
        } else {
            parts.push(b'*')?;
        }
        Ok(Rule {
            allows,
            ends,
            parts,
        })
    }

    /// How many octets the pattern has.
    fn octets(&self) -> usize
        ensures { result ≡ length self.now.pattern }
    {
        if self.ends {
            self.parts.len() + 1
        } else {
            self.parts.len() - 1
        }
    }

    /// What is allowed with this rule, if the rules before it that apply have at most so many octets, and they allow or not.
    fn decides(&self, longest: usize, is_allowed: bool) -> bool
        ensures { result ≡ (self.now.allows || (is_allowed && (length self.now.pattern == longest))) }
    {
        self.allows || is_allowed && self.octets() == longest
    }

    /// Whether the rule speaks of a path in normal form.
    fn applies<T: NormalPath>(&self, path: T) -> bool
        ensures { IsTrue result ↔ Applies (T.octets path) self.now }
    {
        0 < self.octets() && path.is_matched(&self.parts)
    }

    /// Whether the rule speaks of every path in normal form with this front, or of none, `None` if that depends on what follows the front.
    fn applies_to_front(&self, front: &[u8]) -> Option<bool>
        ensures { IfSome result (λ applies. (rest : List ℕ) → IsTrue applies ↔ Applies (front.now ++ rest) self.now) }
    {
        if self.octets() == 0 {
            return Some(false);
        }
        matches_front(&self.parts, front)
    }

    /// What distinguishes rules: whether it allows, and its pattern.
    fn key(&self, alloc: Global) -> Result<(bool, Vec<u8>), AllocError>
        ensures allows { IfOk result (λ key. key.0 ≡ self.now.allows) }
        ensures pattern { IfOk result (λ key. key.1.items ≡ self.now.pattern) }
    {
        let mut pattern = Vec::from_slice(alloc, &self.parts)?;
        if self.ends {
            pattern.push(b'$')?;
        } else {
            pattern.pop();
        }
        Ok((self.allows, pattern))
    }

    pub(crate) fn same(&self, other: &Rule) -> bool
        ensures { IsTrue result ↔ (self.now ≡ other.now) }
    {
        self.allows == other.allows
            && self.ends == other.ends
            && self.parts.as_slice() == other.parts.as_slice()
    }

    pub(crate) fn try_clone(&self, alloc: Global) -> Result<Rule, AllocError>
        ensures { IfOk result (λ copy. copy ≡ self.now) }
    {
        Ok(Rule {
            allows: self.allows,
            ends: self.ends,
            parts: Vec::from_slice(alloc, &self.parts)?,
        })
    }
}

/// Whether no rule applies to a path in normal form, or an allow is among the longest that do.
pub(crate) fn rules_allow<T: NormalPath>(rules: &[Rule], path: T) -> bool
    ensures value { result ≡ rules_allow rules.now (T.octets path) }
    ensures allowed { IsTrue result ↔ RulesAllow rules.now (T.octets path) }
{
    let mut longest = 0;
    let mut is_allowed = true;
    for rule in rules {
        let octets = rule.octets();
        if longest <= octets && rule.applies(path) {
            is_allowed = rule.decides(longest, is_allowed);
            longest = octets;
        }
    }
    is_allowed
}

/// What rules answer for every path in normal form with this front, `None` if a rule has to be compared with what follows the front.
pub(crate) fn rules_allow_front(rules: &[Rule], front: &[u8]) -> Option<bool>
    ensures value { IfSome result (λ allowed. (rest : List ℕ) → allowed ≡ rules_allow rules.now (front.now ++ rest)) }
    ensures allowed { IfSome result (λ allowed. (rest : List ℕ) → IsTrue allowed ↔ RulesAllow rules.now (front.now ++ rest)) }
{
    let mut reached = 0;
    let mut is_allowed = true;
    for rule in rules {
        let octets = rule.octets();
        if reached <= octets && rule.applies_to_front(front)? {
            is_allowed = rule.decides(reached, is_allowed);
            reached = octets;
        }
    }
    Some(is_allowed)
}

/// The rules in their order, without those that have no octets and those that came before already.
pub(crate) fn kept_rules(alloc: Global, rules: Vec<Rule>) -> Result<Vec<Rule>, AllocError>
    ensures { IfOk result (λ kept. kept.items ≡ fold with_rule [] rules.items) }
{
    new_rules(alloc, rules, &mut IndexSet::new(alloc))
}

/// The rules that are kept if none was seen yet. The keys seen are lent, so that only the caller drops them.
fn new_rules(
    alloc: Global,
    rules: Vec<Rule>,
    seen: &mut IndexSet<(bool, Vec<u8>)>,
) -> Result<Vec<Rule>, AllocError>
    requires { seen.old.keys ≡ [] }
    ensures { IfOk result (λ kept. kept.items ≡ fold with_rule [] rules.items) }
{
    let mut kept = Vec::new(alloc);
    for rule in rules {
        if is_new(alloc, seen, &rule)? {
            kept.push(rule)?;
        }
    }
    Ok(kept)
}

/// Whether the rule has octets and its key wasn't seen before; then it is from now on.
fn is_new(
    alloc: Global,
    seen: &mut IndexSet<(bool, Vec<u8>)>,
    rule: &Rule,
) -> Result<bool, AllocError>
    ensures seen { IfOk result (λ is_new. map rule_by seen.new.keys ≡ with_rule (map rule_by seen.old.keys) rule.now) }
    ensures new { IfOk result (λ is_new. with_rule (map rule_by seen.old.keys) rule.now
        ≡ (if is_new then map rule_by seen.old.keys ++ rule.now ∷ [] else map rule_by seen.old.keys)) }
{
    if rule.octets() == 0 {
        return Ok(false);
    }
    Ok(seen.insert(rule.key(alloc)?)?)
}
