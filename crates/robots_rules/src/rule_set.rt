//! The rules of one origin that speak to this agent (RFC 9309, section 2.2).
ghost use Rattle.std.specs.Prelude.{◌≡◌, ◌↔◌, ℕ, List, IsTrue, IfOk};
ghost use Rattle.robots_rules.specs.Access.{IsAllowed, RulesAllow, rules_allow};
ghost use Rattle.robots_rules.specs.Octets.{normal_path};
ghost use Rattle.robots_rules.specs.Groups.{AreGroups, groups_of, rules_in, stated_in};
ghost use Rattle.robots_rules.specs.Lines.{lines_in};

use crate::groups::rules_for_us;
use crate::lines::lines_in;
use crate::octets::{NormalText, split_normal, write_path};
use crate::rule::{Rule, kept_rules, rules_allow, rules_allow_front};
use std::alloc::{AllocError, Global};
use std::marker::Model;

/// The rules of an origin: everything is allowed, nothing is, or what the rules of its robots file say.
pub struct RuleSet {
    kept: KeptRules,
}

// By hand: who drops one proves a call, and nothing of what it holds.
impl Drop for RuleSet {
    fn drop(self) {
        let RuleSet { kept: _kept } = self;
    }
}

#[derive(Drop)]
enum KeptRules {
    All,
    Nothing,
    Rules(Vec<Rule>),
}

// Contracts see a rule set as whether all is refused, and its rules in the order of the file.
impl Model for RuleSet {
    ghost use Rattle.robots_rules.specs.Access.{RuleSetValue};
    ghost use Rattle.robots_rules.specs.RuleSetView.{rule_set_value_of};

    ghost Value = { RuleSetValue };

    ghost view = { λ set. rule_set_value_of set.kept };
}

/// What a robots file says to this agent, `wget` (RFC 9309, section 2.2). Only the first 512,000 bytes of the file are used; if it is longer and they
/// do not end with a line end, their last line is passed over. Rules that change no answer aren't kept. No file is refused: the only error is that
/// memory ran out.
pub fn parse(alloc: Global, file: &[u8]) -> Result<RuleSet, AllocError>
    ensures rules { IfOk result (λ set. set ≡ rules_in file.now) }
    // a rule that isn't kept changes no answer
    ensures stated { IfOk result (λ set. (path : List ℕ) → IsAllowed set path ↔ RulesAllow (stated_in file.now) (normal_path path)) }
    // the groups of the file's lines, of which `rules_in` speaks
    ensures groups { let lines = lines_in file.now in AreGroups lines (groups_of lines) }
{
    let lines = lines_in(alloc, file)?;
    let stated = rules_for_us(alloc, &lines)?;
    let rules = kept_rules(alloc, stated)?;
    Ok(RuleSet {
        kept: KeptRules::Rules(rules),
    })
}

impl RuleSet {
    ghost use Rattle.std.specs.Prelude.{◌≡◌, ◌↔◌, ℕ, List, [], true, false, IsTrue, IfOk};
    ghost use Rattle.robots_rules.specs.Access.{IsAllowed, is_allowed};

    /// The rules of an origin without a robots file: everything is allowed (section 2.3.1.3).
    pub fn all() -> RuleSet
        ensures value { result ≡ record { closed = false; rules = [] } }
        ensures allows { (path : List ℕ) → IsAllowed result path }
    {
        RuleSet {
            kept: KeptRules::All,
        }
    }

    /// The rules of an origin whose robots file can't be had: nothing is allowed (section 2.3.1.4).
    pub fn none() -> RuleSet
        ensures value { result ≡ record { closed = true; rules = [] } }
        ensures refuses { (path : List ℕ) → ¬ IsAllowed result path }
    {
        RuleSet {
            kept: KeptRules::Nothing,
        }
    }

    /// Whether this agent may request a path with its query, such as `/a?b`. The longest rule that matches decides, an allow at a tie (section
    /// 2.2.2). It takes no memory.
    pub fn allows(&self, path_query: &str) -> bool
        ensures value { result ≡ is_allowed self.now path_query.now }
        ensures allowed { IsTrue result ↔ IsAllowed self.now path_query.now }
    {
        if self.is_closed() {
            return false;
        }
        let rules = self.rules();
        if rules.is_empty() {
            return true;
        }
        let (front, rest) = split_normal(path_query);
        if rest.is_empty() {
            rules_allow(rules, front)
        } else if path_query.len() <= SHORT_PATH {
            short_is_allowed(rules, path_query)
        } else {
            match rules_allow_front(rules, front) {
                Some(is_allowed) => is_allowed,
                None => long_is_allowed(rules, path_query),
            }
        }
    }

    /// Whether both have the same rules in the same order, or both allow everything or nothing outright.
    pub fn same(&self, other: &RuleSet) -> bool
        ensures same { IsTrue result ↔ (self.now ≡ other.now) }
    {
        self.is_closed() == other.is_closed() && same_rules(self.rules(), other.rules())
    }

    /// An equal rule set, or an error if memory ran out.
    pub fn try_clone(&self, alloc: Global) -> Result<RuleSet, AllocError>
        ensures copy { IfOk result (λ copy. copy ≡ self.now) }
    {
        let kept = match &self.kept {
            KeptRules::All => KeptRules::All,
            KeptRules::Nothing => KeptRules::Nothing,
            KeptRules::Rules(rules) => KeptRules::Rules(copies_of(alloc, rules)?),
        };
        Ok(RuleSet { kept })
    }

    fn is_closed(&self) -> bool
        ensures { result ≡ self.now.closed }
    {
        matches!(self.kept, KeptRules::Nothing)
    }

    fn rules(&self) -> &[Rule]
        ensures { result.now ≡ self.now.rules }
    {
        match &self.kept {
            KeptRules::All | KeptRules::Nothing => &[],
            KeptRules::Rules(rules) => rules,
        }
    }
}

/// The longest path that is brought into normal form in a small buffer.
const SHORT_PATH: usize = 256;

/// The longest path that is brought into normal form in a buffer at all: that of an address of 8,192 bytes.
const LONG_PATH: usize = 8_192;

// A function pays for its buffer where it begins, so each buffer has a function to itself. The large one is used only if a rule has to be compared with the path
// after its front in normal form.
#[inline(never)]
fn short_is_allowed(rules: &[Rule], path: &str) -> bool
    ensures value { result ≡ rules_allow rules.now (normal_path path.now) }
    ensures allowed { IsTrue result ↔ RulesAllow rules.now (normal_path path.now) }
{
    is_allowed_by(rules, path, &mut [0; 3 * SHORT_PATH])
}

#[inline(never)]
fn long_is_allowed(rules: &[Rule], path: &str) -> bool
    ensures value { result ≡ rules_allow rules.now (normal_path path.now) }
    ensures allowed { IsTrue result ↔ RulesAllow rules.now (normal_path path.now) }
{
    is_allowed_by(rules, path, &mut [0; 3 * LONG_PATH])
}

/// Whether the rules allow a path, whose normal form is written into the buffer if it fits.
fn is_allowed_by(rules: &[Rule], path: &str, buffer: &mut [u8]) -> bool
    ensures value { result ≡ rules_allow rules.now (normal_path path.now) }
    ensures allowed { IsTrue result ↔ RulesAllow rules.now (normal_path path.now) }
{
    match write_path(buffer, path) {
        Some(len) => rules_allow(rules, &buffer[..len]),
        None => rules_allow(rules, NormalText::path(path)),
    }
}

/// A copy of each rule, in their order.
fn copies_of(alloc: Global, rules: &[Rule]) -> Result<Vec<Rule>, AllocError>
    ensures { IfOk result (λ copies. copies.items ≡ rules.now) }
{
    let mut copies = Vec::new(alloc);
    for rule in rules {
        copies.push(rule.try_clone(alloc)?)?;
    }
    Ok(copies)
}

fn same_rules(rules: &[Rule], others: &[Rule]) -> bool
    ensures { IsTrue result ↔ (rules.now ≡ others.now) }
{
    if rules.len() != others.len() {
        return false;
    }
    for (i, rule) in rules.iter().enumerate() {
        if !rule.same(&others[i]) {
            return false;
        }
    }
    true
}
