//! The groups of a robots file that speak to this agent (RFC 9309, section 2.2.1).
ghost use Rattle.std.specs.Prelude.{◌≡◌, ◌++◌, ◌∷◌, [], IfOk, map, not, position};
ghost use Rattle.std.specs.List.{before_first, list_any};
ghost use Rattle.robots_rules.specs.Lines.{is_blank};
ghost use Rattle.robots_rules.specs.Groups.{groups_of, is_in_token, names_all, names_us, rule_of, rules_for_us, rules_naming, token_of};
ghost use Rattle.robots_rules.specs.inner.LineView.{line_value};
ghost use Rattle.robots_rules.specs.inner.AudienceView.{audience_by, names_one};

use crate::lines::{Line, is_blank, is_word};
use crate::rule::Rule;
use std::alloc::{AllocError, Global};

/// Whose groups count: those that name this agent, or those that name every agent.
#[derive(Clone, Copy)]
pub(crate) enum Audience {
    ThisAgent,
    EveryAgent,
}

/// The rules of all groups that name this agent, or if there is none, of all that name every agent.
pub(crate) fn rules_for_us(alloc: Global, lines: &[Line<'_>]) -> Result<Vec<Rule>, AllocError>
    ensures { IfOk result (λ rules.
        rules.items ≡ map rule_of (rules_for_us (groups_of (map line_value lines.now)).groups)) }
{
    rules_naming(alloc, lines, audience_of(lines))
}

/// This agent, if a group names it, or every agent.
pub(crate) fn audience_of(lines: &[Line<'_>]) -> Audience
    ensures { result ≡ audience_by (groups_of (map line_value lines.now)).groups }
{
    if names_this_agent(lines) {
        Audience::ThisAgent
    } else {
        Audience::EveryAgent
    }
}

/// Whether a group names this agent.
fn names_this_agent(lines: &[Line<'_>]) -> bool
    ensures { result ≡ list_any (λ group. list_any names_us group.agents) (groups_of (map line_value lines.now)).groups }
{
    for line in lines {
        match *line {
            Line::Agent(value) => {
                if names_us(value) {
                    return true;
                }
            }
            Line::Rule { .. } => {}
        }
    }
    false
}

/// The rules of all groups with a user agent of this audience.
fn rules_naming(
    alloc: Global,
    lines: &[Line<'_>],
    audience: Audience,
) -> Result<Vec<Rule>, AllocError>
    ensures { IfOk result (λ rules.
        rules.items ≡ map rule_of (rules_naming (names_one audience) (groups_of (map line_value lines.now)).groups)) }
{
    let mut rules = Vec::new(alloc);
    let mut is_ours = false;
    let mut is_behind_rule = true;
    for line in lines {
        match *line {
            Line::Agent(value) => {
                is_ours = names_one(audience, value) || !is_behind_rule && is_ours;
                is_behind_rule = false;
            }
            Line::Rule { allows, pattern } => {
                if is_ours {
                    push_rule(&mut rules, alloc, allows, pattern)?;
                }
                is_behind_rule = true;
            }
        }
    }
    Ok(rules)
}

/// Puts the rule last that a line with this pattern states.
fn push_rule(
    rules: &mut Vec<Rule>,
    alloc: Global,
    allows: bool,
    pattern: &[u8],
) -> Result<(), AllocError>
    ensures { IfOk result (λ _. rules.new.items ≡ rules.old.items ++ rule_of (record { allows = allows; pattern = pattern.now }) ∷ []) }
{
    rules.push(Rule::read(alloc, allows, pattern)?)?;
    Ok(())
}

pub(crate) fn names_one(audience: Audience, value: &[u8]) -> bool
    ensures { result ≡ names_one audience value.now }
{
    match audience {
        Audience::ThisAgent => names_us(value),
        Audience::EveryAgent => names_all(value),
    }
}

/// Whether the value of a user-agent line names every agent.
fn names_all(value: &[u8]) -> bool
    ensures { result ≡ names_all value.now }
{
    first_word(value) == b"*".as_slice()
}

/// Whether the value of a user-agent line names this agent.
fn names_us(value: &[u8]) -> bool
    ensures { result ≡ names_us value.now }
{
    !names_all(value) && is_word(b"wget", token(value))
}

fn first_word(value: &[u8]) -> &[u8]
    ensures { result.now ≡ before_first is_blank value.now }
{
    match first_blank(value) {
        Some(end) => &value[..end],
        None => value,
    }
}

fn first_blank(value: &[u8]) -> Option<usize>
    ensures { result ≡ position is_blank value.now }
{
    value.iter().position(|octet| is_blank(*octet))
}

/// The product token at the front of a value.
fn token(value: &[u8]) -> &[u8]
    ensures { result.now ≡ token_of value.now }
{
    match behind_token(value) {
        Some(end) => &value[..end],
        None => value,
    }
}

fn behind_token(value: &[u8]) -> Option<usize>
    ensures { result ≡ position (λ octet. not (is_in_token octet)) value.now }
{
    value.iter().position(|octet| !is_in_token(*octet))
}

fn is_in_token(octet: u8) -> bool
    ensures { result ≡ is_in_token octet }
{
    octet.is_ascii_alphabetic() || octet == b'-' || octet == b'_'
}
