//! The expressions that are looked for in addresses (GNU Wget manual, section Types of Files).
ghost use Rattle.std.specs.Prelude.{◌≡◌, ◌⊎◌, ◌∷◌, [], IfOk, MatchResult, Some, None, codes, is_some, option_map, string_bytes, true};
ghost use Rattle.clap.specs.Words.{found_of, rows_of};
ghost use Rattle.expressions.specs.Expressions.{IsFaultOf, read_element};
ghost use Rattle.options.specs.Asked.{without_kind};
ghost use Rattle.options.specs.Order.{expressions_of, seeks};
ghost use Rattle.options.specs.Sought.{IsUnsaid, cased, expressions_by, is_type};
ghost use Rattle.options.specs.declared.fault.LineFault.TheVariants as fault;
ghost use Rattle.options.specs.inner.Sought.{IsFaultOfValue};

use crate::fault::LineFault;
use crate::given::{given, is_set};
use crate::proxying::unless_empty;
use clap::ArgMatches;
use follow_filters::{Elements, Expression, ExpressionFault};
use std::alloc::{AllocError, Global};

// How a text begins that is read for either case.
const ANY_CASE: &str = "(?i)";

/// The expression that is found in what is followed, and the one that isn't: at most one of each.
#[derive(Drop)]
pub(crate) struct Sought {
    pub(crate) accepted: Elements<Expression>,
    pub(crate) rejected: Elements<Expression>,
}

/// Whether the value is one that `--regex-type` may have.
pub(crate) fn is_type(value: Option<&str>) -> bool
    ensures { result ≡ is_type (option_map (λ s. s.now) value.entry) }
{
    match value {
        Some(value) => value == "posix" || value == "pcre",
        None => true,
    }
}

// The text that is read for an expression.
fn cased(alloc: Global, ignores_case: bool, text: &str) -> Result<String, AllocError>
    ensures { IfOk result (λ read. string_bytes read ≡ cased ignores_case text.now) }
{
    if ignores_case {
        return format!(in alloc; "{ANY_CASE}{text}");
    }
    String::from_str(alloc, text)
}

// Why a value is no expression, by why what was read for it is none: the place is one in the value.
fn fault_by(read: &str, why: ExpressionFault, ignores_case: bool) -> LineFault
    requires { IsFaultOf read.now why }
    ensures { IsFaultOfValue (read_element read.now) result }
{
    // Named by the contract alone: what was refused.
    let _ = read;
    let front = if ignores_case { ANY_CASE.len() } else { 0 };
    match why {
        ExpressionFault::Bad(at) => LineFault::Expression(at.saturating_sub(front)),
        ExpressionFault::Large => LineFault::LargeExpression,
        ExpressionFault::Memory => LineFault::Memory,
    }
}

// The expression of a text.
fn read_text(
    alloc: Global,
    ignores_case: bool,
    text: &str,
) -> Result<Elements<Expression>, LineFault>
    ensures { MatchResult result (λ es. expressions_by ignores_case (Some text.now) ≡ Some es)
        (λ f. ((without_kind f ≡ fault.Expression 0) × (expressions_by ignores_case (Some text.now) ≡ None)) ⊎ IsUnsaid true f) }
{
    let Ok(text) = cased(alloc, ignores_case, text) else {
        return Err(LineFault::Memory);
    };
    match Expression::read(alloc, text.as_str()) {
        Ok(expression) => one(alloc, expression),
        Err(why) => Err(fault_by(text.as_str(), why, ignores_case)),
    }
}

// This expression alone.
fn one(alloc: Global, expression: Expression) -> Result<Elements<Expression>, LineFault>
    ensures { MatchResult result (λ es. es ≡ expression ∷ []) (λ f. f ≡ fault.Memory) }
{
    let mut items = Vec::new(alloc);
    match items.push(expression) {
        Ok(()) => Ok(Elements::of(items)),
        Err(_) => Err(LineFault::Memory),
    }
}

// The expression of an option's value, if there is one.
fn read_value(
    alloc: Global,
    ignores_case: bool,
    value: Option<&str>,
) -> Result<Elements<Expression>, LineFault>
    ensures { MatchResult result (λ es. expressions_by ignores_case (option_map (λ s. s.now) value.entry) ≡ Some es)
        (λ f. ((without_kind f ≡ fault.Expression 0) × (expressions_by ignores_case (option_map (λ s. s.now) value.entry) ≡ None)) ⊎ IsUnsaid (is_some (option_map (λ s. s.now) value.entry)) f) }
{
    match value {
        Some(text) => read_text(alloc, ignores_case, text),
        None => Ok(Elements::none(alloc)),
    }
}

/// The expressions of `--accept-regex` and `--reject-regex`. The fault is that of the first that is none.
#[tactic(auto, unfolding(crate::specs::Order::expressions_of, crate::specs::Order::seeks))]
pub(crate) fn read_sought(alloc: Global, matches: &ArgMatches) -> Result<Sought, LineFault>
    ensures { MatchResult result (λ s. expressions_of (rows_of (found_of matches.now)) ≡ Some (s.accepted, s.rejected))
        (λ f. ((without_kind f ≡ fault.Expression 0) × (expressions_of (rows_of (found_of matches.now)) ≡ None)) ⊎ IsUnsaid (seeks (rows_of (found_of matches.now))) f) }
{
    let ignores_case = is_set(matches, "ignore-case");
    let accepted = read_value(
        alloc,
        ignores_case,
        unless_empty(given(matches, "accept-regex")),
    )?;
    let rejected = read_value(
        alloc,
        ignores_case,
        unless_empty(given(matches, "reject-regex")),
    )?;
    Ok(Sought { accepted, rejected })
}
