//! An expression, as it is read.
ghost use Rattle.std.specs.Prelude.{◌≡◌, MatchResult, IfOk, IsCharBoundary, Some, bytes_eq};
ghost use Rattle.std.specs.Cmp.{partial_equiv_from_equiv};
ghost use Rattle.std.specs.Cmp.Lexicographic.{nat_list_eq_equiv};
ghost use Rattle.regex_syntax.specs.Verdict.{Refuses};

use crate::needles::may_have;
use crate::order::in_order;
use crate::search::MOST_STATES;
use crate::table::{Table, searched, table_of};
use regex_extract::Needles;
use regex_hir::Hir;
use regex_nfa::Nfa;
use regex_syntax::{Config, ErrorKind, Parsed};
use std::alloc::{AllocError, Global};
use std::marker::Model;

// The most bytes of an automaton's tables.
const MOST_BYTES: usize = 1 << 20;

/// Why a text is no expression that can be used.
#[derive(Clone, Copy, PartialEq, Eq, Debug)]
pub enum ExpressionFault {
    /// The text breaks the grammar at this byte.
    Bad(usize),
    /// The expression would cost too much: more than 1,024 states, or groups that are nested too deep.
    Large,
    /// There was no memory to hold it.
    Memory,
}

impl From<AllocError> for ExpressionFault {
    ghost use Rattle.std.specs.Prelude.{◌≡◌};
    ghost use Rattle.expressions.specs.declared.expression.ExpressionFault.TheVariants.{Memory};

    ghost from_gives = { λ e fault. fault ≡ Memory };

    fn from(_error: AllocError) -> ExpressionFault {
        ExpressionFault::Memory
    }
}

// What a text is compiled to: an automaton, and texts of which each match has one, if such are known.
#[derive(Drop)]
struct Automaton {
    nfa: Nfa,
    needles: Option<Needles>,
}

/// A regular expression.
#[derive(Drop)]
pub struct Expression {
    text: String,
    nfa: Nfa,
    order: Vec<u32>,
    needles: Option<Needles>,
    table: Option<Table>,
}

// Contracts see an expression as its text.
impl Model for Expression {
    ghost use Rattle.std.specs.Prelude.{◌≤◌, List, ℕ, IfSome, vec_len};
    ghost use Rattle.std.specs.String.{string_bytes};
    ghost use Rattle.expressions.specs.inner.Accepting.{IsCompiled};
    ghost use Rattle.expressions.specs.inner.Needles.{NeedsSome};
    ghost use Rattle.expressions.specs.inner.Order.{IsOrder};
    ghost use Rattle.expressions.specs.inner.Tables.{IsTable};
    ghost use Rattle.expressions.specs.declared.search.TheConstants.{MOST_STATES};

    ghost Value = { List ℕ };

    ghost view = { λ e. string_bytes e.text };

    ghost invariant = { λ e. IsCompiled (string_bytes e.text) e.nfa × IsOrder e.nfa e.order.items × (vec_len e.nfa.states ≤ MOST_STATES) × NeedsSome e.nfa e.needles × IfSome e.table (IsTable e.nfa) };
}

ghost use Rattle.regex_compile.specs.Implements.{Implements};
ghost use Rattle.regex_hir.specs.Meaning.{meaning};
ghost use Rattle.expressions.specs.Expressions.{byte_config, is_found, read_element, IsFoundIn, IsFaultOf};
ghost use Rattle.expressions.specs.inner.Accepting.{IsCompiled};
ghost use Rattle.expressions.specs.inner.Needles.{NeedsSome};

// How a text is read: letters, digits and white space are those of ASCII, as addresses are.
fn byte_config() -> Config
    ensures { result ≡ byte_config }
{
    let mut config = Config::default();
    config.flags.unicode = false;
    config.utf8 = false;
    config
}

// The automaton of a tree, and what it needs.
fn compiled_tree(alloc: Global, hir: &Hir, groups: u32) -> Result<Automaton, ExpressionFault>
    ensures { MatchResult result (λ c. Implements c.nfa (meaning hir.now) × NeedsSome c.nfa c.needles) IsNoSyntax }
{
    let needles = regex_extract::required(alloc, hir)?;
    match regex_compile::compile(alloc, hir, groups, MOST_BYTES) {
        Ok(nfa) => Ok(Automaton { nfa, needles }),
        Err(regex_compile::Error::OutOfMemory) => Err(ExpressionFault::Memory),
        Err(_) => Err(ExpressionFault::Large),
    }
}

ghost use Rattle.expressions.specs.Expressions.{IsNoSyntax};

// The automaton of the text, and what it needs.
fn compiled(alloc: Global, text: &str) -> Result<Automaton, ExpressionFault>
    ensures { MatchResult result (λ c. IsCompiled text.now c.nfa × NeedsSome c.nfa c.needles) (IsFaultOf text.now) }
{
    let Parsed { hir, names } = match regex_syntax::parse(alloc, text, &byte_config()) {
        Ok(parsed) => parsed,
        Err(error) => return Err(fault_of(text, &error)),
    };
    let Ok(groups) = u32::try_from(names.len()) else {
        return Err(ExpressionFault::Large);
    };
    match compiled_tree(alloc, &hir, groups) {
        Ok(compiled) => Ok(compiled),
        Err(fault) => Err(fault),
    }
}

// What is wrong with a text that doesn't parse.
fn fault_of(text: &str, error: &regex_syntax::Error) -> ExpressionFault
    requires refused { Refuses byte_config text.now error.now.kind }
    requires place { IsCharBoundary text.now error.now.span.start }
    ensures { IsFaultOf text.now result }
{
    // Named by the contract alone: what is refused is said of a text.
    let _ = text;
    match error.kind {
        ErrorKind::OutOfMemory => ExpressionFault::Memory,
        ErrorKind::NestLimitExceeded => ExpressionFault::Large,
        _ => ExpressionFault::Bad(error.span.start),
    }
}

impl Expression {
    ghost use Rattle.std.specs.Prelude.{◌↔◌, IsTrue};

    /// Reads an expression in the syntax of the kit's `regex`.
    pub fn read(alloc: Global, text: &str) -> Result<Expression, ExpressionFault>
        ensures { MatchResult result (λ expression. read_element text.now ≡ Some expression) (IsFaultOf text.now) }
    {
        let Automaton { nfa, needles } = compiled(alloc, text)?;
        if nfa.states.len() > MOST_STATES {
            return Err(ExpressionFault::Large);
        }
        let order = in_order(alloc, &nfa)?;
        Ok(Expression {
            text: String::from_str(alloc, text)?,
            table: table_of(alloc, &nfa, &order)?,
            order,
            nfa,
            needles,
        })
    }

    /// Whether the expression is found in the text. Takes no memory; the time is linear in the text.
    pub fn is_found_in(&self, text: &str) -> bool
        ensures value { result ≡ is_found self.now text.now }
        ensures means { IsTrue result ↔ IsFoundIn self.now text.now }
    {
        let text = text.as_bytes();
        if !may_have(&self.needles, text) {
            return false;
        }
        searched(&self.table, &self.nfa, &self.order, text)
    }

    /// The expression as it was read. Takes no memory.
    pub fn as_str(&self) -> &str
        ensures { result.now ≡ self.now }
    {
        self.text.as_str()
    }

    // An equal expression, which is read anew.
    fn try_clone(&self) -> Result<Expression, AllocError>
        ensures { IfOk result (λ copy. copy ≡ self.now) }
    {
        match Expression::read(*self.text.allocator(), self.as_str()) {
            Ok(copy) => Ok(copy),
            Err(_) => Err(AllocError),
        }
    }
}

impl Clone for Expression {
    ghost is_clone = { λ expression copy. copy ≡ expression };

    fn clone(&self) -> Result<Expression, AllocError> {
        self.try_clone()
    }
}

impl PartialEq for Expression {
    ghost eq = { bytes_eq };

    ghost laws = { partial_equiv_from_equiv nat_list_eq_equiv };

    fn eq(&self, other: &Expression) -> bool {
        self.as_str() == other.as_str()
    }
}
