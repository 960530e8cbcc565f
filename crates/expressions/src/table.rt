//! A table of the sets of states that lead to a match, made when an expression is read: over it a search takes a step for each byte, however
//! many states there are.
ghost use Rattle.std.specs.Prelude.{◌≡◌, ℕ, ◌+◌, ◌<◌, ◌≤◌, IfOk, IfSome, IsTrue, MatchOption, true, false, length, vec_len, slice_index_or};
ghost use Rattle.regex_hir.specs.declared.look.Look.{Look as Assertion};
ghost use Rattle.regex_nfa.specs.declared.state.State.TheVariants as kinds;
ghost use Rattle.expressions.specs.inner.Order.{IsOrder};
ghost use Rattle.expressions.specs.inner.Accepting.{AreFlags, AreMarks, begins_from};
ghost use Rattle.expressions.specs.inner.Tables.{set_at, AreRows, AreSets, IsCell, IsEdge, IsEndSet, IsMore, IsRow, IsTable, LooksAtEdges};

use crate::search::{MOST_STATES, begins, finds, mark};
use regex_hir::Look;
use regex_nfa::{Nfa, State};
use std::alloc::{AllocError, Global};

// The most sets of a table: a byte has the number of one.
const MOST_SETS: usize = 256;

// The most flags of all sets of a table, so that it is made in a fraction of a second.
const MOST_FLAGS: usize = 1 << 16;

// What is known of a set.
#[derive(Drop)]
struct SetRow {
    // Whether a match begins at a place that has it.
    begins: bool,
    // The set of the place before, by the byte that is read there.
    before: [u8; 256],
}

/// The sets that the places of a text can have, from its end on, and a row for each.
#[derive(Drop)]
pub(crate) struct Table {
    sets: Vec<Vec<bool>>,
    rows: Vec<SetRow>,
}

// Whether the state looks at a text's start or end, if it looks.
fn is_edge(state: State) -> bool
    ensures { (l : Assertion) (next : ℕ) → IsTrue result → state ≡ kinds.Look l next → IsEdge l }
{
    match state {
        State::Look { look, next: _ } => look == Look::Start || look == Look::End,
        _ => true,
    }
}

// Whether each look of the automaton is at a text's start or end.
fn looks_at_edges(nfa: &Nfa) -> bool
    ensures { IsTrue result → LooksAtEdges nfa.now }
{
    for id in 0..nfa.states.len() as u32 {
        if !is_edge(nfa.state(id)) {
            return false;
        }
    }
    true
}

// The set of each place that looks like this one, by that of the next one.
fn marked(
    alloc: Global,
    nfa: &Nfa,
    order: &[u32],
    text: &[u8],
    at: usize,
    next: &[bool],
) -> Result<Vec<bool>, AllocError>
    requires order { IsOrder nfa.now order.now }
    requires room { vec_len nfa.now.states ≤ length next.now }
    ensures { IfOk result (λ here. (vec_len nfa.now.states ≤ length here.items) × AreMarks nfa.now text.now at next.now here.items) }
{
    let mut here = vec![in alloc; false; nfa.states.len()]?;
    mark(nfa, order, text, at, next, &mut here);
    Ok(here)
}

// The set of the end of each text that has a byte.
fn end_set(alloc: Global, nfa: &Nfa, order: &[u32]) -> Result<Vec<bool>, AllocError>
    requires order { IsOrder nfa.now order.now }
    requires edges { LooksAtEdges nfa.now }
    ensures { IfOk result (λ set. (vec_len nfa.now.states ≤ length set.items) × IsEndSet nfa.now set.items) }
{
    let none = vec![in alloc; false; nfa.states.len()]?;
    marked(alloc, nfa, order, &[0], 1, &none)
}

// The set with this number.
fn set_of(sets: &[Vec<bool>], number: usize) -> &[bool]
    requires { number < length sets.now }
    ensures { result.now ≡ set_at sets.now number }
{
    sets[number].as_slice()
}

// Whether a match begins at a place that has this set.
fn is_begun(nfa: &Nfa, set: &[bool]) -> bool
    requires { vec_len nfa.now.states ≤ length set.now }
    ensures { result ≡ slice_index_or set.now nfa.now.start false }
{
    set[nfa.start as usize]
}

// The number of an equal set.
fn number_in(sets: &[Vec<bool>], set: &[bool]) -> Option<usize>
    ensures { IfSome result (λ number. (number < length sets.now) × (set_at sets.now number ≡ set.now)) }
{
    for number in 0..sets.len() {
        if set_of(sets, number) == set {
            return Some(number);
        }
    }
    None
}

// The number of the set, which is added if it is new; none if there are too many.
fn numbered(
    sets: &mut Vec<Vec<bool>>,
    set: Vec<bool>,
    most: usize,
) -> Result<Option<u8>, AllocError>
    requires few { vec_len sets.old ≤ most }
    requires most { most ≤ MOST_SETS }
    ensures number { IfOk result (λ number. IfSome number (λ n. (n < vec_len sets.new) × (set_at sets.new.items n ≡ set.items))) }
    ensures more { IsMore sets.old.items sets.new.items }
    ensures added { (n : ℕ) → vec_len sets.old ≤ n → n < vec_len sets.new → set_at sets.new.items n ≡ set.items }
    ensures few { vec_len sets.new ≤ most }
{
    if let Some(number) = number_in(sets, &set) {
        return Ok(Some(number as u8));
    }
    if sets.len() == most {
        return Ok(None);
    }
    let number = sets.len() as u8;
    sets.push(set)?;
    Ok(Some(number))
}

// The number of the set of the place before one that has this set, if this byte is read there; none if there are too many.
fn cell(
    alloc: Global,
    nfa: &Nfa,
    order: &[u32],
    sets: &mut Vec<Vec<bool>>,
    from: usize,
    byte: u8,
    most: usize,
) -> Result<Option<u8>, AllocError>
    requires order { IsOrder nfa.now order.now }
    requires from { from < vec_len sets.old }
    requires sets { AreSets nfa.now sets.old.items }
    requires few { vec_len sets.old ≤ most }
    requires most { most ≤ MOST_SETS }
    ensures cell { IfOk result (λ number. IfSome number (IsCell nfa.now sets.new.items from byte)) }
    ensures more { IsMore sets.old.items sets.new.items }
    ensures sets { AreSets nfa.now sets.new.items }
    ensures few { vec_len sets.new ≤ most }
{
    let set = marked(alloc, nfa, order, &[0, byte], 1, set_of(sets, from))?;
    numbered(sets, set, most)
}

// The row of the set with this number; none if there are too many sets.
fn row_of(
    alloc: Global,
    nfa: &Nfa,
    order: &[u32],
    sets: &mut Vec<Vec<bool>>,
    from: usize,
    most: usize,
) -> Result<Option<SetRow>, AllocError>
    requires order { IsOrder nfa.now order.now }
    requires from { from < vec_len sets.old }
    requires sets { AreSets nfa.now sets.old.items }
    requires few { vec_len sets.old ≤ most }
    requires most { most ≤ MOST_SETS }
    ensures row { IfOk result (λ row. IfSome row (IsRow nfa.now sets.new.items from)) }
    ensures more { IsMore sets.old.items sets.new.items }
    ensures sets { AreSets nfa.now sets.new.items }
    ensures few { vec_len sets.new ≤ most }
{
    let begins = is_begun(nfa, set_of(sets, from));
    let mut before = [0; 256];
    if begins {
        return Ok(Some(SetRow { begins, before }));
    }
    for byte in 0..256 {
        match cell(alloc, nfa, order, sets, from, byte as u8, most)? {
            Some(number) => before[byte] = number,
            None => return Ok(None),
        }
    }
    Ok(Some(SetRow { begins, before }))
}

// The row of each set, with the sets that rows name; none if there are too many sets.
fn rows_of(
    alloc: Global,
    nfa: &Nfa,
    order: &[u32],
    sets: &mut Vec<Vec<bool>>,
    most: usize,
) -> Result<Option<Vec<SetRow>>, AllocError>
    requires order { IsOrder nfa.now order.now }
    requires sets { AreSets nfa.now sets.old.items }
    requires few { vec_len sets.old ≤ most }
    requires most { most ≤ MOST_SETS }
    ensures rows { IfOk result (λ rows. IfSome rows (λ v. (length v.items ≡ length sets.new.items) × AreRows nfa.now sets.new.items v.items)) }
    ensures more { IsMore sets.old.items sets.new.items }
    ensures sets { AreSets nfa.now sets.new.items }
{
    let mut rows = Vec::new(alloc);
    while rows.len() < sets.len() {
        match row_of(alloc, nfa, order, sets, rows.len(), most)? {
            Some(row) => rows.push(row)?,
            None => return Ok(None),
        }
    }
    Ok(Some(rows))
}

/// The automaton's table; none if it would be too large, or looks at more than a text's start and end.
pub(crate) fn table_of(alloc: Global, nfa: &Nfa, order: &[u32]) -> Result<Option<Table>, AllocError>
    requires { IsOrder nfa.now order.now }
    ensures { IfOk result (λ table. IfSome table (IsTable nfa.now)) }
{
    if !looks_at_edges(nfa) {
        return Ok(None);
    }
    let most = (MOST_FLAGS / nfa.states.len()).clamp(1, MOST_SETS);
    let mut sets = vec![in alloc; end_set(alloc, nfa, order)?]?;
    match rows_of(alloc, nfa, order, &mut sets, most)? {
        Some(rows) => Ok(Some(Table { sets, rows })),
        None => Ok(None),
    }
}

// The row of the set with this number.
fn row_in<'a>(nfa: &Nfa, table: &'a Table, number: u8) -> &'a SetRow
    requires table { IsTable nfa.now table.now }
    requires number { number < length table.now.sets.items }
    ensures { IsRow nfa.now table.now.sets.items number result.now }
{
    // Named by the contract alone: of which automaton the table is.
    let _ = nfa;
    &table.rows[number as usize]
}

// The number of the set of the place after the first byte; none if a match begins there or later.
fn walk(nfa: &Nfa, table: &Table, text: &[u8]) -> Option<u8>
    requires table { IsTable nfa.now table.now }
    requires some { 0 < length text.now }
    ensures { MatchOption result (begins_from nfa.now text.now 0 ≡ true)
        (λ number. (number < length table.now.sets.items) × AreFlags nfa.now text.now 1 (set_at table.now.sets.items number) × (begins_from nfa.now text.now 1 ≡ false)) }
{
    let mut number: u8 = 0;
    let mut at = text.len();
    while at > 1 {
        let row = row_in(nfa, table, number);
        if row.begins {
            return None;
        }
        at -= 1;
        number = row.before[text[at] as usize];
    }
    if row_in(nfa, table, number).begins {
        return None;
    }
    Some(number)
}

// Whether the automaton finds a match in a text that has a byte, by its table.
fn finds_by(table: &Table, nfa: &Nfa, order: &[u32], text: &[u8]) -> bool
    requires table { IsTable nfa.now table.now }
    requires order { IsOrder nfa.now order.now }
    requires few { vec_len nfa.now.states ≤ MOST_STATES }
    requires some { 0 < length text.now }
    ensures { result ≡ begins_from nfa.now text.now 0 }
{
    let Some(number) = walk(nfa, table, text) else {
        return true;
    };
    // The first place alone has the text's start.
    let mut here = [false; MOST_STATES];
    mark(
        nfa,
        order,
        text,
        0,
        set_of(&table.sets, number as usize),
        &mut here,
    );
    begins(nfa, text, 0, &here)
}

/// Whether the automaton finds a match in the text, by its table if there is one. Takes no memory.
pub(crate) fn searched(table: &Option<Table>, nfa: &Nfa, order: &[u32], text: &[u8]) -> bool
    requires table { IfSome table.now (IsTable nfa.now) }
    requires order { IsOrder nfa.now order.now }
    requires few { vec_len nfa.now.states ≤ MOST_STATES }
    ensures { result ≡ begins_from nfa.now text.now 0 }
{
    match table {
        Some(table) if !text.is_empty() => finds_by(table, nfa, order, text),
        _ => finds(nfa, order, text),
    }
}
