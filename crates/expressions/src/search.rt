//! How an automaton is run over a text from its end on, with no memory but a flag for each state.
ghost use Rattle.std.specs.Prelude.{◌≡◌, ◌+◌, ◌<◌, ◌≤◌, ℕ, List, false, length, vec_len, slice_get, slice_index};
ghost use Rattle.regex_nfa.specs.States.{IsReadable};
ghost use Rattle.expressions.specs.inner.Order.{IsOrder};
ghost use Rattle.expressions.specs.inner.Accepting.{accepts, reads, AreFlags, AreFlagsBelow, AreMarks, AreNextFlags, IsAlike, begins_from};

use regex_nfa::{Nfa, State, StateId, holds};

/// The most states of an expression's automaton.
pub const MOST_STATES: usize = 1024;

// Whether a state that reads a byte leads to a match from this place, by the flags of the next one.
fn reads(nfa: &Nfa, state: State, text: &[u8], at: usize, next: &[bool]) -> bool
    requires readable { IsReadable nfa.now.transitions.items (vec_len nfa.now.states) state }
    requires room { vec_len nfa.now.states ≤ length next.now }
    ensures { (other : List ℕ) (place : ℕ) → slice_get text.now at ≡ slice_get other place → AreNextFlags nfa.now other place next.now →
        result ≡ reads nfa.now other place state }
{
    if at >= text.len() {
        return false;
    }
    match nfa.next_on(state, text[at]) {
        Some(to) => next[to as usize],
        None => false,
    }
}

// Whether the state leads to a match from this place, by the flags of the next one, and here by those of the states of lower ranks.
fn leads(nfa: &Nfa, state: StateId, text: &[u8], at: usize, next: &[bool], here: &[bool]) -> bool
    requires state { state < vec_len nfa.now.states }
    requires room { vec_len nfa.now.states ≤ length next.now }
    requires room_here { vec_len nfa.now.states ≤ length here.now }
    ensures { (other : List ℕ) (place : ℕ) → IsAlike nfa.now text.now at other place → AreNextFlags nfa.now other place next.now →
        AreFlagsBelow nfa.now other place here.now (slice_index nfa.now.ranks.items state) → result ≡ accepts nfa.now other place state }
{
    match nfa.state(state) {
        State::ByteRange(range) => reads(nfa, State::ByteRange(range), text, at, next),
        State::Sparse { from, to } => reads(nfa, State::Sparse { from, to }, text, at, next),
        State::Split { first, second } => here[first as usize] || here[second as usize],
        State::Save { slot: _, next: to } => here[to as usize],
        State::Look { look, next: to } => holds(look, text, at) && here[to as usize],
        State::Match => true,
        State::Fail => false,
    }
}

/// The flags of the states at this place, by those of the next one.
pub(crate) fn mark(
    nfa: &Nfa,
    order: &[u32],
    text: &[u8],
    at: usize,
    next: &[bool],
    here: &mut [bool],
)
    requires order { IsOrder nfa.now order.now }
    requires room { vec_len nfa.now.states ≤ length next.now }
    requires room_here { vec_len nfa.now.states ≤ length here.old }
    ensures flags { AreMarks nfa.now text.now at next.now here.new }
    ensures room { length here.new ≡ length here.old }
{
    for state in order {
        here[*state as usize] = leads(nfa, *state, text, at, next, here);
    }
}

/// Whether a match begins at this place, after which none does, by its flags.
pub(crate) fn begins(nfa: &Nfa, text: &[u8], at: usize, here: &[bool]) -> bool
    requires place { at ≤ length text.now }
    requires flags { AreFlags nfa.now text.now at here.now }
    requires room { vec_len nfa.now.states ≤ length here.now }
    requires later { false ≡ begins_from nfa.now text.now (at + 1) }
    ensures { result ≡ begins_from nfa.now text.now at }
{
    // Named by the contract alone: of which text the flags are.
    let _ = text;
    let _ = at;
    here[nfa.start as usize]
}

/// Whether the automaton finds a match in the text. Takes no memory; the time is the text's length times the number of states.
pub(crate) fn finds(nfa: &Nfa, order: &[u32], text: &[u8]) -> bool
    requires order { IsOrder nfa.now order.now }
    requires few { vec_len nfa.now.states ≤ MOST_STATES }
    ensures { result ≡ begins_from nfa.now text.now 0 }
{
    let mut odd = [false; MOST_STATES];
    let mut even = [false; MOST_STATES];
    let mut at = text.len() + 1;
    // Two places in turn, since to copy flags would take longer than to find them.
    while at > 1 {
        mark(nfa, order, text, at - 1, &odd, &mut even);
        if begins(nfa, text, at - 1, &even) {
            return true;
        }
        mark(nfa, order, text, at - 2, &even, &mut odd);
        if begins(nfa, text, at - 2, &odd) {
            return true;
        }
        at -= 2;
    }
    if at == 0 {
        return false;
    }
    mark(nfa, order, text, 0, &odd, &mut even);
    begins(nfa, text, 0, &even)
}
