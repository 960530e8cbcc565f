//! The order in which the states of an automaton are asked: each after those that it leads to without a byte.
ghost use Rattle.std.specs.Prelude.{◌≡◌, ◌+◌, ◌<◌, vec_len, IfOk, OnOk};
ghost use Rattle.expressions.specs.inner.Order.{IsOrder, IsOrderUpTo};

use regex_nfa::Nfa;
use std::alloc::{AllocError, Global};

// Adds the state, if it has this rank.
fn push_state(order: &mut Vec<u32>, nfa: &Nfa, rank: u32, state: usize) -> Result<(), AllocError>
    requires order { IsOrderUpTo nfa.now.ranks.items order.old.items rank state }
    requires state { state < vec_len nfa.now.ranks }
    ensures { OnOk result (IsOrderUpTo nfa.now.ranks.items order.new.items rank (state + 1)) }
{
    if nfa.ranks[state] == rank {
        order.push(state as u32)?;
    }
    Ok(())
}

// Adds the states of this rank to those of lower ranks.
fn push_rank(order: &mut Vec<u32>, nfa: &Nfa, rank: u32) -> Result<(), AllocError>
    requires { IsOrderUpTo nfa.now.ranks.items order.old.items rank 0 }
    ensures { OnOk result (IsOrderUpTo nfa.now.ranks.items order.new.items (rank + 1) 0) }
{
    for state in 0..nfa.ranks.len() {
        push_state(order, nfa, rank, state)?;
    }
    Ok(())
}

/// The states in an order of rising ranks.
pub(crate) fn in_order(alloc: Global, nfa: &Nfa) -> Result<Vec<u32>, AllocError>
    ensures { IfOk result (λ order. IsOrder nfa.now order.items) }
{
    let mut order = Vec::new(alloc);
    for rank in 0..nfa.ranks.len() as u32 {
        push_rank(&mut order, nfa, rank)?;
    }
    Ok(order)
}
