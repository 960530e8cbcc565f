//! Outcomes: what became of an address that was requested.
use crate::edge::{EdgeKind, Edges, share_text};
use crate::fault_kind::FaultKind;
use address::Address;
use std::alloc::AllocError;

/// What became of an address that was requested. A status is that of the response (RFC 9110,
/// section 15).
#[derive(Drop, Debug)]
pub enum Outcome {
    /// A page with its status and its edges in document order.
    Page(u16, Edges),
    /// A redirect with its status and its target.
    Moved(u16, Address),
    /// A response that leads nowhere, with its status.
    Leaf(u16),
    /// No response, and why.
    Fault(FaultKind),
}

impl Outcome {
    ghost use Rattle.std.specs.Prelude.{◌≡◌, ◌↔◌, ◌<◌, IfOk, IfSome, IsTrue, Some, length, slice_get};
    ghost use Rattle.fetcher.specs.Outcomes.{edges, has_edge, is_fault};

    /// Whether both are equal: kind, status, edges in their order, target, fault. Takes no memory.
    pub fn same(&self, other: &Outcome) -> bool
        ensures { IsTrue result ↔ (self.now ≡ other.now) }
    {
        match (self, other) {
            (Outcome::Page(status, edges), Outcome::Page(other_status, other_edges)) => {
                status == other_status && edges.same(other_edges)
            }
            (Outcome::Moved(status, target), Outcome::Moved(other_status, other_target)) => {
                status == other_status && target == other_target
            }
            (Outcome::Leaf(status), Outcome::Leaf(other_status)) => status == other_status,
            (Outcome::Fault(kind), Outcome::Fault(other_kind)) => kind == other_kind,
            _ => false,
        }
    }

    /// An equal outcome, which shares the edges and the target of this one. Takes no memory; the error
    /// is that 2^63 copies are there.
    pub fn try_clone(&self) -> Result<Outcome, AllocError>
        ensures { IfOk result (λ copy. copy ≡ self.now) }
    {
        match self {
            Outcome::Page(status, edges) => Ok(Outcome::Page(*status, edges.try_clone()?)),
            Outcome::Moved(status, target) => Ok(Outcome::Moved(*status, target.try_clone()?)),
            Outcome::Leaf(status) => Ok(Outcome::Leaf(*status)),
            Outcome::Fault(kind) => Ok(Outcome::Fault(*kind)),
        }
    }

    /// Whether there is no response.
    pub fn is_fault(&self) -> bool
        ensures { result ≡ is_fault self.now }
    {
        matches!(self, Outcome::Fault(_))
    }

    /// The number of edges.
    pub fn edge_count(&self) -> usize
        ensures { result ≡ length (edges self.now) }
    {
        match self {
            Outcome::Page(_, links) => links.as_slice().len(),
            Outcome::Moved(_, _) => 1,
            Outcome::Leaf(_) | Outcome::Fault(_) => 0,
        }
    }

    /// Whether there is an edge.
    pub fn has_edge(&self) -> bool
        ensures { result ≡ has_edge (edges self.now) }
    {
        match self {
            Outcome::Page(_, links) => !links.as_slice().is_empty(),
            Outcome::Moved(_, _) => true,
            Outcome::Leaf(_) | Outcome::Fault(_) => false,
        }
    }

    /// The target and the kind of edge k, counted from 0.
    pub fn edge(&self, k: usize) -> (&Address, EdgeKind)
        requires { k < length (edges self.now) }
        ensures { slice_get (edges self.now) k ≡ Some (record { target = result.0.now; kind = result.1 }) }
    {
        match self {
            Outcome::Page(_, links) => {
                let edge = &links.as_slice()[k];
                (&edge.target, edge.kind)
            }
            Outcome::Moved(_, target) => (target, EdgeKind::Redirect),
            Outcome::Leaf(_) | Outcome::Fault(_) => unreachable!(),
        }
    }

    /// Whether a target can share the text of an equal address: there is an edge, and copies don't share the edges.
    pub fn can_share_texts(&self) -> bool {
        match self {
            Outcome::Page(_, links) => !links.as_slice().is_empty() && !links.are_shared(),
            Outcome::Moved(_, _) => true,
            Outcome::Leaf(_) | Outcome::Fault(_) => false,
        }
    }

    /// Puts an equal address in the place of the target of edge k, counted from 0: then both share one text. If copies share
    /// the edges of a page nothing happens. Takes no memory.
    pub fn share_text(&mut self, k: usize, address: &Address)
        requires { IfSome (slice_get (edges self.old) k) (λ edge. edge.target ≡ address.now) }
        ensures { self.new ≡ self.old }
    {
        match self {
            Outcome::Page(_, links) => links.share_text(k, address),
            Outcome::Moved(_, target) => {
                if k == 0 {
                    share_text(target, address);
                }
            }
            Outcome::Leaf(_) | Outcome::Fault(_) => {}
        }
    }
}

impl Clone for Outcome {
    ghost use Rattle.std.specs.Prelude.{◌≡◌};

    ghost is_clone = { λ outcome copy. copy ≡ outcome };

    fn clone(&self) -> Result<Outcome, AllocError> {
        self.try_clone()
    }
}
