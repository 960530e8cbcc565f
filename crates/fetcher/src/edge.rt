//! The edges of an outcome: where a page or a redirect leads (GNU Wget manual, Recursive Download).
ghost use Rattle.std.specs.Prelude.{◌≡◌, ◌↔◌, IfOk, IfSome, IsTrue, slice_get};

use address::Address;
use std::alloc::AllocError;
use std::fmt;
use std::marker::Model;
use std::sync::Arc;

/// How an address is named by the one that leads to it.
#[derive(Clone, Copy, Debug, PartialEq, Eq)]
pub enum EdgeKind {
    /// A link that a reader may follow.
    Link,
    /// Something that the page shows within itself, such as an image.
    Inline,
    /// The target of a redirect (RFC 9110, section 15.4).
    Redirect,
}

/// One edge: its target and its kind.
#[derive(Drop, Debug)]
pub struct Edge {
    /// The address that the edge leads to.
    pub target: Address,
    /// How the target is named.
    pub kind: EdgeKind,
}

impl Edge {
    /// Whether target and kind are equal. Takes no memory.
    pub fn same(&self, other: &Edge) -> bool
        ensures { IsTrue result ↔ (self.now ≡ other.now) }
    {
        self.kind == other.kind && self.target == other.target
    }

    /// An equal edge, or an error if memory ran out.
    pub fn try_clone(&self) -> Result<Edge, AllocError>
        ensures { IfOk result (λ copy. copy ≡ self.now) }
    {
        Ok(Edge {
            target: self.target.try_clone()?,
            kind: self.kind,
        })
    }
}

impl Clone for Edge {
    ghost is_clone = { λ edge copy. copy ≡ edge };

    fn clone(&self) -> Result<Edge, AllocError> {
        self.try_clone()
    }
}

/// The edges of a page in document order, doubles kept. Copies share them, so that a copy takes no
/// memory. Contracts see a list of edges.
pub struct Edges {
    items: Arc<Vec<Edge>>,
}

// By hand: who drops one proves a call, and nothing of what it holds.
impl Drop for Edges {
    fn drop(self) {
        let Edges { items: _items } = self;
    }
}

impl Model for Edges {
    ghost use Rattle.std.specs.Prelude.{List};
    ghost use Rattle.std.specs.Arc.{arc_value};
    ghost use Rattle.fetcher.specs.declared.edge.Edge.{Edge};

    ghost Value = { List Edge };

    ghost view = { λ edges. (arc_value edges.items).items };
}

impl Edges {
    /// The edges of a list, to be shared from now on. Room that the list doesn't need is given back, as it may be held for long.
    /// Fails only if memory runs out.
    pub fn new(mut items: Vec<Edge>) -> Result<Self, AllocError>
        ensures { IfOk result (λ edges. edges ≡ items.items) }
    {
        let alloc = *items.allocator();
        items.shrink_to_fit();
        Ok(Edges {
            items: Arc::new(alloc, items)?,
        })
    }

    /// The edges in order.
    pub fn as_slice(&self) -> &[Edge]
        ensures { result.now ≡ self.now }
    {
        self.items.as_slice()
    }

    /// Whether copies share the list. No clause says when, as contracts don't count copies.
    pub(crate) fn are_shared(&self) -> bool {
        Arc::strong_count(&self.items) > 1
    }

    /// Puts an equal address in the place of the target of edge k, counted from 0: then both share one text, and that of
    /// the old target is dropped. If copies share the edges nothing happens. Takes no memory.
    pub fn share_text(&mut self, k: usize, address: &Address)
        requires { IfSome (slice_get self.old k) (λ edge. edge.target ≡ address.now) }
        ensures { self.new ≡ self.old }
    {
        let Some(items) = Arc::get_mut(&mut self.items) else {
            return;
        };
        if let Some(edge) = items.get_mut(k) {
            share_text(&mut edge.target, address);
        }
    }

    /// Whether both have the same edges in the same order. Takes no memory.
    pub fn same(&self, other: &Edges) -> bool
        ensures { IsTrue result ↔ (self.now ≡ other.now) }
    {
        same_edges(self.as_slice(), other.as_slice())
    }

    /// Equal edges, which share the list of these. Takes no memory; the error is that 2^63 copies
    /// are there.
    pub fn try_clone(&self) -> Result<Edges, AllocError>
        ensures { IfOk result (λ copy. copy ≡ self.now) }
    {
        Ok(Edges {
            items: Arc::try_clone(&self.items)?,
        })
    }
}

impl fmt::Debug for Edges {
    fn fmt<W: fmt::Write>(&self, f: &mut fmt::Formatter<W>) -> fmt::Result {
        f.debug_struct("Edges")
            .field("items", &self.as_slice())
            .finish()
    }
}

/// Puts an equal address in the place of a target: then both share one text. Takes no memory.
pub(crate) fn share_text(target: &mut Address, address: &Address)
    requires { target.old ≡ address.now }
    ensures { target.new ≡ target.old }
{
    if let Ok(copy) = address.try_clone() {
        *target = copy;
    }
}

// Whether two lists of edges are equal.
fn same_edges(edges: &[Edge], others: &[Edge]) -> bool
    ensures { IsTrue result ↔ (edges.now ≡ others.now) }
{
    if edges.len() != others.len() {
        return false;
    }
    for k in 0..edges.len() {
        if !edges[k].same(&others[k]) {
            return false;
        }
    }
    true
}
