//! What keeps bodies.
ghost use Rattle.std.specs.Prelude.{◌≡◌, ◌++◌, ℕ, List, [], IfOk, OnOk};
ghost use Rattle.kept_bodies.specs.Bodies.{BodyValue, no_body};

use crate::body_kind::BodyKind;
use std::alloc::AllocError;

/// Keeps bodies of responses, one after another, each while it arrives. What a keeper can't keep it reports by the body that
/// it hands out; its calls fail only if memory runs out.
pub trait Keeper: Drop {
    /// A body that was kept, or what represents it.
    type Kept: Drop;

    // Which body a kept one may be. One of which nothing is known may be any.
    ghost holds: { Self.Kept → BodyValue → Type 0 };

    // Which bytes may have been added since the body was begun.
    ghost begun: { Self → List ℕ → Type 0 };

    /// Begins a body. What was begun before it and not finished is given up.
    fn begin(&mut self)
        ensures { begun self.new [] };

    /// Learns when the page of the body that was begun changed: the value of its `Last-Modified` (RFC 9110, section 8.8.2), if it has one.
    fn note_changed(&mut self, last_modified: Option<&[u8]>)
        ensures { (front : List ℕ) → begun self.old front → begun self.new front };

    /// Adds the next bytes of the body. The error is out of memory.
    fn add(&mut self, piece: &[u8]) -> Result<(), AllocError>
        ensures { OnOk result ((front : List ℕ) → begun self.old front → begun self.new (front ++ piece.now)) };

    /// The body that was begun, whole, which is of this kind. The error is out of memory.
    fn finish(&mut self, kind: BodyKind) -> Result<Self::Kept, AllocError>
        ensures { IfOk result (λ kept. (bytes : List ℕ) → begun self.old bytes → holds kept (record { kind = kind; bytes = bytes })) };

    /// What is kept if there is no body. The error is out of memory.
    fn empty(&mut self) -> Result<Self::Kept, AllocError>
        ensures { IfOk result (λ kept. holds kept no_body) };
}
