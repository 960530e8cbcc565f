//! Bodies that are kept in memory.
ghost use Rattle.std.specs.Prelude.{◌≡◌};
ghost use Rattle.kept_bodies.specs.Bodies.{no_body};

use crate::body_kind::BodyKind;
use crate::keeper::Keeper;
use std::alloc::{AllocError, Global};
use std::marker::Model;
use std::mem;

/// A body that is kept in memory: what it is, and its bytes. Contracts see both.
#[derive(Drop, Debug)]
pub struct Body {
    kind: BodyKind,
    bytes: Vec<u8>,
}

impl Model for Body {
    ghost use Rattle.kept_bodies.specs.Bodies.{BodyValue};

    ghost Value = { BodyValue };

    ghost view = { λ body. record { kind = body.kind; bytes = body.bytes.items } };
}

impl Body {
    /// The body of this kind and these bytes. Takes no memory.
    pub fn new(kind: BodyKind, bytes: Vec<u8>) -> Self
        ensures kind { result.kind ≡ kind }
        ensures bytes { result.bytes ≡ bytes.items }
    {
        Body { kind, bytes }
    }

    /// No body: no bytes, of which nothing is known. Takes no memory.
    pub fn none(alloc: Global) -> Self
        ensures { result ≡ no_body }
    {
        Body::new(BodyKind::Other, Vec::new(alloc))
    }

    /// What it is.
    pub fn kind(&self) -> BodyKind
        ensures { result ≡ self.now.kind }
    {
        self.kind
    }

    /// The bytes in order.
    pub fn as_slice(&self) -> &[u8]
        ensures { result.now ≡ self.now.bytes }
    {
        self.bytes.as_slice()
    }

    /// The bytes in order, given back. Takes no memory.
    pub fn into_vec(self) -> Vec<u8>
        ensures { result.items ≡ self.bytes }
    {
        let Body { kind: _kind, bytes } = self;
        bytes
    }
}

/// Keeps bodies in memory. Contracts see the bytes of the one that was begun.
#[derive(Drop)]
pub struct InMemory {
    alloc: Global,
    bytes: Vec<u8>,
}

impl Model for InMemory {
    ghost use Rattle.std.specs.Prelude.{ℕ, List};

    ghost Value = { List ℕ };

    ghost view = { λ k. k.bytes.items };
}

impl InMemory {
    /// Takes memory when bytes are added.
    pub fn new(alloc: Global) -> InMemory {
        InMemory {
            alloc,
            bytes: Vec::new(alloc),
        }
    }
}

impl Keeper for InMemory {
    type Kept = Body;

    ghost holds = { λ kept body. body ≡ kept };

    ghost begun = { λ keeper bytes. bytes ≡ keeper };

    fn begin(&mut self) {
        self.bytes.clear();
    }

    fn note_changed(&mut self, _last_modified: Option<&[u8]>) {}

    fn add(&mut self, piece: &[u8]) -> Result<(), AllocError> {
        self.bytes.extend_from_slice(piece)
    }

    fn finish(&mut self, kind: BodyKind) -> Result<Body, AllocError> {
        Ok(Body::new(kind, mem::replace(&mut self.bytes, Vec::new(self.alloc))))
    }

    fn empty(&mut self) -> Result<Body, AllocError> {
        Ok(Body::none(self.alloc))
    }
}
