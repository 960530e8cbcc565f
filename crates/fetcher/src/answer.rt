//! Answers: an outcome with the body of its response (RFC 9110, section 6.4).
ghost use Rattle.std.specs.Prelude.{◌≡◌};
ghost use Rattle.fetcher.specs.Sites.{bare_body};

use crate::outcome::Outcome;
use kept_bodies::{Body, BodyKind};
use std::alloc::Global;

/// What a fetcher answers: the outcome, and the body of the response as the fetcher keeps bodies.
#[derive(Drop, Debug)]
pub struct Answer<B> {
    /// What became of the address.
    pub outcome: Outcome,
    /// The body, or what represents it; that of no bytes unless the status is 200 to 299.
    pub body: B,
}

impl Answer<Body> {
    /// The answer of a site that gives outcomes alone: its body has no bytes, and is HTML if the outcome is a page. Takes no
    /// memory.
    pub fn bare(alloc: Global, outcome: Outcome) -> Answer<Body>
        ensures outcome { result.outcome ≡ outcome }
        ensures body { result.body ≡ bare_body outcome }
    {
        let kind = match &outcome {
            Outcome::Page(_, _) => BodyKind::Html,
            Outcome::Moved(_, _) | Outcome::Leaf(_) | Outcome::Fault(_) => BodyKind::Other,
        };
        Answer {
            outcome,
            body: Body::new(kind, Vec::new(alloc)),
        }
    }
}
