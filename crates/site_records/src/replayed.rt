//! Answers that are copied for a record.
ghost use Rattle.std.specs.Prelude.{◌≡◌, IfOk};

use fetcher::{Answer, Body};
use std::alloc::{AllocError, Global};

// An equal answer.
pub(crate) fn copy_of(alloc: Global, answer: &Answer<Body>) -> Result<Answer<Body>, AllocError>
    ensures { IfOk result (λ copy. copy ≡ answer.now) }
{
    Ok(Answer {
        outcome: answer.outcome.try_clone()?,
        body: Body::new(
            answer.body.kind(),
            Vec::from_slice(alloc, answer.body.as_slice())?,
        ),
    })
}
