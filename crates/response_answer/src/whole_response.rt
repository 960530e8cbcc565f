//! What a response that is kept answers (RFC 9110, section 15).
ghost use Rattle.std.specs.Prelude.{◌≡◌, IfOk};
ghost use Rattle.response_reader.specs.Whole.{response_parts};
ghost use Rattle.response_answer.specs.Digests.{body_of, digest_of, target_of};
ghost use Rattle.response_answer.specs.inner.HeadKinds.{kind_parts};

use crate::head_kind::{HeadKind, kind_of};
use crate::links::named;
use crate::stage::Stage;
use address::Address;
use fetcher::{Answer, Body, Outcome, is_redirect, is_successful};
use html_links::LinkRules;
use response_reader::Response;
use std::alloc::{AllocError, Global};

/// What a response answers for the address that was asked: a redirect, a page with its links, or neither, with the
/// body if the status is 200 to 299. Of the links of a page those are edges that `rules` takes. Fails only if memory
/// runs out.
pub fn digest(
    alloc: Global,
    at: &Address,
    response: &Response,
    rules: LinkRules,
) -> Result<Answer<Body>, AllocError>
    ensures outcome { IfOk result (λ a. a.outcome ≡ digest_of rules at.now (response_parts response.now)) }
    ensures body { IfOk result (λ a. a.body ≡ body_of (response_parts response.now).head response.now.body.items) }
{
    let outcome = outcome_of(alloc, at, response, rules)?;
    let kind = kind_of(&head_of(response));
    let body = if is_successful(response.status) {
        Vec::from_slice(alloc, &response.body)?
    } else {
        Vec::new(alloc)
    };
    Ok(Answer {
        outcome,
        body: Body::new(kind, body),
    })
}

/// The same answer of a response that isn't needed any more: its body moves and isn't copied.
pub fn into_answer(
    alloc: Global,
    at: &Address,
    response: Response,
    rules: LinkRules,
) -> Result<Answer<Body>, AllocError>
    ensures outcome { IfOk result (λ a. a.outcome ≡ digest_of rules at.now (response_parts response)) }
    ensures body { IfOk result (λ a. a.body ≡ body_of (response_parts response).head response.body.items) }
{
    let outcome = outcome_of(alloc, at, &response, rules)?;
    let kind = kind_of(&head_of(&response));
    let Response { status, body, .. } = response;
    let kept = if is_successful(status) {
        body
    } else {
        Vec::new(alloc)
    };
    Ok(Answer {
        outcome,
        body: Body::new(kind, kept),
    })
}

/// Where a response redirects from an address, if anywhere (RFC 9110, section 10.2.2). Fails only if memory runs out.
pub fn redirect_target(at: &Address, response: &Response) -> Result<Option<Address>, AllocError>
    ensures { IfOk result (λ target. target ≡ target_of at.now (response_parts response.now).head) }
{
    if !is_redirect(response.status) {
        return Ok(None);
    }
    match &response.location {
        Some(location) => named(at, location),
        None => Ok(None),
    }
}

// The fields of the head of a whole response.
fn head_of<'a>(response: &'a Response) -> HeadKind<'a>
    ensures { kind_parts result ≡ (response_parts response.now).head }
{
    HeadKind {
        status: response.status,
        content_type: &response.content_type,
        coded: response.coded,
        location: &response.location,
        retry_after: &response.retry_after,
        last_modified: &response.last_modified,
        etag: &response.etag,
    }
}

// What became of the address that a whole response answers.
fn outcome_of(
    alloc: Global,
    at: &Address,
    response: &Response,
    rules: LinkRules,
) -> Result<Outcome, AllocError>
    ensures { IfOk result (λ x. x ≡ digest_of rules at.now (response_parts response.now)) }
{
    let mut stage = Stage::of(alloc, &head_of(response))?;
    stage.take(&response.body)?;
    stage.outcome(alloc, at, rules)
}
