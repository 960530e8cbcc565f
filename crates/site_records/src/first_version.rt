//! The chains that notes have for what version 1 says of an origin's robots file: one hop each, with the same rules.
ghost use Rattle.std.specs.Prelude.{◌≡◌, ◌≤◌, ◌||◌, ◌==◌, ◌++◌, ◌∷◌, [], false, length, None, IfOk, if◌then◌else◌, not, take};
ghost use Rattle.robots_rules.specs.Groups.{rules_in};
ghost use Rattle.response_reader.specs.Response.{CanBeGiven};
ghost use Rattle.answer_notes.specs.RobotsAnswers.{none_allowed, all_allowed};
ghost use Rattle.answer_notes.specs.HopChains.{rules_of_hops, robots_file};
ghost use Rattle.answer_notes.specs.Received.{received_target, received_rules};
ghost use Rattle.site_records.specs.Received.{has_lost};

use address::Origin;
use answer_notes::{Given, Hops, Received};
use fetcher::{FaultKind, NOT_FOUND};
use response_reader::Response;
use std::alloc::{AllocError, Global};

/// How many bytes of a robots file are kept: those that are used, and one more, so that it is known that the file is longer
/// (RFC 9309, section 2.5).
const KEPT_FILE: usize = 512_001;

// The chain of one answer for an origin's robots file, without a redirect. Fails only if memory runs out.
fn chain_of(alloc: Global, of: &Origin, received: Received) -> Result<Hops, AllocError>
    requires { received_target (robots_file of.now) received ≡ None }
    ensures of { IfOk result (λ hops. hops.of ≡ of.now) }
    ensures rules { IfOk result (λ hops. rules_of_hops hops.hops ≡ received_rules received) }
    ensures hops { IfOk result (λ hops. hops.hops ≡ (robots_file of.now, received) ∷ []) }
{
    let mut hops = Vec::new(alloc);
    hops.push((of.robots_file()?, received))?;
    Ok(Hops::new(of.try_clone()?, hops))
}

/// The chain whose answer is a robots file. Fails only if memory runs out.
pub(crate) fn file_chain(alloc: Global, of: &Origin, file: &[u8]) -> Result<Hops, AllocError>
    ensures of { IfOk result (λ hops. hops.of ≡ of.now) }
    ensures rules { IfOk result (λ hops. rules_of_hops hops.hops ≡ rules_in file.now) }
    ensures lost { IfOk result (λ hops. has_lost hops.hops ≡ false) }
{
    let kept = KEPT_FILE.min(file.len());
    let body = Vec::from_slice(alloc, &file[..kept])?;
    let response = Response {
        status: 200,
        content_type: None,
        coded: false,
        location: None,
        retry_after: None,
        last_modified: None,
        etag: None,
        body,
    };
    chain_of(alloc, of, Received::Whole(Given::new(response)))
}

/// The chain that allows everything because there is no robots file (RFC 9309, section 2.3.1.3), or nothing because the file
/// isn't available (section 2.3.1.4). Fails only if memory runs out.
pub(crate) fn bare_chain(alloc: Global, of: &Origin, allowed: bool) -> Result<Hops, AllocError>
    ensures of { IfOk result (λ hops. hops.of ≡ of.now) }
    ensures rules { IfOk result (λ hops. rules_of_hops hops.hops ≡ (if allowed then all_allowed else none_allowed)) }
    ensures lost { IfOk result (λ hops. has_lost hops.hops ≡ not allowed) }
{
    if !allowed {
        return chain_of(alloc, of, Received::Fault(FaultKind::Device));
    }
    let response = Response {
        status: NOT_FOUND,
        content_type: None,
        coded: false,
        location: None,
        retry_after: None,
        last_modified: None,
        etag: None,
        body: Vec::new(alloc),
    };
    chain_of(alloc, of, Received::Whole(Given::new(response)))
}
