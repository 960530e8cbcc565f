//! What a response answers that comes over a wire without a request, such as one that was recorded.
ghost use Rattle.std.specs.Prelude.{◌≡◌, Some, IfOk};
ghost use Rattle.kept_bodies.specs.Bodies.{no_body};
ghost use Rattle.fetcher.specs.declared.fault_kind.FaultKind.{FaultKind};
ghost use Rattle.fetcher.specs.declared.outcome.Outcome.TheVariants as outcome;
ghost use Rattle.response_reader.specs.Limits.{limited};
ghost use Rattle.response_reader.specs.Wire.{OfBytes};
ghost use Rattle.response_answer.specs.KindsOfFaults.{kind_of_fault};
ghost use Rattle.http_fetcher.specs.Fetching.{StandsForOne};
ghost use Rattle.http_fetcher.specs.Meanings.{IsSaidBy, MayAnswerWithin};

use address::Address;
use fetcher::Answer;
use html_links::LinkRules;
use kept_bodies::Keeper;
use response_answer::{PageSink, kind_of_fault};
use response_reader::{Limits, ReadFault, Wire, read_into};
use std::alloc::{AllocError, Global};

/// What a fault answers, by which no response was read. Fails only if memory runs out.
pub(crate) fn unread<K: Keeper>(
    fault: ReadFault,
    sink: &mut PageSink<K>,
) -> Result<Answer<K::Kept>, AllocError>
    ensures { IfOk result (λ a. (kind : FaultKind) × (kind_of_fault fault ≡ Some kind) × (a.outcome ≡ outcome.Fault kind) × K.holds a.body no_body) }
{
    match kind_of_fault(fault) {
        Some(kind) => sink.fault(kind),
        None => Err(AllocError),
    }
}

/// The answer for an address by the response that comes over a wire, to which nothing is written. The body goes to the sink's keeper
/// as it comes. Of the links of a page those are edges that `links` takes. Fails only if memory runs out.
pub fn answer_over<W: Wire, K: Keeper>(
    alloc: Global,
    wire: &mut W,
    at: &Address,
    sink: &mut PageSink<K>,
    links: LinkRules,
    limits: Limits,
) -> Result<Answer<K::Kept>, AllocError>
    // It is what the wire's bytes say, and so one that a site may give.
    ensures told { IfOk result (λ a. StandsForOne K.holds a (λ real. OfBytes (W.incoming wire.old) (IsSaidBy (limited limits) links at.now real))) }
    ensures may { IfOk result (λ a. StandsForOne K.holds a (λ real. MayAnswerWithin (limited limits) links at.now real.outcome real.body)) }
{
    sink.begin();
    match read_into(alloc, wire, sink, limits) {
        Ok(_) => sink.finish(at, links),
        Err(fault) => unread(fault, sink),
    }
}
