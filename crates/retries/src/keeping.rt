//! Requests that are made again, for pages whose bodies are kept while they arrive.
ghost use Rattle.std.specs.Prelude.{◌≡◌, IfOk};
ghost use Rattle.fetcher.specs.declared.fetcher.Ask.TheVariants as ask;
ghost use Rattle.pacing.specs.Retries.{retries_by};
ghost use Rattle.response_reader.specs.Limits.{limited};
ghost use Rattle.retries.specs.Keeping.{MayKeep, asks_of, is_worth_answer, lost_of};
ghost use Rattle.retries.specs.Tries.{IsLastOf};

use crate::calling::CallingConnect;
use crate::delay::pause_after;
use crate::worth::is_worth_outcome;
use address::{Address, Origin};
use fetcher::Answer;
use http_fetcher::HttpFetcher;
use kept_bodies::Keeper;
use pacing::Retries;
use response_answer::PageSink;
use response_reader::Limits;
use std::alloc::AllocError;

/// Requests a page as [`crate::ask`] does, except that its body goes to the sink's keeper while it arrives. What was kept of an earlier
/// try is given up: a body begins anew. Each answer is within these limits. The error is that memory ran out.
pub fn ask_into<C: CallingConnect, K: Keeper>(
    inner: &mut HttpFetcher<C>,
    sink: &mut PageSink<K>,
    retries: &Retries,
    at: &Address,
    limits: Limits,
) -> Result<Answer<K::Kept>, AllocError>
    ensures links { inner.new.links ≡ inner.old.links }
    // Each try has the condition, if there is one.
    ensures sends { inner.new.sends ≡ inner.old.sends }
    ensures told { IfOk result (MayKeep K.holds (limited limits) at.now inner.old) }
    ensures tries { IfOk result (IsLastOf asks_of (lost_of C.lost) (MayKeep K.holds (limited limits) at.now) (is_worth_answer (retries_by retries.now)) (ask.Page at.now) retries.now.most inner.old inner.new) }
{
    let mut answer = inner.ask_into(at, sink, limits)?;
    for made in 0..retries.most {
        if !is_worth_outcome(retries, &answer.outcome, inner.connect().loss()) {
            return Ok(answer);
        }
        let of = Origin::of(at)?;
        let pause = pause_after(retries, made, inner.connect().now(), sink.retry_after());
        inner.connect().leave_alone(&of, pause);
        answer = inner.ask_into(at, sink, limits)?;
    }
    Ok(answer)
}
