//! Which bodies are kept.
ghost use Rattle.std.specs.Prelude.{◌≡◌};
ghost use Rattle.workers.specs.inner.Notes.{body_of};

use address::Address;
use fetcher::Outcome;
use follow_filters::Plan;
use harvest::is_success;

/// The body, if the page is kept: it was a success, and the plan keeps its name.
pub(crate) fn keep_body<B: Drop>(
    plan: &Plan,
    address: &Address,
    outcome: &Outcome,
    body: B,
) -> Option<B>
    ensures { result ≡ body_of plan.now address.now outcome.now body }
{
    if plan.keeps(address) && is_success(outcome) {
        Some(body)
    } else {
        None
    }
}
