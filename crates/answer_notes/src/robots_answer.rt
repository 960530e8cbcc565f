//! Which rules the status and the body of an answer give (RFC 9309, section 2.3.1).
ghost use Rattle.std.specs.Prelude.{◌≡◌, IfOk};
ghost use Rattle.answer_notes.specs.RobotsAnswers.{rules_by_status};

use fetcher::is_successful;
use robots_rules::{RuleSet, parse};
use std::alloc::{AllocError, Global};

/// How many redirects of a robots file are followed (RFC 9309, section 2.3.1.2).
pub const MAX_REDIRECTS: u32 = 5;

/// The first status that says that the server failed (RFC 9110, section 15.6).
const FIRST_SERVER_ERROR: u16 = 500;

/// The last of these.
const LAST_SERVER_ERROR: u16 = 599;

/// The rules by the status and the body of the last answer.
#[tactic(auto, unfolding(crate::specs::RobotsAnswers::rules_by_status))]
pub(crate) fn rules_by_status(
    alloc: Global,
    status: u16,
    file: &[u8],
) -> Result<RuleSet, AllocError>
    ensures { IfOk result (λ rules. rules ≡ rules_by_status status file.now) }
{
    if is_successful(status) {
        return parse(alloc, file);
    }
    if FIRST_SERVER_ERROR <= status && status <= LAST_SERVER_ERROR {
        return Ok(RuleSet::none());
    }
    Ok(RuleSet::all())
}
