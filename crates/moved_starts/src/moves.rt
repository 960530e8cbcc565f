//! Where the redirects of starts lead that aren't followed, and the line of it.
ghost use Rattle.std.specs.Prelude.{◌≡◌, ◌++◌, IfOk, OnOk, bytes_eq, option_map, string_bytes};
ghost use Rattle.std.specs.List.{find, flat_map, list_any};
ghost use Rattle.address.specs.Address.{scheme_of};
ghost use Rattle.follow_filters.specs.Plans.{starts};
ghost use Rattle.moved_starts.specs.Moves.{advice_on, by_way_of, end_line, end_of, if_recorded, insecure_line, is_moved, move_line, moves_text, next_in, next_of, option_of, outcome_in, secure_advice, secure_text, start_line, stopped_line, unread_line, words_to};

use address::{Address, Scheme};
use fetcher::{EdgeKind, Outcome, is_redirect};
use follow_filters::{FollowRule, Plan};
use std::alloc::{AllocError, Global};

/// How many redirects of a start are looked at. Whoever redirects more often leads nowhere that a person would want to go.
const MAX_MOVES: u32 = 100;

// The first record of an address. Few are looked for: those to which starts redirect.
fn recorded_at<'a>(
    records: &'a [(Address, Outcome)],
    address: &Address,
) -> Option<&'a (Address, Outcome)>
    ensures { option_map (λ recorded. recorded.now) result ≡ find (λ recorded. bytes_eq recorded.0 address.now) records.now }
{
    records.iter().find(|recorded| recorded.0 == *address)
}

// What is recorded of an address.
fn outcome_in<'a>(records: &'a [(Address, Outcome)], address: &Address) -> Option<&'a Outcome>
    ensures { option_map (λ outcome. outcome.now) result ≡ outcome_in records.now address.now }
{
    match recorded_at(records, address) {
        Some((_, outcome)) => Some(outcome),
        None => None,
    }
}

// The target of a redirect, if it is recorded too.
fn if_recorded<'a>(records: &[(Address, Outcome)], target: &'a Address) -> Option<&'a Address>
    ensures { option_map (λ found. found.now) result ≡ if_recorded records.now target.now }
{
    if outcome_in(records, target).is_some() {
        Some(target)
    } else {
        None
    }
}

// Where an outcome redirects, if what is there is recorded.
fn next_of<'a>(records: &[(Address, Outcome)], outcome: Option<&'a Outcome>) -> Option<&'a Address>
    ensures { option_map (λ target. target.now) result ≡ next_of records.now (option_map (λ x. x.now) outcome.entry) }
{
    match outcome {
        Some(Outcome::Moved(_, target)) => if_recorded(records, target),
        Some(Outcome::Page(_, _) | Outcome::Leaf(_) | Outcome::Fault(_)) | None => None,
    }
}

// Where what is recorded of an address redirects, if what is there is recorded.
fn next_in<'a>(records: &'a [(Address, Outcome)], at: &Address) -> Option<&'a Address>
    ensures { option_map (λ target. target.now) result ≡ next_in records.now at.now }
{
    next_of(records, outcome_in(records, at))
}

// The end of the redirects from an address that were followed, of which at most so many are looked at.
fn end_of<'a>(records: &'a [(Address, Outcome)], start: &'a Address, most: u32) -> &'a Address
    ensures { result.now ≡ end_of records.now most start.now }
{
    let mut at = start;
    let mut left = most;
    while left > 0 {
        match next_in(records, at) {
            Some(target) => at = target,
            None => return at,
        }
        left -= 1;
    }
    at
}

// The option that leaves an address out.
fn option_of(rule: FollowRule) -> &'static str
    ensures { result.now ≡ option_of rule }
{
    match rule {
        FollowRule::RobotsFile | FollowRule::Host => "",
        FollowRule::Parent => "-np",
        FollowRule::Domain => "-D",
        FollowRule::ExcludedDomain => "--exclude-domains",
        FollowRule::NotIncluded => "-I",
        FollowRule::Excluded => "-X",
        FollowRule::NotAccepted => "-A",
        FollowRule::Rejected => "-R",
        FollowRule::ExpressionMissing => "--accept-regex",
        FollowRule::ExpressionFound => "--reject-regex",
    }
}

// The words by which a link to this host is followed.
fn words_to(alloc: Global, host: &str) -> Result<String, AllocError>
    ensures { IfOk result (λ words. string_bytes words ≡ words_to host.now) }
{
    // (an address of IPv6, which is no domain)
    if host.as_bytes().starts_with(b"[") {
        return String::from_str(alloc, "-H");
    }
    format!(in alloc; "-D {host} -H")
}

// Why a redirect isn't followed to this target, and what would go there.
fn advice_on(alloc: Global, rule: FollowRule, target: &Address) -> Result<String, AllocError>
    ensures { IfOk result (λ advice. string_bytes advice ≡ advice_on rule target.now) }
{
    match rule {
        FollowRule::RobotsFile => String::from_str(alloc, ", which is a robots file"),
        FollowRule::Host => {
            let words = words_to(alloc, target.host())?;
            format!(in alloc; ": give that as START, or {words}")
        }
        other => {
            let option = option_of(other);
            format!(in alloc; ": give that as START, since {option} leaves it out")
        }
    }
}

// Adds the line of a start whose redirects lead to a target, by the rule that this doesn't meet.
fn push_stopped(
    alloc: Global,
    text: &mut String,
    start: &Address,
    target: &Address,
    verdict: Result<(), FollowRule>,
) -> Result<(), AllocError>
    ensures ok { OnOk result (string_bytes text.new ≡ string_bytes text.old ++ stopped_line start.now target.now verdict) }
{
    let Err(rule) = verdict else {
        return Ok(());
    };
    let advice = advice_on(alloc, rule, target)?;
    let (from, to) = (start.as_str(), target.as_str());
    writeln!(text, "{from} moved to {to}{advice}")
}

// The address with https in place of http; with a port of its own it isn't known.
fn secure_text(alloc: Global, at: &Address) -> Result<String, AllocError>
    ensures { IfOk result (λ text. string_bytes text ≡ secure_text at.now) }
{
    let (authority, host) = (at.authority(), at.host());
    if authority != host {
        return String::from_str(alloc, "the https address");
    }
    let path = at.path_query();
    format!(in alloc; "https://{host}{path}")
}

// The end of redirects, if that isn't the start itself.
#[tactic(auto, unfolding(crate::specs::Moves::by_way_of))]
fn by_way_of(alloc: Global, start: &Address, end: &Address) -> Result<String, AllocError>
    ensures { IfOk result (λ text. string_bytes text ≡ by_way_of start.now end.now) }
{
    if *start == *end {
        return String::from_str(alloc, " moved");
    }
    let end = end.as_str();
    format!(in alloc; " moved to {end}, and from there")
}

// What would go on from this address.
#[tactic(auto, unfolding(crate::specs::Moves::secure_advice))]
fn secure_advice(alloc: Global, at: &Address) -> Result<String, AllocError>
    ensures { IfOk result (λ advice. string_bytes advice ≡ secure_advice at.now) }
{
    let secure = secure_text(alloc, at)?;
    format!(in alloc;
        " to no http address: if to https, give {secure} as START, with --https-proxy=URL (docs/HTTPS.md)"
    )
}

// Adds the line of a start whose redirects lead from this http address to none that is http.
fn push_insecure(
    alloc: Global,
    text: &mut String,
    start: &Address,
    end: &Address,
) -> Result<(), AllocError>
    ensures ok { OnOk result (string_bytes text.new ≡ string_bytes text.old ++ insecure_line start.now end.now) }
{
    let way = by_way_of(alloc, start, end)?;
    let advice = secure_advice(alloc, end)?;
    let from = start.as_str();
    writeln!(text, "{from}{way}{advice}")
}

// Adds the line of a start whose redirects lead from this address to none, by its scheme.
fn push_unread(
    alloc: Global,
    text: &mut String,
    start: &Address,
    end: &Address,
) -> Result<(), AllocError>
    ensures ok { OnOk result (string_bytes text.new ≡ string_bytes text.old ++ unread_line start.now end.now (scheme_of end.now)) }
{
    match end.scheme() {
        Scheme::Http => push_insecure(alloc, text, start, end),
        Scheme::Https => Ok(()),
    }
}

// Adds the line of a start whose redirects end at this address, by what is recorded of that.
fn push_end(
    alloc: Global,
    text: &mut String,
    plan: &Plan,
    start: &Address,
    end: &Address,
    outcome: Option<&Outcome>,
) -> Result<(), AllocError>
    ensures ok { OnOk result (string_bytes text.new ≡ string_bytes text.old ++ end_line plan.now start.now end.now (option_map (λ x. x.now) outcome.entry)) }
{
    match outcome {
        Some(Outcome::Moved(_, target)) => {
            let verdict = plan.follows(end, EdgeKind::Redirect, target);
            push_stopped(alloc, text, start, target, verdict)
        }
        Some(Outcome::Leaf(status)) if is_redirect(*status) => push_unread(alloc, text, start, end),
        _ => Ok(()),
    }
}

// Adds the line of a start.
fn push_start(
    alloc: Global,
    text: &mut String,
    plan: &Plan,
    records: &[(Address, Outcome)],
    start: &Address,
) -> Result<(), AllocError>
    ensures ok { OnOk result (string_bytes text.new ≡ string_bytes text.old ++ start_line plan.now records.now start.now) }
{
    let end = end_of(records, start, MAX_MOVES);
    push_end(alloc, text, plan, start, end, outcome_in(records, end))
}

// Whether an address is a start of the plan.
fn is_start(plan: &Plan, address: &Address) -> bool
    ensures { result ≡ list_any (λ one. bytes_eq address.now one) (starts plan.now) }
{
    *address == plan.start || plan.others.has(address)
}

// Whether the outcome redirects, whether or not to an address.
fn is_moved(outcome: &Outcome) -> bool
    ensures { result ≡ is_moved outcome.now }
{
    match outcome {
        Outcome::Moved(_, _) => true,
        Outcome::Leaf(status) => is_redirect(*status),
        Outcome::Page(_, _) | Outcome::Fault(_) => false,
    }
}

// Adds the line of what is recorded of an address, if it is a start that redirects.
#[tactic(auto, unfolding(crate::specs::Moves::move_line))]
fn push_move(
    alloc: Global,
    text: &mut String,
    plan: &Plan,
    records: &[(Address, Outcome)],
    recorded: &(Address, Outcome),
) -> Result<(), AllocError>
    ensures ok { OnOk result (string_bytes text.new ≡ string_bytes text.old ++ move_line plan.now records.now recorded.now) }
{
    if is_moved(&recorded.1) && is_start(plan, &recorded.0) {
        return push_start(alloc, text, plan, records, &recorded.0);
    }
    Ok(())
}

// Adds the lines of all that is recorded.
fn push_moves(
    alloc: Global,
    text: &mut String,
    plan: &Plan,
    records: &[(Address, Outcome)],
) -> Result<(), AllocError>
    ensures ok { OnOk result (string_bytes text.new ≡ string_bytes text.old ++ flat_map (move_line plan.now records.now) records.now) }
{
    for recorded in records {
        push_move(alloc, text, plan, records, recorded)?;
    }
    Ok(())
}

/// What a person reads of the starts of a plan that moved away, by what is recorded of addresses: a line for each, in the order
/// in which they are recorded. Fails only if memory runs out.
pub fn moves_text(
    alloc: Global,
    plan: &Plan,
    records: &[(Address, Outcome)],
) -> Result<String, AllocError>
    ensures { IfOk result (λ text. string_bytes text ≡ moves_text plan.now records.now) }
{
    let mut text = String::new(alloc);
    push_moves(alloc, &mut text, plan, records)?;
    Ok(text)
}
