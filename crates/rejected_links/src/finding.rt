//! Finding the links that are rejected.
ghost use Rattle.std.specs.Prelude.{◌≡◌, ◌↔◌, ◌++◌, IfOk, OnOk, Contains, bytes_eq, map};
ghost use Rattle.std.specs.List.{filter_map, list_any};
ghost use Rattle.address.specs.AddressOrder.{IsAscending};
ghost use Rattle.fetcher.specs.Outcomes.{edges};
ghost use Rattle.rejected_links.specs.Lines.{Rejected};
ghost use Rattle.rejected_links.specs.Rejections.{found_addresses};
ghost use Rattle.rejected_links.specs.inner.Links.{seen, AreSorted};
ghost use Rattle.rejected_links.specs.inner.Found.{rejection, rejected_edge, rejected_in};

use crate::reason::Reason;
use crate::rejected_link::RejectedLink;
use address::Address;
use fetcher::{EdgeKind, Outcome};
use follow_filters::Plan;
use harvest::HarvestEntry;
use std::alloc::{AllocError, Global};

// Whether an address was found: whether entries in address order have it.
fn is_found(entries: &[HarvestEntry], address: &Address) -> bool
    requires { IsAscending (found_addresses entries.now) }
    ensures { result ≡ list_any (bytes_eq address.now) (found_addresses entries.now) }
{
    entries
        .binary_search_by(|entry| entry.address.cmp(address))
        .is_ok()
}

// Why a page's edge of the kind is rejected, if it is.
fn rejection(
    plan: &Plan,
    entries: &[HarvestEntry],
    page: &Address,
    kind: EdgeKind,
    target: &Address,
) -> Option<Reason>
    requires { IsAscending (found_addresses entries.now) }
    ensures { result ≡ rejection plan.now (found_addresses entries.now) page.now kind target.now }
{
    let Err(rule) = plan.follows(page, kind, target) else {
        return None;
    };
    if is_found(entries, target) {
        return None;
    }
    Some(Reason::of(rule))
}

// Adds the rejected links of one page.
fn push_rejected<'a>(
    links: &mut Vec<RejectedLink<'a>>,
    plan: &Plan,
    entries: &[HarvestEntry],
    page: &'a Address,
    outcome: &'a Outcome,
) -> Result<(), AllocError>
    requires { IsAscending (found_addresses entries.now) }
    ensures { OnOk result (map seen links.new.items ≡ map seen links.old.items ++ filter_map (rejected_edge plan.now (found_addresses entries.now) page.now) (edges outcome.now)) }
{
    for k in 0..outcome.edge_count() {
        let (target, kind) = outcome.edge(k);
        let Some(reason) = rejection(plan, entries, page, kind, target) else {
            continue;
        };
        links.push(RejectedLink {
            reason,
            target,
            page,
        })?;
    }
    Ok(())
}

// The rejected links of all pages, in the order of the records.
fn list_rejected<'a>(
    alloc: Global,
    plan: &Plan,
    entries: &[HarvestEntry],
    records: &'a [(Address, Outcome)],
) -> Result<Vec<RejectedLink<'a>>, AllocError>
    requires { IsAscending (found_addresses entries.now) }
    ensures { IfOk result (λ links. map seen links.items ≡ rejected_in plan.now (found_addresses entries.now) records.now) }
{
    let mut links = Vec::new(alloc);
    for (page, outcome) in records {
        push_rejected(&mut links, plan, entries, page, outcome)?;
    }
    Ok(links)
}

/// The rejected links of all pages, sorted, each once. Fails only if memory runs out.
pub(crate) fn rejected_links<'a>(
    alloc: Global,
    plan: &Plan,
    entries: &[HarvestEntry],
    records: &'a [(Address, Outcome)],
) -> Result<Vec<RejectedLink<'a>>, AllocError>
    requires { IsAscending (found_addresses entries.now) }
    ensures sorted { IfOk result (λ links. AreSorted links.items) }
    ensures same { IfOk result (λ links. (link : Rejected) → Contains (map seen links.items) link ↔ Contains (rejected_in plan.now (found_addresses entries.now) records.now) link) }
{
    let mut links = list_rejected(alloc, plan, entries, records)?;
    links.sort_unstable();
    links.dedup();
    Ok(links)
}
