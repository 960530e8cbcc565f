//! HTML: an address a link.
ghost use Rattle.std.specs.Prelude.{◌≡◌, ◌++◌, IfOk, OnOk, map, option_map, string_bytes};
ghost use Rattle.html_links.specs.Scanning.{scanned};
ghost use Rattle.start_lists.specs.Lists.{base_of_document, html_starts, link_starts, starts_of_links};

use crate::resolved::{resolved, unless_robots};
use address::Address;
use html_links::{FoundLink, Scan, scan};
use std::alloc::{AllocError, Global};

// What the links of a document are joined to, if its first `base` names it.
fn named_base(
    alloc: Global,
    by_proxy: bool,
    base: Option<&Address>,
    named: &Option<String>,
) -> Result<Option<Address>, AllocError>
    ensures { IfOk result (λ found. option_or found (option_map (λ b. b.now) base.entry) ≡ base_of_document by_proxy (option_map (λ b. b.now) base.entry) (option_map string_bytes named.now)) }
{
    match named {
        Some(text) => resolved(alloc, by_proxy, base, text.as_str()),
        None => Ok(None),
    }
}

// Adds the start that a link names, if it is followed and names one.
fn push_link(
    alloc: Global,
    starts: &mut Vec<Address>,
    by_proxy: bool,
    base: Option<&Address>,
    link: &FoundLink,
) -> Result<(), AllocError>
    ensures { OnOk result (starts.new.items ≡ starts.old.items ++ link_starts by_proxy (option_map (λ b. b.now) base.entry) link.now) }
{
    if !link.kind.is_followed() {
        return Ok(());
    }
    let found = resolved(alloc, by_proxy, base, link.text.as_str())?;
    if let Some(start) = unless_robots(found) {
        starts.push(start)?;
    }
    Ok(())
}

// The starts of links that are joined to this.
fn starts_of_links(
    alloc: Global,
    by_proxy: bool,
    base: Option<&Address>,
    links: &[FoundLink],
) -> Result<Vec<Address>, AllocError>
    ensures { IfOk result (λ starts. starts.items ≡ flat_map (link_starts by_proxy (option_map (λ b. b.now) base.entry)) links.now) }
{
    let mut starts = Vec::new(alloc);
    for link in links {
        push_link(alloc, &mut starts, by_proxy, base, link)?;
    }
    Ok(starts)
}

// The starts of what a scan found.
fn starts_of_scan(
    alloc: Global,
    by_proxy: bool,
    base: Option<&Address>,
    scan: &Scan,
) -> Result<Vec<Address>, AllocError>
    ensures { IfOk result (λ starts. starts.items ≡ starts_of_links by_proxy (option_map (λ b. b.now) base.entry) (scanned scan.now)) }
{
    let own = named_base(alloc, by_proxy, base, &scan.base)?;
    match &own {
        Some(own) => starts_of_links(alloc, by_proxy, Some(own), &scan.links),
        None => starts_of_links(alloc, by_proxy, base, &scan.links),
    }
}

/// The starts that the links of HTML name, in the order of the document. Links that are relative to nothing are passed over, and so
/// are those that name no address. Fails only if memory runs out.
pub fn starts_of_html(
    alloc: Global,
    body: &[u8],
    by_proxy: bool,
    base: Option<&Address>,
) -> Result<Vec<Address>, AllocError>
    ensures { IfOk result (λ starts. starts.items ≡ html_starts by_proxy (option_map (λ b. b.now) base.entry) body.now) }
{
    match scan(alloc, body) {
        Ok(found) => starts_of_scan(alloc, by_proxy, base, &found),
        Err(_) => Err(AllocError),
    }
}

ghost use Rattle.std.specs.List.{flat_map};
ghost use Rattle.std.specs.Option.{option_or};
