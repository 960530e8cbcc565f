//! The edges of a page of HTML or of a style sheet, from what a scan of its body found (HTML Standard, section 2.4.3).
ghost use Rattle.std.specs.Prelude.{◌≡◌, ◌++◌, ◌&&◌, IfOk, OnOk, option_map, string_bytes};
ghost use Rattle.html_links.specs.Scanning.{scanned};
ghost use Rattle.response_answer.specs.Digests.{address_or_none, named_from, edge_kind, edge_of, edge_of_reference, edges_from, document_base, base_or, page_edges, sheet_edges};
ghost use Rattle.html_links.specs.declared.links.LinkKind.TheVariants as link;

use address::{Address, AddressFault};
use css_links::Found as Reference;
use fetcher::{Edge, EdgeKind, Edges};
use html_links::{FoundLink, LinkKind, LinkRules, Scan};
use std::alloc::{AllocError, Global};

/// What a text names from a base. Fails only if memory runs out.
pub(crate) fn joined(base: &Address, text: &str) -> Result<Option<Address>, AllocError>
    ensures { IfOk result (λ a. a ≡ address_or_none (join_address base.now text.now)) }
{
    match base.join(text) {
        Ok(address) => Ok(Some(address)),
        Err(AddressFault::Memory) => Err(AllocError),
        Err(_) => Ok(None),
    }
}

ghost use Rattle.address.specs.Address.{join_address};

/// What bytes name from a base: an address, if they are text. Fails only if memory runs out.
pub(crate) fn named(base: &Address, text: &[u8]) -> Result<Option<Address>, AllocError>
    ensures { IfOk result (λ a. a ≡ named_from base.now text.now) }
{
    match str::from_utf8(text) {
        Ok(text) => joined(base, text),
        Err(_) => Ok(None),
    }
}

// How a page names what a link leads to, if it is followed.
fn edge_kind(kind: LinkKind) -> Option<EdgeKind>
    ensures { result ≡ edge_kind kind }
{
    match kind {
        LinkKind::Link => Some(EdgeKind::Link),
        LinkKind::Inline => Some(EdgeKind::Inline),
        LinkKind::Mention => None,
    }
}

// Adds the edge of a link, if it is taken and followed, and leads to an address.
fn add_edge(
    edges: &mut Vec<Edge>,
    base: &Address,
    rules: LinkRules,
    link: &FoundLink,
) -> Result<(), AllocError>
    ensures { OnOk result (edges.new.items ≡ edges.old.items ++ edge_of rules base.now link.now) }
{
    if !rules.takes(link) {
        return Ok(());
    }
    let Some(kind) = edge_kind(link.kind) else {
        return Ok(());
    };
    if let Some(target) = joined(base, link.text.as_str())? {
        edges.push(Edge { target, kind })?;
    }
    Ok(())
}

// The edges of links that are joined to a base, in their order.
fn edges_from(
    alloc: Global,
    base: &Address,
    rules: LinkRules,
    links: &[FoundLink],
) -> Result<Vec<Edge>, AllocError>
    ensures { IfOk result (λ edges. edges.items ≡ edges_from rules base.now links.now) }
{
    let mut edges = Vec::new(alloc);
    for link in links {
        add_edge(&mut edges, base, rules, link)?;
    }
    Ok(edges)
}

// What the first `base` of a document names from its address, if it has one.
fn named_base(at: &Address, base: &Option<String>) -> Result<Option<Address>, AllocError>
    ensures { IfOk result (λ b. base_or at.now b ≡ document_base at.now (option_map string_bytes base.now)) }
{
    match base {
        Some(text) => joined(at, text.as_str()),
        None => Ok(None),
    }
}

// The edges of links of a document whose base is this one, or its own address.
fn edges_by(
    alloc: Global,
    at: &Address,
    base: &Option<Address>,
    rules: LinkRules,
    links: &[FoundLink],
) -> Result<Vec<Edge>, AllocError>
    ensures { IfOk result (λ edges. edges.items ≡ edges_from rules (base_or at.now base.now) links.now) }
{
    match base {
        Some(base) => edges_from(alloc, base, rules, links),
        None => edges_from(alloc, at, rules, links),
    }
}

// Whether a page asks that its links aren't followed, and this is honoured.
fn is_silent(rules: LinkRules, scan: &Scan) -> bool
    ensures { result ≡ (rules.robots && scan.now.nofollow) }
{
    rules.robots && scan.nofollow
}

/// The edges of a page, from what a scan of its body found: those of the links that are taken, and none if the page asks that its links
/// aren't followed and this is honoured. Fails only if memory runs out.
pub(crate) fn page_edges(
    alloc: Global,
    at: &Address,
    rules: LinkRules,
    scan: &Scan,
) -> Result<Edges, AllocError>
    ensures { IfOk result (λ edges. edges ≡ page_edges rules at.now (scanned scan.now)) }
{
    if is_silent(rules, scan) {
        return Edges::new(Vec::new(alloc));
    }
    let base = named_base(at, &scan.base)?;
    let edges = edges_by(alloc, at, &base, rules, &scan.links)?;
    Edges::new(edges)
}

// Adds the edge of a reference of a style sheet, if it is taken and leads to an address.
fn add_shown(
    edges: &mut Vec<Edge>,
    base: &Address,
    rules: LinkRules,
    found: &Reference,
) -> Result<(), AllocError>
    ensures { OnOk result (edges.new.items ≡ edges.old.items ++ edge_of_reference rules base.now found.now) }
{
    if !rules.takes_text(found.text.as_bytes()) {
        return Ok(());
    }
    if let Some(target) = joined(base, found.text.as_str())? {
        edges.push(Edge {
            target,
            kind: EdgeKind::Inline,
        })?;
    }
    Ok(())
}

// The edges of references of a style sheet at this address, in their order.
fn shown_from(
    alloc: Global,
    at: &Address,
    rules: LinkRules,
    found: &[Reference],
) -> Result<Vec<Edge>, AllocError>
    ensures { IfOk result (λ edges. edges.items ≡ sheet_edges rules at.now found.now) }
{
    let mut edges = Vec::new(alloc);
    for reference in found {
        add_shown(&mut edges, at, rules, reference)?;
    }
    Ok(edges)
}

/// The edges of a style sheet, from what a scan of it found: those of its references whose texts are taken. Fails only if memory runs out.
pub(crate) fn sheet_edges(
    alloc: Global,
    at: &Address,
    rules: LinkRules,
    found: &[Reference],
) -> Result<Edges, AllocError>
    ensures { IfOk result (λ edges. edges ≡ sheet_edges rules at.now found.now) }
{
    let edges = shown_from(alloc, at, rules, found)?;
    Edges::new(edges)
}
