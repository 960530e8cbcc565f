//! How a page was read: as HTML, or as XML (HTML Standard, section 14).
ghost use Rattle.std.specs.Prelude.{◌≡◌, IfOk, MatchOption};
ghost use Rattle.html_links.specs.Links.{links_of_body};
ghost use Rattle.html_links.specs.Scanning.{scanned};
ghost use Rattle.run_mirror.specs.inner.Readings.{by};

use crate::anew::base_of;
use address::{Address, AddressFault};
use fetcher::Edge;
use html_links::{FoundLink, Scan, Syntax};
use memchr::memmem;
use page_links::scan;
use std::alloc::{AllocError, Global};

/// The namespace that a page of XML names, and one of HTML may name (HTML Standard, section 14.1).
const NAMESPACE: &[u8] = b"http://www.w3.org/1999/xhtml";

/// A syntax, and what a page has by it.
#[derive(Drop)]
pub(crate) struct PageReading {
    pub(crate) syntax: Syntax,
    pub(crate) found: Scan,
}

/// What a page has by that syntax.
fn scan_as(alloc: Global, syntax: Syntax, page: &[u8]) -> Result<Scan, AllocError>
    ensures { IfOk result (λ found. scanned found ≡ links_of_body syntax page.now) }
{
    match scan(alloc, syntax, page) {
        Ok(found) => Ok(found),
        Err(_) => Err(AllocError),
    }
}

/// Whether both are the same links.
fn are_same(links: &[FoundLink], others: &[FoundLink]) -> bool {
    links.len() == others.len()
        && links.iter().zip(others.iter()).all(|(link, other)| link.kind == other.kind
            && link.text.as_str() == other.text.as_str())
}

/// Whether those of these links that are followed lead from this base where the edges lead.
fn lead_to(base: &Address, links: &[FoundLink], edges: &[Edge]) -> Result<bool, AllocError> {
    let mut left = edges;
    for link in links {
        if !link.kind.is_followed() {
            continue;
        }
        match base.join(link.text.as_str()) {
            Ok(target) => {
                let [edge, more @ ..] = left else {
                    return Ok(false);
                };
                if edge.target != target {
                    return Ok(false);
                }
                left = more;
            },
            Err(AddressFault::Memory) => return Err(AllocError),
            Err(_) => {},
        }
    }
    Ok(left.is_empty())
}

/// Whether what was found in a page of that address leads where the edges lead. From a page whose links aren't to be followed none lead.
fn gives(address: &Address, found: &Scan, edges: &[Edge]) -> Result<bool, AllocError> {
    if found.nofollow && edges.is_empty() {
        return Ok(true);
    }
    let base = base_of(address, &found.base)?;
    lead_to(&base, &found.links, edges)
}

/// How a page of that address is read: as HTML, unless it may be XML and only by that reading has links to where these edges lead. Nothing,
/// if no reading does. Which Content-Type it had isn't kept of it, but it is only in doubt if both readings differ.
pub(crate) fn reading_of(
    alloc: Global,
    address: &Address,
    edges: &[Edge],
    page: &[u8],
) -> Result<Option<PageReading>, AllocError>
    ensures { IfOk result (λ reading. MatchOption reading (Unit {0}) (λ reading. scanned reading.found ≡ links_of_body reading.syntax page.now)) }
{
    let html = scan_as(alloc, Syntax::Html, page)?;
    if memmem::find(page, NAMESPACE).is_none() {
        return Ok(Some(PageReading {
            syntax: Syntax::Html,
            found: html,
        }));
    }
    let xml = scan_as(alloc, Syntax::Xml, page)?;
    choose(address, edges, html, xml)
}

fn choose(
    address: &Address,
    edges: &[Edge],
    html: Scan,
    xml: Scan,
) -> Result<Option<PageReading>, AllocError>
    ensures { IfOk result (λ reading. MatchOption reading (Unit {0}) (λ reading. scanned reading.found ≡ by reading.syntax (scanned html) (scanned xml))) }
{
    if are_same(&html.links, &xml.links) || gives(address, &html, edges)? {
        Ok(Some(PageReading {
            syntax: Syntax::Html,
            found: html,
        }))
    } else if gives(address, &xml, edges)? {
        Ok(Some(PageReading {
            syntax: Syntax::Xml,
            found: xml,
        }))
    } else {
        Ok(None)
    }
}
