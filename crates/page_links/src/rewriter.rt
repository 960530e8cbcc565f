//! Pages with other links.
ghost use Rattle.std.specs.Prelude.{◌≡◌, true, IfOk, MatchOption};
ghost use Rattle.html_links.specs.Links.{links_of_body};
ghost use Rattle.html_links.specs.Scanning.{scanned};
ghost use Rattle.page_links.specs.Rewriting.{IsAnew, AreChanged, ReadsOtherwise};

use crate::comparing::are_changed;
use crate::page_change::PageChange;
use crate::writer::Writer;
use html_links::{HtmlScanner, OutOfMemory, Scan, Syntax};
use std::alloc::{AllocError, Global};

/// What is found in a body of that syntax.
///
/// # Errors
/// `OutOfMemory` if a growth is refused.
pub fn scan(alloc: Global, syntax: Syntax, body: &[u8]) -> Result<Scan, OutOfMemory>
    ensures { IfOk result (λ scan. scanned scan ≡ links_of_body syntax body.now) }
{
    let mut scanner = HtmlScanner::with_syntax(alloc, syntax);
    scanner.feed(body)?;
    scanner.finish()
}

/// Whether a page stays as it is: what its links and its base become is what they are. `found` is what [`scan`] finds in the page. The error
/// is out of memory.
pub fn stays<P: PageChange>(changes: &P, found: &Scan) -> Result<bool, AllocError>
    ensures { IfOk result (λ stays. stays ≡ true → AreChanged (P.becomes changes.now) (P.known changes.now) (scanned found.now) (scanned found.now)) }
{
    are_changed(changes, found, found)
}

/// A page with its links and its base changed: no byte is another except those of values that have links or are the base, and the links
/// are those of the page, each changed. Nothing, if what was written reads otherwise: then the page is to stay as it is. `found` is what
/// [`scan`] finds in the page.
///
/// # Errors
/// `OutOfMemory` if a growth is refused.
pub fn rewrite<P: PageChange>(
    alloc: Global,
    changes: &P,
    syntax: Syntax,
    page: &[u8],
    found: &Scan,
) -> Result<Option<Vec<u8>>, OutOfMemory>
    requires { scanned found.now ≡ links_of_body syntax page.now }
    ensures refused { IfOk result (λ other. MatchOption other (ReadsOtherwise (P.becomes changes.now) (P.known changes.now) syntax page.now) (λ other. Unit {0})) }
    ensures kept { IfOk result (λ other. MatchOption other (Unit {0}) (λ other. IsAnew (P.becomes changes.now) syntax page.now other.items)) }
    ensures links { IfOk result (λ other. MatchOption other (Unit {0}) (λ other. AreChanged (P.becomes changes.now) (P.known changes.now) (links_of_body syntax page.now) (links_of_body syntax other.items))) }
{
    let mut writer = Writer::new(alloc, syntax);
    writer.write(changes, page)?;
    let Writer { scanner, out, .. } = writer;
    let new = scanner.finish()?;
    if are_changed(changes, found, &new)? {
        Ok(Some(out))
    } else {
        Ok(None)
    }
}
