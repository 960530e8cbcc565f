//! Style sheets with other links (CSS Values and Units Level 3, section 3.4).
ghost use Rattle.std.specs.Prelude.{◌≡◌, true, IfOk, MatchOption};
ghost use Rattle.css_links.specs.References.{references};
ghost use Rattle.css_links.specs.Rewriting as sheets;
ghost use Rattle.html_links.specs.declared.awaiting.ValueForm.TheVariants.{Sheet};
ghost use Rattle.page_links.specs.Rewriting.{AreReferencesChanged};

use crate::comparing::is_changed;
use crate::page_change::PageChange;
use crate::value::sheet_anew;
use css_links::Found;
use html_links::{OutOfMemory, ValueForm};
use std::alloc::{AllocError, Global};

/// The references of a style sheet.
fn scan_sheet(alloc: Global, sheet: &[u8]) -> Result<Vec<Found>, OutOfMemory>
    ensures { IfOk result (λ found. found.items ≡ references sheet.now) }
{
    match css_links::scan(alloc, sheet) {
        Ok(found) => Ok(found),
        Err(_) => Err(OutOfMemory),
    }
}

/// Whether these references are the other ones, changed.
fn are_references_changed<P: PageChange>(
    changes: &P,
    old: &[Found],
    new: &[Found],
) -> Result<bool, AllocError>
    ensures { IfOk result (λ are. are ≡ true → AreReferencesChanged (P.becomes changes.now Sheet) (P.known changes.now Sheet) old.now new.now) }
{
    let mut left = old;
    let mut others = new;
    while let [reference, behind @ ..] = left {
        let [other, more @ ..] = others else {
            return Ok(false);
        };
        if !is_changed(
            changes,
            ValueForm::Sheet,
            reference.text.as_str(),
            other.text.as_str(),
        )? {
            return Ok(false);
        }
        left = behind;
        others = more;
    }
    Ok(others.is_empty())
}

/// A style sheet with its references changed: no other byte is another. Nothing, if what was written reads otherwise: then the sheet is to
/// stay as it is.
///
/// # Errors
/// `OutOfMemory` if a growth is refused.
pub fn rewrite_sheet<P: PageChange>(
    alloc: Global,
    changes: &P,
    sheet: &[u8],
) -> Result<Option<Vec<u8>>, OutOfMemory>
    ensures kept { IfOk result (λ other. MatchOption other (Unit {0}) (λ other. sheets.IsAnew (P.becomes changes.now Sheet) sheet.now other.items)) }
    ensures references { IfOk result (λ other. MatchOption other (Unit {0}) (λ other. AreReferencesChanged (P.becomes changes.now Sheet) (P.known changes.now Sheet) (references sheet.now) (references other.items))) }
{
    let old = scan_sheet(alloc, sheet)?;
    let anew = sheet_anew(alloc, changes, sheet)?;
    let new = scan_sheet(alloc, &anew)?;
    if are_references_changed(changes, &old, &new)? {
        Ok(Some(anew))
    } else {
        Ok(None)
    }
}
