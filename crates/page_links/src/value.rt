//! Values with their links changed.
ghost use Rattle.std.specs.Prelude.{◌≡◌, IfOk, MatchOption, string_bytes};
ghost use Rattle.css_links.specs.Rewriting.{changed};
ghost use Rattle.css_links.specs.Rewriting as sheets;
ghost use Rattle.html_links.specs.declared.awaiting.ValueForm.TheVariants.{Sheet};
ghost use Rattle.page_links.specs.Rewriting.{text_anew, IsWritten};

use crate::page_change::{InForm, PageChange};
use crate::unclear::is_unclear_value;
use html_links::{OutOfMemory, ValueForm, escape, value_text};
use std::alloc::Global;

/// The text of a value that is the base or a link, changed.
fn address_anew<P: PageChange>(
    alloc: Global,
    changes: &P,
    form: ValueForm,
    text: &str,
) -> Result<Vec<u8>, OutOfMemory>
    ensures { IfOk result (λ anew. anew.items ≡ changed (P.becomes changes.now form) text.now) }
{
    match changes.change(form, text)? {
        Some(other) => Ok(Vec::from_slice(alloc, other.as_bytes())?),
        None => Ok(Vec::from_slice(alloc, text.as_bytes())?),
    }
}

/// A style sheet with its references changed.
pub(crate) fn sheet_anew<P: PageChange>(
    alloc: Global,
    changes: &P,
    sheet: &[u8],
) -> Result<Vec<u8>, OutOfMemory>
    ensures { IfOk result (λ anew. anew.items ≡ sheets.rewritten (P.becomes changes.now Sheet) sheet.now) }
{
    match css_links::rewrite(alloc, &InForm::new(changes, ValueForm::Sheet), sheet) {
        Ok(anew) => Ok(anew),
        Err(_) => Err(OutOfMemory),
    }
}

/// The text of a value of that form with its links changed.
fn text_anew<P: PageChange>(
    alloc: Global,
    changes: &P,
    form: ValueForm,
    text: &str,
) -> Result<Vec<u8>, OutOfMemory>
    ensures { IfOk result (λ anew. anew.items ≡ text_anew (P.becomes changes.now) form text.now) }
{
    match form {
        ValueForm::Address => address_anew(alloc, changes, ValueForm::Address, text),
        ValueForm::Base => address_anew(alloc, changes, ValueForm::Base, text),
        ValueForm::Mention => address_anew(alloc, changes, ValueForm::Mention, text),
        ValueForm::Set => {
            let change = InForm::new(changes, ValueForm::Set);
            Ok(source_sets::rewrite(alloc, &change, text.as_bytes())?)
        },
        ValueForm::Refresh => {
            let change = InForm::new(changes, ValueForm::Refresh);
            Ok(refresh_links::rewrite(alloc, &change, text.as_bytes())?)
        },
        ValueForm::Sheet => sheet_anew(alloc, changes, text.as_bytes()),
    }
}

/// Whether a value of that form has one link, so that it may stay as it is.
fn has_one_link(form: ValueForm) -> bool {
    form == ValueForm::Address || form == ValueForm::Refresh || form == ValueForm::Mention
}

/// A value of that form with its links changed, as it is written; nothing, if its text stays, can't be a value, or isn't clear.
pub(crate) fn value_anew<P: PageChange>(
    alloc: Global,
    changes: &P,
    form: ValueForm,
    value: &[u8],
) -> Result<Option<Vec<u8>>, OutOfMemory>
    ensures { IfOk result (λ other. MatchOption other (Unit {0}) (λ other. IsWritten (P.becomes changes.now) form value.now other.items)) }
{
    if has_one_link(form) && is_unclear_value(alloc, value)? {
        return Ok(None);
    }
    let text = value_text(alloc, value)?;
    let anew = text_anew(alloc, changes, form, text.as_str())?;
    if anew.is_empty() || anew.as_slice() == text.as_bytes() {
        return Ok(None);
    }
    let other = escape(alloc, &anew)?;
    if other.is_empty() {
        return Ok(None);
    }
    Ok(Some(other))
}
