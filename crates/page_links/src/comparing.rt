//! Links that are those of another page, changed.
ghost use Rattle.std.specs.Prelude.{◌≡◌, ◌⊎◌, true, false, IfOk, option_map, string_bytes};
ghost use Rattle.css_links.specs.Rewriting.{changed};
ghost use Rattle.html_links.specs.Scanning.{scanned};
ghost use Rattle.html_links.specs.declared.awaiting.ValueForm.TheVariants.{Base};
ghost use Rattle.page_links.specs.Rewriting.{IsLinkChanged, IsLinkLeft, AreLinksChanged, AreChanged};

use crate::page_change::PageChange;
use crate::unclear::is_unclear;
use html_links::{FoundLink, Scan, ValueForm};
use std::alloc::AllocError;

/// Whether a text is the other one, changed in that form.
pub(crate) fn is_changed<P: PageChange>(
    changes: &P,
    form: ValueForm,
    old: &str,
    new: &str,
) -> Result<bool, AllocError>
    ensures text { IfOk result (λ is. is ≡ true → new.now ≡ changed (P.becomes changes.now form) old.now) }
    ensures known { IfOk result (λ is. is ≡ true → P.known changes.now form old.now new.now) }
    ensures differs { IfOk result (λ is. is ≡ false → new.now ≡ changed (P.becomes changes.now form) old.now → ⊥) }
{
    match changes.change(form, old)? {
        Some(other) => Ok(other.as_str() == new),
        None => Ok(old == new),
    }
}

/// Whether a link is the other one, of which the text isn't clear.
fn is_link_left(old: &FoundLink, new: &FoundLink) -> bool
    requires kind { new.now.kind ≡ old.now.kind }
    requires place { new.now.place ≡ old.now.place }
    ensures left { result ≡ true → IsLinkLeft old.now new.now }
    ensures differs { result ≡ false → IsLinkLeft old.now new.now → ⊥ }
{
    new.text.as_str() == old.text.as_str() && is_unclear(old.text.as_bytes())
}

/// Whether a link is the other one, changed.
fn is_link_anew<P: PageChange>(
    changes: &P,
    old: &FoundLink,
    new: &FoundLink,
) -> Result<bool, AllocError>
    requires kind { new.now.kind ≡ old.now.kind }
    requires place { new.now.place ≡ old.now.place }
    ensures changed { IfOk result (λ is. is ≡ true → IsLinkChanged (P.becomes changes.now) (P.known changes.now) old.now new.now) }
    ensures differs { IfOk result (λ is. is ≡ false → IsLinkChanged (P.becomes changes.now) (P.known changes.now) old.now new.now → ⊥) }
{
    is_changed(
        changes,
        old.place.form(),
        old.text.as_str(),
        new.text.as_str(),
    )
}

/// Whether a link is the other one, changed, or left for its text.
fn is_link_changed<P: PageChange>(
    changes: &P,
    old: &FoundLink,
    new: &FoundLink,
) -> Result<bool, AllocError>
    ensures changed { IfOk result (λ is. is ≡ true → IsLinkChanged (P.becomes changes.now) (P.known changes.now) old.now new.now ⊎ IsLinkLeft old.now new.now) }
    ensures differs { IfOk result (λ is. is ≡ false → IsLinkChanged (P.becomes changes.now) (P.known changes.now) old.now new.now ⊎ IsLinkLeft old.now new.now → ⊥) }
{
    if old.kind != new.kind || old.place != new.place {
        return Ok(false);
    }
    if is_link_anew(changes, old, new)? {
        return Ok(true);
    }
    Ok(is_link_left(old, new))
}

/// Whether these links are the other ones, changed.
fn are_links_changed<P: PageChange>(
    changes: &P,
    old: &[FoundLink],
    new: &[FoundLink],
) -> Result<bool, AllocError>
    ensures changed { IfOk result (λ are. are ≡ true → AreLinksChanged (P.becomes changes.now) (P.known changes.now) old.now new.now) }
    ensures differ { IfOk result (λ are. are ≡ false → AreLinksChanged (P.becomes changes.now) (P.known changes.now) old.now new.now → ⊥) }
{
    let mut left = old;
    let mut others = new;
    while let [link, behind @ ..] = left {
        let [other, more @ ..] = others else {
            return Ok(false);
        };
        if !is_link_changed(changes, link, other)? {
            return Ok(false);
        }
        left = behind;
        others = more;
    }
    Ok(others.is_empty())
}

/// Whether a base is the other one, changed.
fn is_base_changed<P: PageChange>(
    changes: &P,
    old: &Option<String>,
    new: &Option<String>,
) -> Result<bool, AllocError>
    ensures changed { IfOk result (λ is. is ≡ true → option_map string_bytes new.now ≡ option_map (changed (P.becomes changes.now Base)) (option_map string_bytes old.now)) }
    ensures differs { IfOk result (λ is. is ≡ false → option_map string_bytes new.now ≡ option_map (changed (P.becomes changes.now Base)) (option_map string_bytes old.now) → ⊥) }
{
    match old {
        Some(base) => match new {
            Some(other) => is_changed(changes, ValueForm::Base, base.as_str(), other.as_str()),
            None => Ok(false),
        },
        None => Ok(new.is_none()),
    }
}

/// Whether what was found in a page is what was found in the other one, with each link and the base changed.
pub(crate) fn are_changed<P: PageChange>(
    changes: &P,
    old: &Scan,
    new: &Scan,
) -> Result<bool, AllocError>
    ensures changed { IfOk result (λ are. are ≡ true → AreChanged (P.becomes changes.now) (P.known changes.now) (scanned old.now) (scanned new.now)) }
    ensures differ { IfOk result (λ are. are ≡ false → AreChanged (P.becomes changes.now) (P.known changes.now) (scanned old.now) (scanned new.now) → ⊥) }
{
    if old.nofollow != new.nofollow || !is_base_changed(changes, &old.base, &new.base)? {
        return Ok(false);
    }
    are_links_changed(changes, &old.links, &new.links)
}
