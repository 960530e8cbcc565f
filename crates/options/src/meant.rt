//! Which form is meant by the front of a long one: fronts are read among Wget's forms first, then among this program's own.
ghost use Rattle.std.specs.Prelude.{◌≡◌, IfOk, bytes_eq, map, option_map};
ghost use Rattle.std.specs.List.{filter, list_any};
ghost use Rattle.options.specs.Meant.{begun_of, beginning, either_meant, fronts, is_one_of, long_name, meant, only_of, without_dash};
ghost use Rattle.options.specs.Table.{own, wget};
ghost use Rattle.options.specs.inner.Meant.{begun_in, joined};

use crate::table::{own_forms, wget_forms};
use std::alloc::{AllocError, Global};

/// The forms that begin with a front: none, one or several. The type of their texts is a parameter, so that definitions have it.
#[derive(Clone, Copy)]
pub(crate) enum Begun<T> {
    Nothing,
    One(T),
    Several,
}

/// The text after a dash.
pub(crate) fn without_dash(text: &str) -> Option<&str>
    ensures { option_map (λ rest. rest.now) result ≡ without_dash text.now }
{
    text.strip_prefix('-')
}

/// The name of a long form.
pub(crate) fn long_name(form: &str) -> Option<&str>
    ensures { option_map (λ name. name.now) result ≡ long_name form.now }
{
    match without_dash(form) {
        Some(rest) => without_dash(rest),
        None => None,
    }
}

// Whether the form is one of these.
fn is_among(form: &str, forms: &[&'static str]) -> bool
    ensures { result ≡ list_any (λ other. bytes_eq other.now form.now) forms.now }
{
    forms.iter().any(|other| *other == form)
}

/// Whether the form is one of these.
pub(crate) fn is_one_of(form: &str, forms: &[&'static str]) -> bool
    ensures { result ≡ is_one_of (map (λ form. form.now) forms.now) form.now }
{
    is_among(form, forms)
}

// What is known of the forms with one more.
fn one_more(before: Begun<&'static str>, form: &'static str) -> Begun<&'static str>
    ensures { begun_in result ≡ joined (begun_in before.entry) form.entry.now }
{
    match before {
        Begun::Nothing => Begun::One(form),
        _ => Begun::Several,
    }
}

// Those of these forms that begin with the front.
fn all_begun(front: &str, forms: &[&'static str]) -> Begun<&'static str>
    ensures { begun_in result ≡ begun_of (beginning front.now (map (λ form. form.now) forms.now)) }
{
    let mut begun = Begun::Nothing;
    for form in forms {
        if form.as_bytes().starts_with(front.as_bytes()) {
            begun = one_more(begun, form);
        }
    }
    begun
}

// Those of these forms that begin with the front, one after another.
fn beginning(
    alloc: Global,
    front: &str,
    forms: &[&'static str],
) -> Result<Vec<&'static str>, AllocError>
    ensures { IfOk result (λ found. map (λ form. form.now) found.items ≡ beginning front.now (map (λ form. form.now) forms.now)) }
{
    let mut found = Vec::new(alloc);
    for form in forms {
        if form.as_bytes().starts_with(front.as_bytes()) {
            found.push(*form)?;
        }
    }
    Ok(found)
}

/// The forms of Wget's that begin with a front or, if there are none, those of our own.
#[tactic(auto, unfolding(crate::specs::Meant::fronts))]
pub(crate) fn fronts(alloc: Global, front: &str) -> Result<Vec<&'static str>, AllocError>
    ensures { IfOk result (λ found. map (λ form. form.now) found.items ≡ fronts front.now) }
{
    let theirs = beginning(alloc, front, wget_forms())?;
    if theirs.is_empty() {
        return beginning(alloc, front, own_forms());
    }
    Ok(theirs)
}

// The only form that was found, or the front as it is.
fn only_of<'a>(front: &'a str, begun: Begun<&'static str>) -> &'a str
    ensures { result.now ≡ only_of front.entry.now (begun_in begun.entry) }
{
    match begun {
        Begun::One(form) => form,
        _ => front,
    }
}

// The form that is meant by a front that isn't a whole form.
fn meant_by(front: &str) -> &str
    ensures { result.now ≡ either_meant front.entry.now (begun_of (beginning front.now wget)) (begun_of (beginning front.now own)) }
{
    match all_begun(front, wget_forms()) {
        Begun::Nothing => only_of(front, all_begun(front, own_forms())),
        theirs => only_of(front, theirs),
    }
}

/// The form that is meant: a whole form is itself, and so is what is the front of none, or of several.
#[tactic(auto, unfolding(crate::specs::Meant::meant))]
pub(crate) fn meant(form: &str) -> &str
    ensures { result.now ≡ meant form.entry.now }
{
    if is_one_of(form, wget_forms()) || is_one_of(form, own_forms()) {
        return form;
    }
    meant_by(form)
}
