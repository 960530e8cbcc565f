//! How the value that comes next is read, by the link table and the part of its tag that came.
ghost use Rattle.std.specs.Prelude.{◌≡◌, ◌++◌, true, false, List, option_map};
ghost use Rattle.html_links.specs.Asked.{asked_name};
ghost use Rattle.html_links.specs.Links.{link_table, kind_in};
ghost use Rattle.html_links.specs.Pieces.{Attribute as NameAndValue};
ghost use Rattle.html_links.specs.Values.{value_of};
ghost use Rattle.html_links.specs.Awaiting.{form_at, is_base, read_as, row_of};

use crate::asked::AskedName;
use crate::bytes::is_name;
use crate::links::LinkPlace;
use crate::table::{LinkForm, rows_for, table};
use crate::tag::{Attribute, written};

/// How links are found in a value.
#[derive(Clone, Copy, Debug, PartialEq, Eq)]
pub enum ValueForm {
    /// It is a link.
    Address,
    /// It is the base to which links are joined.
    Base,
    /// It is a source set.
    Set,
    /// It is the content of a refresh.
    Refresh,
    /// It is read like a style sheet.
    Sheet,
    /// It is a URL that isn't followed.
    Mention,
}

impl LinkForm {
    pub(crate) fn read_as(self) -> ValueForm
        ensures { result ≡ read_as self }
    {
        match self {
            LinkForm::Link => ValueForm::Address,
            LinkForm::Shown => ValueForm::Address,
            LinkForm::Related => ValueForm::Address,
            LinkForm::Button => ValueForm::Address,
            LinkForm::Set => ValueForm::Set,
            LinkForm::Refresh => ValueForm::Refresh,
            LinkForm::Mention => ValueForm::Mention,
        }
    }
}

impl LinkPlace {
    /// How links are found in what is written there.
    pub fn form(self) -> ValueForm
        ensures { result ≡ form_at self }
    {
        match self {
            LinkPlace::Row(number) => match table().get(number as usize) {
                Some(row) => row.form().read_as(),
                None => ValueForm::Address,
            },
            LinkPlace::Sheet => ValueForm::Sheet,
        }
    }
}

/// The form of the table's row for that element and that attribute.
pub(crate) fn row_form(element: &[u8], attribute: AskedName) -> Option<LinkForm>
    ensures { result ≡ option_map (λ r. r.form) (row_of element.now (asked_name attribute) link_table) }
{
    let rows = rows_for(element);
    for row in rows {
        if row.is_of(element) && row.is_named(attribute) {
            return Some(row.form());
        }
    }
    None
}

/// Whether that attribute of that element names the base.
pub(crate) fn is_base(element: &[u8], attribute: AskedName) -> bool
    ensures { result ≡ is_base element.now (asked_name attribute) }
{
    is_name(element, b"base") && is_name(attribute.name(), b"href")
}

/// Whether one of the attributes has that name, so that no later one counts.
fn has(before: &[Attribute], name: AskedName) -> bool
    ensures has { result ≡ true → (later : List NameAndValue) → value_of (asked_name name) (before.now ++ later) ≡ value_of (asked_name name) before.now }
    ensures lacks { result ≡ false → (later : List NameAndValue) → value_of (asked_name name) (before.now ++ later) ≡ value_of (asked_name name) later }
{
    match written(before, name) {
        Some(_) => true,
        None => false,
    }
}

/// Whether it is decided what a value of that form leads to in a tag of which these attributes came, whatever follows; otherwise
/// what follows decides alone.
pub(crate) fn is_decided(before: &[Attribute], form: LinkForm) -> bool
    ensures decided { result ≡ true → (later : List NameAndValue) → kind_in (before.now ++ later) form ≡ kind_in before.now form }
    ensures open { result ≡ false → (later : List NameAndValue) → kind_in (before.now ++ later) form ≡ kind_in later form }
{
    match form {
        LinkForm::Link => true,
        LinkForm::Shown => true,
        LinkForm::Set => true,
        LinkForm::Mention => true,
        LinkForm::Related => has(before, AskedName::Rel),
        LinkForm::Button => has(before, AskedName::OfType),
        LinkForm::Refresh => has(before, AskedName::HttpEquiv),
    }
}
