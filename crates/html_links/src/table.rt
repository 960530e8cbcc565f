//! The link table: which attributes of which elements lead elsewhere, and where to (HTML Standard, section 4; SVG 2, sections 5.6,
//! 8.9 and 16.2), or name a URL that isn't followed.
ghost use Rattle.std.specs.Prelude.{◌≡◌, ℕ, List, map};
ghost use Rattle.html_links.specs.Asked.{asked_name};
ghost use Rattle.html_links.specs.Links.{is_followed, link_table, row_links, table_links};
ghost use Rattle.html_links.specs.Pieces.{Attribute as NameAndValue};
ghost use Rattle.html_links.specs.Awaiting.{row_of};
ghost use Rattle.html_links.specs.inner.Rows.{named, rows_with};
ghost use Rattle.std.specs.List.{list_any, flat_map};
ghost use Rattle.std.specs.Str.{bytes_eq};

use crate::asked::AskedName;
use crate::bytes::is_name;
use crate::links::LinkPlace;

/// What the value of an attribute leads to.
#[derive(Clone, Copy)]
pub(crate) enum LinkForm {
    /// Another document.
    Link,
    /// A part of the page.
    Shown,
    /// What the `rel` of the same tag says.
    Related,
    /// A part of the page, if the `type` of the same tag is `image`.
    Button,
    /// The URLs of a source set, parts of the page.
    Set,
    /// Another document, by a refresh, if the `http-equiv` of the same tag says so.
    Refresh,
    /// Nothing that is followed: where a form is sent, or what is cited.
    Mention,
}

impl LinkForm {
    /// Whether links by rows of the form are followed.
    fn is_followed(self) -> bool
        ensures { result ≡ is_followed self }
    {
        match self {
            LinkForm::Link => true,
            LinkForm::Shown => true,
            LinkForm::Related => true,
            LinkForm::Button => true,
            LinkForm::Set => true,
            LinkForm::Refresh => true,
            LinkForm::Mention => false,
        }
    }
}

/// A row of the table: its number, which is its place in the table, an element, an attribute, and what its value leads to.
#[derive(Clone, Copy)]
pub(crate) struct LinkRow(u8, &'static [u8], AskedName, LinkForm);

/// How many rows the table has.
pub(crate) const ROWS: usize = 45;

// The rows by the first letters of their elements, so that most tags are compared with few of them.
static TABLE: [LinkRow; ROWS] = [
    LinkRow(0, b"a", AskedName::Href, LinkForm::Link),
    LinkRow(1, b"a", AskedName::XlinkHref, LinkForm::Link),
    LinkRow(2, b"area", AskedName::Href, LinkForm::Link),
    LinkRow(3, b"audio", AskedName::Src, LinkForm::Shown),
    LinkRow(4, b"body", AskedName::Background, LinkForm::Shown),
    LinkRow(5, b"button", AskedName::FormAction, LinkForm::Mention),
    LinkRow(6, b"blockquote", AskedName::Cite, LinkForm::Mention),
    LinkRow(7, b"del", AskedName::Cite, LinkForm::Mention),
    LinkRow(8, b"embed", AskedName::Src, LinkForm::Shown),
    LinkRow(9, b"form", AskedName::Action, LinkForm::Mention),
    LinkRow(10, b"frame", AskedName::Src, LinkForm::Shown),
    LinkRow(11, b"feimage", AskedName::Href, LinkForm::Shown),
    LinkRow(12, b"feimage", AskedName::XlinkHref, LinkForm::Shown),
    LinkRow(13, b"img", AskedName::Src, LinkForm::Shown),
    LinkRow(14, b"img", AskedName::SrcSet, LinkForm::Set),
    LinkRow(15, b"img", AskedName::LongDesc, LinkForm::Link),
    LinkRow(16, b"img", AskedName::LowSrc, LinkForm::Shown),
    LinkRow(17, b"iframe", AskedName::Src, LinkForm::Shown),
    LinkRow(18, b"input", AskedName::Src, LinkForm::Button),
    LinkRow(19, b"input", AskedName::FormAction, LinkForm::Mention),
    LinkRow(20, b"ins", AskedName::Cite, LinkForm::Mention),
    LinkRow(21, b"image", AskedName::Href, LinkForm::Shown),
    LinkRow(22, b"image", AskedName::XlinkHref, LinkForm::Shown),
    LinkRow(23, b"link", AskedName::Href, LinkForm::Related),
    LinkRow(24, b"link", AskedName::ImageSrcSet, LinkForm::Set),
    LinkRow(25, b"meta", AskedName::Content, LinkForm::Refresh),
    LinkRow(26, b"object", AskedName::Data, LinkForm::Shown),
    LinkRow(27, b"q", AskedName::Cite, LinkForm::Mention),
    LinkRow(28, b"script", AskedName::Src, LinkForm::Shown),
    LinkRow(29, b"script", AskedName::Href, LinkForm::Shown),
    LinkRow(30, b"script", AskedName::XlinkHref, LinkForm::Shown),
    LinkRow(31, b"source", AskedName::Src, LinkForm::Shown),
    LinkRow(32, b"source", AskedName::SrcSet, LinkForm::Set),
    LinkRow(33, b"track", AskedName::Src, LinkForm::Shown),
    LinkRow(34, b"table", AskedName::Background, LinkForm::Shown),
    LinkRow(35, b"thead", AskedName::Background, LinkForm::Shown),
    LinkRow(36, b"tbody", AskedName::Background, LinkForm::Shown),
    LinkRow(37, b"tfoot", AskedName::Background, LinkForm::Shown),
    LinkRow(38, b"tr", AskedName::Background, LinkForm::Shown),
    LinkRow(39, b"td", AskedName::Background, LinkForm::Shown),
    LinkRow(40, b"th", AskedName::Background, LinkForm::Shown),
    LinkRow(41, b"use", AskedName::Href, LinkForm::Shown),
    LinkRow(42, b"use", AskedName::XlinkHref, LinkForm::Shown),
    LinkRow(43, b"video", AskedName::Src, LinkForm::Shown),
    LinkRow(44, b"video", AskedName::Poster, LinkForm::Shown),
];

/// The rows.
#[tactic(auto, unfolding(crate::specs::Links::link_table))]
pub(crate) fn table() -> &'static [LinkRow; ROWS]
    ensures { map named result.now ≡ link_table }
{
    &TABLE
}

/// The rows of elements whose names begin with that byte.
#[tactic(auto, unfolding(crate::specs::Links::link_table))]
fn rows_with(first: u8) -> &'static [LinkRow]
    ensures { map named result.now ≡ rows_with first link_table }
{
    match first {
        b'a' => &TABLE[0..4],
        b'b' => &TABLE[4..7],
        b'd' => &TABLE[7..8],
        b'e' => &TABLE[8..9],
        b'f' => &TABLE[9..13],
        b'i' => &TABLE[13..23],
        b'l' => &TABLE[23..25],
        b'm' => &TABLE[25..26],
        b'o' => &TABLE[26..27],
        b'q' => &TABLE[27..28],
        b's' => &TABLE[28..33],
        b't' => &TABLE[33..41],
        b'u' => &TABLE[41..43],
        b'v' => &TABLE[43..45],
        _ => &[],
    }
}

/// Rows among which all of elements of that name are, in the table's order.
pub(crate) fn rows_for(name: &[u8]) -> &'static [LinkRow]
    ensures asked { list_any (λ row. bytes_eq name.now row.element) (map named result.now) ≡ list_any (λ row. bytes_eq name.now row.element) link_table }
    ensures row { (attribute : List ℕ) → row_of name.now attribute (map named result.now) ≡ row_of name.now attribute link_table }
    ensures links { (attributes : List NameAndValue) → flat_map (row_links (record { name = name.now; attributes = attributes })) (map named result.now) ≡ table_links (record { name = name.now; attributes = attributes }) }
{
    match name {
        [first, ..] => rows_with(*first),
        [] => &[],
    }
}

impl LinkRow {
    /// Whether elements of that name have the attribute.
    pub(crate) fn is_of(&self, name: &[u8]) -> bool
        ensures { result ≡ bytes_eq name.now (named self.now).element }
    {
        is_name(name, self.1)
    }

    /// Whether it is of that attribute.
    pub(crate) fn is_named(&self, attribute: AskedName) -> bool
        ensures { result ≡ bytes_eq (asked_name attribute) (named self.now).attribute }
    {
        attribute.name() == self.2.name()
    }

    pub(crate) fn element(&self) -> &'static [u8]
        ensures { result.now ≡ (named self.now).element }
    {
        self.1
    }

    pub(crate) fn attribute(&self) -> AskedName
        ensures { asked_name result ≡ (named self.now).attribute }
    {
        self.2
    }

    pub(crate) fn form(&self) -> LinkForm
        ensures { result ≡ (named self.now).form }
    {
        self.3
    }

    /// Whether links by the row are followed.
    pub(crate) fn is_followed(&self) -> bool
        ensures { result ≡ is_followed (named self.now).form }
    {
        self.3.is_followed()
    }

    /// Where a value is written that the row names.
    pub(crate) fn place(&self) -> LinkPlace
        ensures { result ≡ LinkPlace.Row (named self.now).number }
    {
        LinkPlace::Row(self.0)
    }
}

/// Whether one of the rows is of elements of that name.
pub(crate) fn has_row(rows: &[LinkRow], name: &[u8]) -> bool
    ensures { result ≡ list_any (λ row. bytes_eq name.now row.element) (map named rows.now) }
{
    for row in rows {
        if row.is_of(name) {
            return true;
        }
    }
    false
}
