//! Lists of elements, and of attributes of elements, by which links are taken (GNU Wget manual, chapter Following Links).
ghost use Rattle.std.specs.Prelude.{◌≡◌, ◌==◌, map};
ghost use Rattle.std.specs.List.{list_all, list_any};
ghost use Rattle.html_links.specs.Links.{link_table};
ghost use Rattle.html_links.specs.Rules.{has_attribute, has_unknown, is_empty, is_unknown, lists, lists_sheets, names, takes_row, takes_sheets};
ghost use Rattle.html_links.specs.inner.Rows.{named};

use crate::bytes::{from_byte, split_at_byte};
use crate::links::is_word;
use crate::table::{LinkRow, ROWS, table};

/// Whether what follows the element in a name, `/` and an attribute or nothing, names that attribute.
fn has_attribute(rest: &[u8], attribute: &[u8]) -> bool
    ensures { result ≡ has_attribute rest.now attribute.now }
{
    match rest {
        [_, name @ ..] => is_word(name, attribute),
        [] => true,
    }
}

/// Whether a name of a list, `element` or `element/attribute`, names a row whose links are followed.
fn names(name: &[u8], row: &LinkRow) -> bool
    ensures { result ≡ names name.now (named row.now) }
{
    let (element, rest) = split_at_byte(b'/', name);
    row.is_followed()
        && is_word(element, row.element())
        && has_attribute(rest, row.attribute().name())
}

/// Whether a list names a row.
fn lists(list: &[u8], row: &LinkRow) -> bool
    ensures { result ≡ lists list.now (named row.now) }
{
    list.split(|b| *b == b',').any(|name| names(name, row))
}

/// Whether a list names the style sheets of a page.
fn lists_sheets(list: &[u8]) -> bool
    ensures { result ≡ lists_sheets list.now }
{
    list.split(|b| *b == b',')
        .any(|name| is_word(name, b"style"))
}

/// Whether a list has no name.
fn is_empty(list: &[u8]) -> bool
    ensures { result ≡ is_empty list.now }
{
    for byte in list {
        if *byte != b',' {
            return false;
        }
    }
    true
}

/// Whether a name names one of these rows.
fn names_any(name: &[u8], rows: &[LinkRow]) -> bool
    ensures { result ≡ list_any (names name.now) (map named rows.now) }
{
    for row in rows {
        if names(name, row) {
            return true;
        }
    }
    false
}

/// Whether a name has an attribute for which the table has no row whose links are followed.
fn is_unknown(name: &[u8]) -> bool
    ensures { result ≡ is_unknown name.now }
{
    !from_byte(b'/', name).is_empty() && !names_any(name, table())
}

/// Whether a list has such a name.
pub(crate) fn has_unknown(list: &[u8]) -> bool
    ensures { result ≡ has_unknown list.now }
{
    list.split(|b| *b == b',').any(|name| is_unknown(name))
}

/// Whether links by a row are taken.
fn takes_row(followed: &[u8], ignored: &[u8], row: &LinkRow) -> bool
    ensures { result ≡ takes_row followed.now ignored.now (named row.now) }
{
    (is_empty(followed) || lists(followed, row)) && !lists(ignored, row)
}

/// By which rows of the table links are taken.
pub(crate) fn takes_rows(followed: &[u8], ignored: &[u8]) -> [bool; ROWS]
    ensures { result ≡ map (takes_row followed.now ignored.now) link_table }
{
    let rows = table();
    let mut taken = [false; ROWS];
    for place in 0..ROWS {
        taken[place] = takes_row(followed, ignored, &rows[place]);
    }
    taken
}

/// Whether links of a page's style sheets are taken.
pub(crate) fn takes_sheets(followed: &[u8], ignored: &[u8]) -> bool
    ensures { result ≡ takes_sheets followed.now ignored.now }
{
    (is_empty(followed) || lists_sheets(followed)) && !lists_sheets(ignored)
}
