//! What the head of a response says of its body (RFC 9110, sections 8.3, 8.4, 10.2.2 and 15).
ghost use Rattle.std.specs.Prelude.{◌≡◌, ◌==◌, option_map, vec_items};
ghost use Rattle.std.specs.List.{before_first, position};
ghost use Rattle.std.specs.Str.{str_eq_ignore_ascii_case};
ghost use Rattle.response_answer.specs.Digests.{is_css, is_html, is_xhtml, kind_by, kind_of, media_type, may_be_html, is_document, is_sheet, says_css, syntax_by, syntax_of};
ghost use Rattle.response_answer.specs.inner.HeadKinds.{kind_parts};

use fetcher::is_successful;
use html_links::Syntax;
use kept_bodies::BodyKind;
use response_reader::trim_blanks;

/// The fields of a head, wherever they are kept.
#[derive(Drop)]
pub(crate) struct HeadKind<'a> {
    pub status: u16,
    pub content_type: &'a Option<Vec<u8>>,
    pub coded: bool,
    pub location: &'a Option<Vec<u8>>,
    pub retry_after: &'a Option<Vec<u8>>,
    pub last_modified: &'a Option<Vec<u8>>,
    pub etag: &'a Option<Vec<u8>>,
}

/// Whether the body after this head is a page of HTML, in which links are looked for.
pub(crate) fn is_document(head: &HeadKind<'_>) -> bool
    ensures { result ≡ is_document (kind_parts head.now) }
{
    is_successful(head.status) && !head.coded && may_be_html(head.content_type)
}

/// How the body after this head is read, if it is a page.
pub(crate) fn page_syntax(head: &HeadKind<'_>) -> Syntax
    ensures { result ≡ syntax_of (kind_parts head.now) }
{
    syntax_by(head.content_type)
}

/// Whether the body after this head is a style sheet, whose references are looked for.
pub(crate) fn is_sheet(head: &HeadKind<'_>) -> bool
    ensures { result ≡ is_sheet (kind_parts head.now) }
{
    is_successful(head.status) && !head.coded && says_css(head.content_type)
}

/// What the body is that is kept of a response with this head.
pub(crate) fn kind_of(head: &HeadKind<'_>) -> BodyKind
    ensures { result ≡ kind_of (kind_parts head.now) }
{
    if !is_successful(head.status) {
        return BodyKind::Other;
    }
    kind_by(head.content_type)
}

// What a body with this Content-Type is.
fn kind_by(content_type: &Option<Vec<u8>>) -> BodyKind
    ensures { result ≡ kind_by (option_map vec_items content_type.now) }
{
    if may_be_html(content_type) {
        BodyKind::Html
    } else if says_css(content_type) {
        BodyKind::Sheet
    } else {
        BodyKind::Other
    }
}

fn first_semicolon(value: &[u8]) -> Option<usize>
    ensures { result ≡ position (λ b. b == 59) value.now }
{
    value.iter().position(|b| *b == b';')
}

fn before_semicolon(value: &[u8]) -> &[u8]
    ensures { result.now ≡ before_first (λ b. b == 59) value.now }
{
    match first_semicolon(value) {
        Some(end) => &value[..end],
        None => value,
    }
}

// The media type of a Content-Type, without parameters (RFC 9110, section 8.3.1).
fn media_type(value: &[u8]) -> &[u8]
    ensures { result.now ≡ media_type value.now }
{
    trim_blanks(before_semicolon(value))
}

// Whether a media type is this one, in any case.
fn is_type(media_type: &[u8], name: &[u8]) -> bool
    ensures { result ≡ str_eq_ignore_ascii_case media_type.now name.now }
{
    media_type.eq_ignore_ascii_case(name)
}

// Whether a Content-Type is one of HTML.
#[tactic(auto, unfolding(crate::specs::Digests::is_html))]
fn is_html(value: &[u8]) -> bool
    ensures { result ≡ is_html value.now }
{
    let media_type = media_type(value);
    is_type(media_type, b"text/html") || is_type(media_type, b"application/xhtml+xml")
}

// Whether a Content-Type is that of HTML that is written as XML (RFC 3236).
#[tactic(auto, unfolding(crate::specs::Digests::is_xhtml))]
fn is_xhtml(value: &[u8]) -> bool
    ensures { result ≡ is_xhtml value.now }
{
    is_type(media_type(value), b"application/xhtml+xml")
}

// How a page with this Content-Type is read.
fn syntax_by(content_type: &Option<Vec<u8>>) -> Syntax
    ensures { result ≡ syntax_by (option_map vec_items content_type.now) }
{
    match content_type {
        Some(value) => {
            if is_xhtml(value) {
                Syntax::Xml
            } else {
                Syntax::Html
            }
        },
        None => Syntax::Html,
    }
}

// Whether a Content-Type is that of style sheets (RFC 2318).
#[tactic(auto, unfolding(crate::specs::Digests::is_css))]
fn is_css(value: &[u8]) -> bool
    ensures { result ≡ is_css value.now }
{
    is_type(media_type(value), b"text/css")
}

// Whether a Content-Type says that the body is a style sheet.
fn says_css(content_type: &Option<Vec<u8>>) -> bool
    ensures { result ≡ says_css (option_map vec_items content_type.now) }
{
    match content_type {
        Some(value) => is_css(value),
        None => false,
    }
}

// Whether a body with this Content-Type may be HTML.
fn may_be_html(content_type: &Option<Vec<u8>>) -> bool
    ensures { result ≡ may_be_html (option_map vec_items content_type.now) }
{
    match content_type {
        Some(value) => is_html(value),
        None => true,
    }
}
