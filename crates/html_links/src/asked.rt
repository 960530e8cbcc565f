//! What the rules ask of start tags: elements and attributes by their names in lower case.
ghost use Rattle.std.specs.Prelude.{◌≡◌, true, false, map, MatchOption};
ghost use Rattle.std.specs.List.{list_any};
ghost use Rattle.std.specs.Str.{bytes_eq};
ghost use Rattle.html_links.specs.Asked.{is_asked_element, is_asked_attribute, asked_name, asked_names, is_styling, wanted_of, is_wanted};
ghost use Rattle.html_links.specs.Links.{styling};
ghost use Rattle.html_links.specs.inner.Rows.{names_with};

use crate::bytes::is_name;
use crate::table::{has_row, rows_for};

/// Whether a rule names elements of that name.
#[tactic(auto, unfolding(crate::specs::Asked::is_asked_element))]
pub(crate) fn is_asked_element(name: &[u8]) -> bool
    ensures { result ≡ is_asked_element name.now }
{
    is_name(name, b"base") || is_name(name, b"meta") || has_row(rows_for(name), name)
}

/// An attribute that a rule names.
#[derive(Clone, Copy)]
pub(crate) enum AskedName {
    Href,
    XlinkHref,
    Src,
    Background,
    LongDesc,
    LowSrc,
    Poster,
    Data,
    SrcSet,
    ImageSrcSet,
    Rel,
    OfType,
    HttpEquiv,
    Style,
    Name,
    Content,
    Fill,
    Stroke,
    Filter,
    Mask,
    ClipPath,
    Cursor,
    MarkerStart,
    MarkerMid,
    MarkerEnd,
    Action,
    FormAction,
    Cite,
}

impl AskedName {
    /// The attribute of that name.
    pub(crate) fn named(name: &[u8]) -> Option<AskedName>
        ensures { MatchOption result (is_asked_attribute name.now ≡ false) (λ n. name.now ≡ asked_name n) }
    {
        match name {
            [first, ..] => find(names_with(*first), name),
            [] => None,
        }
    }

    /// The attribute of that name, if it is read like a style sheet.
    #[tactic(auto, using(crate::proofs::Names::styling_is_asked))]
    fn styling(name: &[u8]) -> Option<AskedName>
        ensures { MatchOption result (is_styling name.now ≡ false) (λ n. (name.now ≡ asked_name n) × (is_styling name.now ≡ true)) }
    {
        match AskedName::named(name) {
            Some(asked) if asked.is_styling() => Some(asked),
            _ => None,
        }
    }

    /// Whether it is read like a style sheet.
    #[tactic(auto, unfolding(crate::specs::Asked::is_styling, crate::specs::Links::styling))]
    pub(crate) fn is_styling(self) -> bool
        ensures { result ≡ is_styling (asked_name self) }
    {
        // One by one, so that each is seen by its own name.
        match self {
            AskedName::Style => true,
            AskedName::Fill => true,
            AskedName::Stroke => true,
            AskedName::Filter => true,
            AskedName::Mask => true,
            AskedName::ClipPath => true,
            AskedName::Cursor => true,
            AskedName::MarkerStart => true,
            AskedName::MarkerMid => true,
            AskedName::MarkerEnd => true,
            AskedName::Href => false,
            AskedName::XlinkHref => false,
            AskedName::Src => false,
            AskedName::Background => false,
            AskedName::LongDesc => false,
            AskedName::LowSrc => false,
            AskedName::Poster => false,
            AskedName::Data => false,
            AskedName::SrcSet => false,
            AskedName::ImageSrcSet => false,
            AskedName::Rel => false,
            AskedName::OfType => false,
            AskedName::HttpEquiv => false,
            AskedName::Name => false,
            AskedName::Content => false,
            AskedName::Action => false,
            AskedName::FormAction => false,
            AskedName::Cite => false,
        }
    }

    /// Its name.
    pub(crate) fn name(self) -> &'static [u8]
        ensures { result.now ≡ asked_name self }
    {
        match self {
            AskedName::Href => b"href",
            AskedName::XlinkHref => b"xlink:href",
            AskedName::Src => b"src",
            AskedName::Background => b"background",
            AskedName::LongDesc => b"longdesc",
            AskedName::LowSrc => b"lowsrc",
            AskedName::Poster => b"poster",
            AskedName::Data => b"data",
            AskedName::SrcSet => b"srcset",
            AskedName::ImageSrcSet => b"imagesrcset",
            AskedName::Rel => b"rel",
            AskedName::OfType => b"type",
            AskedName::HttpEquiv => b"http-equiv",
            AskedName::Style => b"style",
            AskedName::Name => b"name",
            AskedName::Content => b"content",
            AskedName::Fill => b"fill",
            AskedName::Stroke => b"stroke",
            AskedName::Filter => b"filter",
            AskedName::Mask => b"mask",
            AskedName::ClipPath => b"clip-path",
            AskedName::Cursor => b"cursor",
            AskedName::MarkerStart => b"marker-start",
            AskedName::MarkerMid => b"marker-mid",
            AskedName::MarkerEnd => b"marker-end",
            AskedName::Action => b"action",
            AskedName::FormAction => b"formaction",
            AskedName::Cite => b"cite",
        }
    }
}

// The attributes by the first letters of their names, so that most names are compared with few of them.
static A: [AskedName; 1] = [AskedName::Action];

static B: [AskedName; 1] = [AskedName::Background];

static C: [AskedName; 4] = [
    AskedName::Content,
    AskedName::ClipPath,
    AskedName::Cursor,
    AskedName::Cite,
];

static D: [AskedName; 1] = [AskedName::Data];

static F: [AskedName; 3] = [AskedName::Fill, AskedName::Filter, AskedName::FormAction];

static H: [AskedName; 2] = [AskedName::Href, AskedName::HttpEquiv];

static I: [AskedName; 1] = [AskedName::ImageSrcSet];

static L: [AskedName; 2] = [AskedName::LongDesc, AskedName::LowSrc];

static M: [AskedName; 4] = [
    AskedName::Mask,
    AskedName::MarkerStart,
    AskedName::MarkerMid,
    AskedName::MarkerEnd,
];

static N: [AskedName; 1] = [AskedName::Name];

static P: [AskedName; 1] = [AskedName::Poster];

static R: [AskedName; 1] = [AskedName::Rel];

static S: [AskedName; 4] = [
    AskedName::Src,
    AskedName::SrcSet,
    AskedName::Style,
    AskedName::Stroke,
];

static T: [AskedName; 1] = [AskedName::OfType];

static X: [AskedName; 1] = [AskedName::XlinkHref];

/// The attributes whose names begin with that byte.
fn names_with(first: u8) -> &'static [AskedName]
    ensures { result.now ≡ names_with first asked_names }
{
    match first {
        b'a' => &A,
        b'b' => &B,
        b'c' => &C,
        b'd' => &D,
        b'f' => &F,
        b'h' => &H,
        b'i' => &I,
        b'l' => &L,
        b'm' => &M,
        b'n' => &N,
        b'p' => &P,
        b'r' => &R,
        b's' => &S,
        b't' => &T,
        b'x' => &X,
        _ => &[],
    }
}

static STYLING: [AskedName; 10] = [
    AskedName::Style,
    AskedName::Fill,
    AskedName::Stroke,
    AskedName::Filter,
    AskedName::Mask,
    AskedName::ClipPath,
    AskedName::Cursor,
    AskedName::MarkerStart,
    AskedName::MarkerMid,
    AskedName::MarkerEnd,
];

/// The attributes that are read like a style sheet.
#[tactic(auto, unfolding(crate::specs::Links::styling))]
pub(crate) fn styling() -> &'static [AskedName]
    ensures { map asked_name result.now ≡ styling }
{
    &STYLING
}

/// The one of these attributes that has that name.
fn find(names: &[AskedName], name: &[u8]) -> Option<AskedName>
    ensures { MatchOption result (list_any (λ n. bytes_eq name.now (asked_name n)) names.now ≡ false) (λ n. name.now ≡ asked_name n) }
{
    for asked in names {
        if is_name(name, asked.name()) {
            return Some(*asked);
        }
    }
    None
}

/// Which attributes of a tag are kept.
#[derive(Clone, Copy)]
pub(crate) enum Wanted {
    /// None: those of end tags.
    Nothing,
    /// Those that are read like a style sheet, which any element may have.
    Style,
    /// Those that a rule names.
    All,
}

impl Wanted {
    /// Those of a start tag of that name.
    pub(crate) fn in_start_tag(name: &[u8]) -> Wanted
        ensures { result ≡ wanted_of name.now }
    {
        if is_asked_element(name) {
            Wanted::All
        } else {
            Wanted::Style
        }
    }

    /// The attribute of that name, if it is kept.
    #[tactic(auto, using(crate::proofs::Names::asked_is_asked))]
    pub(crate) fn attribute(self, name: &[u8]) -> Option<AskedName>
        ensures { MatchOption result (is_wanted self name.now ≡ false) (λ n. (name.now ≡ asked_name n) × (is_wanted self name.now ≡ true)) }
    {
        match self {
            Wanted::Nothing => None,
            Wanted::Style => AskedName::styling(name),
            Wanted::All => AskedName::named(name),
        }
    }
}
