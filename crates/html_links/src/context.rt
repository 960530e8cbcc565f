//! What is open at a tag, as far as it matters for links (HTML Standard, section 13.2.6.5).
ghost use Rattle.std.specs.Prelude.{◌≡◌, ℕ, true, false, List, [], ◌∷◌, ◌++◌, Some, OnOk, reverse, map, codes};
ghost use Rattle.std.specs.List.{list_any};
ghost use Rattle.std.specs.Str.{bytes_eq};
ghost use Rattle.html_links.specs.Contexts.{Context as SyntaxAndOpen, outermost, scope_name, is_foreign, is_xml, innermost, outer, is_html_within, reads_html, openers, named_scope, opens, breakouts, without_foreign, broken, opened, is_scope, left};

use crate::bytes::is_name;
use std::alloc::{AllocError, Global};
use std::marker::Model;

/// How a body is read.
#[derive(Clone, Copy, Debug, PartialEq, Eq)]
pub enum Syntax {
    /// As HTML (HTML Standard, section 13.2).
    Html,
    /// As XML (HTML Standard, section 14.2): no element begins raw text, and a CDATA section is text.
    Xml,
}

/// An element that changes how its content is read: one of foreign content, or one of its integration points.
#[derive(Clone, Copy)]
pub(crate) enum Scope {
    Svg,
    Math,
    ForeignObject,
    Desc,
    Title,
    Mi,
    Mo,
    Mn,
    Ms,
    Mtext,
}

impl Scope {
    /// The element's name, in lower case.
    fn name(self) -> &'static [u8]
        ensures { result.now ≡ scope_name self }
    {
        match self {
            Scope::Svg => b"svg",
            Scope::Math => b"math",
            Scope::ForeignObject => b"foreignobject",
            Scope::Desc => b"desc",
            Scope::Title => b"title",
            Scope::Mi => b"mi",
            Scope::Mo => b"mo",
            Scope::Mn => b"mn",
            Scope::Ms => b"ms",
            Scope::Mtext => b"mtext",
        }
    }

    fn is_foreign(self) -> bool
        ensures { result ≡ is_foreign self }
    {
        matches!(self, Scope::Svg | Scope::Math)
    }
}

// The elements that may open in HTML, in `svg` and in `math`.
static IN_HTML: [Scope; 2] = [Scope::Svg, Scope::Math];

static IN_SVG: [Scope; 5] = [
    Scope::Svg,
    Scope::Math,
    Scope::ForeignObject,
    Scope::Desc,
    Scope::Title,
];

static IN_MATH: [Scope; 7] = [
    Scope::Svg,
    Scope::Math,
    Scope::Mi,
    Scope::Mo,
    Scope::Mn,
    Scope::Ms,
    Scope::Mtext,
];

/// Names of tags that end foreign content.
static BREAKOUTS: [&[u8]; 44] = [
    b"b",
    b"big",
    b"blockquote",
    b"body",
    b"br",
    b"center",
    b"code",
    b"dd",
    b"div",
    b"dl",
    b"dt",
    b"em",
    b"embed",
    b"h1",
    b"h2",
    b"h3",
    b"h4",
    b"h5",
    b"h6",
    b"head",
    b"hr",
    b"i",
    b"img",
    b"li",
    b"listing",
    b"menu",
    b"meta",
    b"nobr",
    b"ol",
    b"p",
    b"pre",
    b"ruby",
    b"s",
    b"small",
    b"span",
    b"strong",
    b"strike",
    b"sub",
    b"sup",
    b"table",
    b"tt",
    b"u",
    b"ul",
    b"var",
];

/// Whether the rules of HTML hold within that element, or outside of all.
fn is_html_within(innermost: Option<Scope>) -> bool
    ensures { result ≡ is_html_within innermost }
{
    match innermost {
        Some(scope) => !scope.is_foreign(),
        None => true,
    }
}

/// The elements that a start tag may open within that one, or outside of all.
fn openers(innermost: Option<Scope>) -> &'static [Scope]
    ensures { result.now ≡ openers innermost }
{
    match innermost {
        Some(Scope::Svg) => &IN_SVG,
        Some(Scope::Math) => &IN_MATH,
        _ => &IN_HTML,
    }
}

/// The first of these elements that has that name.
fn find(scopes: &[Scope], name: &[u8]) -> Option<Scope>
    ensures { result ≡ named_scope name.now scopes.now }
{
    for scope in scopes {
        if is_name(name, scope.name()) {
            return Some(*scope);
        }
    }
    None
}

/// Whether start tags of that name end foreign content.
fn breaks_out(name: &[u8]) -> bool
    ensures { result ≡ list_any (λ b. bytes_eq name.now b) breakouts }
{
    is_among(&BREAKOUTS, name)
}

/// Whether it is one of these names.
fn is_among(names: &[&[u8]], name: &[u8]) -> bool
    ensures { result ≡ list_any (λ b. bytes_eq name.now b) (map (λ b. b.now) names.now) }
{
    for other in names {
        if is_name(name, other) {
            return true;
        }
    }
    false
}

/// How a body is read, and which of its elements are open that change it.
#[derive(Drop)]
pub(crate) struct Context {
    syntax: Syntax,
    /// The innermost is the last.
    scopes: Vec<Scope>,
}

impl Model for Context {
    ghost Value = { SyntaxAndOpen };

    ghost view = { λ c. record { syntax = c.syntax; scopes = reverse c.scopes.items } };
}

impl Context {
    /// That of the front of a body. It takes no memory.
    pub(crate) fn new(alloc: Global, syntax: Syntax) -> Self
        ensures { result ≡ outermost syntax }
    {
        Context {
            syntax,
            scopes: Vec::new(alloc),
        }
    }

    /// Whether the rules of HTML hold.
    pub(crate) fn reads_html(&self) -> bool
        ensures { result ≡ reads_html self.now }
    {
        !self.is_xml() && is_html_within(self.innermost())
    }

    /// The element that a start tag of that name opens, if it changes how its content is read.
    pub(crate) fn opens(&self, name: &[u8]) -> Option<Scope>
        ensures { result ≡ opens name.now self.now }
    {
        if self.is_xml() {
            return None;
        }
        find(openers(self.innermost()), name)
    }

    /// Ends foreign content, if a start tag of that name does.
    #[tactic(auto, unfolding(crate::specs::Contexts::broken), using(crate::proofs::Scopes::not_broken))]
    pub(crate) fn break_out(&mut self, name: &[u8])
        ensures { self.new ≡ broken name.now self.old }
    {
        if self.reads_html() {
            return;
        }
        if breaks_out(name) {
            self.end_foreign();
        }
    }

    /// Opens that element.
    pub(crate) fn enter(&mut self, scope: Scope) -> Result<(), AllocError>
        ensures { OnOk result (self.new ≡ opened (Some scope) false self.old) }
    {
        self.scopes.push(scope)?;
        Ok(())
    }

    /// Reads an end tag of that name.
    #[tactic(auto, unfolding(crate::specs::Contexts::left))]
    pub(crate) fn leave(&mut self, name: &[u8])
        ensures { self.new ≡ left name.now self.old }
    {
        if is_name(name, b"p") || is_name(name, b"br") {
            self.end_foreign();
        } else if self.is_within(name) {
            self.close();
        }
    }

    /// Whether an end tag may change what is open.
    #[tactic(auto, using(crate::proofs::Scopes::nothing_left))]
    pub(crate) fn heeds_end_tags(&self) -> bool
        ensures { result ≡ false → (name : List ℕ) → left name self.now ≡ self.now }
    {
        self.innermost().is_some()
    }

    fn is_xml(&self) -> bool
        ensures { result ≡ is_xml self.now.syntax }
    {
        match self.syntax {
            Syntax::Html => false,
            Syntax::Xml => true,
        }
    }

    #[tactic(auto, using(crate::proofs::Scopes::last_is_innermost))]
    fn innermost(&self) -> Option<Scope>
        ensures { result ≡ innermost self.now.scopes }
    {
        self.scopes.last().copied()
    }

    /// Whether the innermost element has that name.
    fn is_within(&self, name: &[u8]) -> bool
        ensures { result ≡ is_scope name.now (innermost self.now.scopes) }
    {
        match self.innermost() {
            Some(scope) => is_name(name, scope.name()),
            None => false,
        }
    }

    /// Ends the innermost element.
    fn close(&mut self)
        ensures { self.new ≡ record self.old { scopes = outer self.old.scopes } }
    {
        self.scopes.pop();
    }

    /// Ends the innermost elements that are foreign.
    #[tactic(auto, using(crate::proofs::Scopes::foreign_ended, crate::proofs::Scopes::none_foreign, crate::proofs::Scopes::fewer))]
    fn end_foreign(&mut self)
        ensures { self.new ≡ record self.old { scopes = without_foreign self.old.scopes } }
    {
        while !is_html_within(self.innermost()) {
            self.close();
        }
    }
}
