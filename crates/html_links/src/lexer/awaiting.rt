//! What comes next (HTML Standard, section 13.2.5.35).
ghost use Rattle.std.specs.Prelude.{◌≡◌, ◌↔◌, ◌++◌, ◌∷◌, true, false, List, [], Some, IfOk, MatchOption};
ghost use Rattle.html_links.specs.Pieces.{Source, Tag};
ghost use Rattle.html_links.specs.Pieces.Source.{FromTag};
ghost use Rattle.html_links.specs.Asked.{asked_name};
ghost use Rattle.html_links.specs.Links.{kind_in};
ghost use Rattle.html_links.specs.Lexing.{remaining};
ghost use Rattle.html_links.specs.Awaiting.{AwaitsValue, IsUnawaited, form_in, is_kept, later_at};
ghost use Rattle.html_links.specs.declared.lexer.TokenizerState.TheVariants.{BeforeAttributeValue, SheetText};

use crate::asked::{AskedName, Wanted};
use crate::awaiting::{ValueForm, is_base, is_decided, row_form};
use crate::context::Syntax;
use crate::lexer::{Ended, Lexer, TokenizerState};
use crate::links::{LinkKind, kind_in};
use crate::table::LinkForm;
use crate::tag::{Attribute, written};
use std::alloc::{AllocError, Global};

/// How many attributes that are kept may come before one that is awaited, since it is compared with each.
const MOST_BEFORE: usize = 64;

impl Wanted {
    fn is_kept(self) -> bool
        ensures { result ≡ is_kept self }
    {
        match self {
            Wanted::Nothing => false,
            Wanted::Style => true,
            Wanted::All => true,
        }
    }
}

impl Lexer {
    /// The attribute whose value comes next, if it is kept and the first of its name in a start tag, and not too many came before it.
    pub(crate) fn awaited(&self) -> Option<AskedName>
        ensures { MatchOption result (IsUnawaited self.now) (λ attribute. AwaitsValue self.now attribute) }
    {
        match self.mode {
            TokenizerState::BeforeAttributeValue => self.awaited_attribute(),
            _ => None,
        }
    }

    /// The same before a value.
    fn awaited_attribute(&self) -> Option<AskedName>
        requires { self.now.mode ≡ BeforeAttributeValue }
        ensures { MatchOption result (IsUnawaited self.now) (λ attribute. AwaitsValue self.now attribute) }
    {
        let attribute = self.keeps?;
        if self.attributes.len() >= MOST_BEFORE {
            return None;
        }
        if self.wanted.is_kept() && written(&self.attributes, attribute).is_none() {
            Some(attribute)
        } else {
            None
        }
    }

    /// How the value of that attribute, which is at the front of the text, is read in the tag that is being read.
    pub(crate) fn value_form(
        &self,
        attribute: AskedName,
        text: &[u8],
    ) -> Result<Option<ValueForm>, AllocError>
        requires { is_kept self.now.wanted ≡ true }
        ensures { IfOk result (λ form. form ≡ form_in self.now.name.items (self.now.attributes.items ++ later_at self.now.wanted attribute text.now) (asked_name attribute)) }
    {
        if is_base(&self.name, attribute) {
            return Ok(Some(ValueForm::Base));
        }
        match row_form(&self.name, attribute) {
            Some(form) => match self.kind(attribute, form, text)? {
                Some(_) => Ok(Some(form.read_as())),
                None => Ok(None),
            },
            None => {
                if attribute.is_styling() {
                    Ok(Some(ValueForm::Sheet))
                } else {
                    Ok(None)
                }
            },
        }
    }

    /// What that value leads to by a row of that form, if anywhere.
    fn kind(
        &self,
        attribute: AskedName,
        form: LinkForm,
        text: &[u8],
    ) -> Result<Option<LinkKind>, AllocError>
        requires { is_kept self.now.wanted ≡ true }
        ensures { IfOk result (λ kind. kind ≡ kind_in (self.now.attributes.items ++ later_at self.now.wanted attribute text.now) form) }
    {
        if is_decided(&self.attributes, form) {
            return kind_in(self.alloc, &self.attributes, form);
        }
        let later = later(self.alloc, self.wanted, attribute, text)?;
        kind_in(self.alloc, &later, form)
    }

    /// A lexer before the value of that attribute, the first that is kept of its tag.
    fn at_value(alloc: Global, wanted: Wanted, attribute: AskedName) -> Self
        ensures mode { result.mode ≡ BeforeAttributeValue }
        ensures wanted { result.wanted ≡ wanted }
        ensures keeps { result.keeps ≡ Some attribute }
        ensures attributes { result.attributes.items ≡ [] }
    {
        let mut lexer = Lexer::new(alloc, Syntax::Html);
        lexer.mode = TokenizerState::BeforeAttributeValue;
        lexer.wanted = wanted;
        lexer.keeps = Some(attribute);
        lexer.attributes = Vec::new(alloc);
        lexer
    }

    /// Reads a text up to the end of the tag that is being read. Whether that comes, before any style sheet.
    fn read_tag(&mut self, text: &[u8]) -> Result<bool, AllocError>
        ensures tag { IfOk result (λ ends. ends ≡ true → (more : List Source) × (remaining self.old text.now ≡ FromTag (record { name = self.new.name.items; attributes = self.new.attributes.items }) ∷ more)) }
        ensures none { IfOk result (λ ends. ends ≡ false → (tag : Tag) (more : List Source) → ¬ (remaining self.old text.now ≡ FromTag tag ∷ more)) }
    {
        let mut left = text;
        while let [byte, others @ ..] = left {
            match self.step(*byte)? {
                Ended::Nothing => left = self.run(others)?,
                Ended::Tag => return Ok(true),
                Ended::Sheet => return Ok(false),
            }
        }
        match self.finish()? {
            Ended::Tag => Ok(true),
            Ended::Nothing | Ended::Sheet => Ok(false),
        }
    }

    /// Whether the next byte is in the text of a `style` element, which is raw text.
    pub(crate) fn is_in_sheet(&self) -> bool
        ensures { result ≡ true ↔ (self.now.mode ≡ SheetText) }
    {
        matches!(self.mode, TokenizerState::SheetText)
    }
}

/// That attribute with the value at the front of the text, and those after it in its tag that are kept; none, if the end of the text
/// cuts the tag.
fn later(
    alloc: Global,
    wanted: Wanted,
    attribute: AskedName,
    text: &[u8],
) -> Result<Vec<Attribute>, AllocError>
    requires { is_kept wanted ≡ true }
    ensures { IfOk result (λ later. later.items ≡ later_at wanted attribute text.now) }
{
    let mut lexer = Lexer::at_value(alloc, wanted, attribute);
    if lexer.read_tag(text)? {
        let Lexer { attributes, .. } = lexer;
        Ok(attributes)
    } else {
        Ok(Vec::new(alloc))
    }
}
