//! Attributes of tags (HTML Standard, sections 13.2.5.32 to 13.2.5.39).
ghost use Rattle.std.specs.Prelude.{◌≡◌, true, false, MatchOption, ℕ, List, [], ◌∷◌, ◌++◌, IfOk, OnOk, length, ◌≤◌};
ghost use Rattle.html_links.specs.Pieces.{from, is, lower, ends_attribute_name, ends_bare_value};
ghost use Rattle.html_links.specs.Asked.{is_wanted, is_styling, asked_name};

use crate::asked::{AskedName, Wanted};
use crate::bytes::{
    TagSpan, ends_attribute_name, ends_bare_value, is_quote, is_white, split_at_byte,
};
use crate::lexer::tags::push_lower;
use crate::lexer::{Ended, Lexer, TokenizerState};
use crate::tag::Attribute;
use std::alloc::AllocError;
use std::mem;

impl Lexer {
    ghost use Rattle.html_links.specs.Markup.{Value, attributes, value_behind, with_attribute};
    ghost use Rattle.html_links.specs.Lexing.{with_named, tags_with, kept_with, between_attributes, before_attribute_name, in_attribute_name, after_attribute_name, before_attribute_value, in_attribute_value_quoted, in_attribute_value_unquoted};
    ghost use Rattle.html_links.specs.inner.Lexing.{HasRead, GivesTag, LeavesTag};

    pub(crate) fn before_attribute_name(&mut self, byte: u8) -> Result<Ended, AllocError>
        ensures { IfOk result (λ ends. GivesTag (before_attribute_name self.old) byte ends self.new) }
    {
        if byte == b'>' {
            return self.end_tag(false);
        }
        if is_white(byte) {
            self.mode = TokenizerState::BeforeAttributeName;
            return Ok(Ended::Nothing);
        }
        if byte == b'/' {
            self.mode = TokenizerState::SelfClosingStartTag;
            return Ok(Ended::Nothing);
        }
        self.attribute.clear();
        self.push_name(&[byte])?;
        self.mode = TokenizerState::AttributeName;
        Ok(Ended::Nothing)
    }

    pub(crate) fn self_closing_start_tag(&mut self, byte: u8) -> Result<Ended, AllocError>
        ensures { IfOk result (λ ends. GivesTag (between_attributes true self.old) byte ends self.new) }
    {
        if byte == b'>' {
            return self.end_tag(true);
        }
        self.before_attribute_name(byte)
    }

    pub(crate) fn attribute_name(&mut self, byte: u8) -> Result<Ended, AllocError>
        ensures { IfOk result (λ ends. GivesTag (in_attribute_name self.old) byte ends self.new) }
    {
        if ends_attribute_name(byte) {
            self.settle_attribute();
            return self.after_attribute_name(byte);
        }
        self.push_name(&[byte])?;
        self.mode = TokenizerState::AttributeName;
        Ok(Ended::Nothing)
    }

    /// Puts bytes to the attribute's name, if it may be kept.
    #[tactic(auto, using(crate::proofs::Tagging::not_kept))]
    fn push_name(&mut self, bytes: &[u8]) -> Result<(), AllocError>
        ensures same { OnOk result (self.new ≡ record self.old { attribute = self.new.attribute }) }
        ensures named { OnOk result ((name : List ℕ) → (found : Value) → with_named self.old (self.new.attribute.items ++ name) found ≡ with_named self.old (self.old.attribute.items ++ (lower bytes.now ++ name)) found) }
    {
        if self.may_be_kept() {
            push_lower(&mut self.attribute, bytes)?;
        }
        Ok(())
    }

    /// Whether the part of the attribute's name that came may be the front of one that is kept.
    fn may_be_kept(&self) -> bool
        ensures { result ≡ false → (name : List ℕ) → is_wanted self.now.wanted (self.now.attribute.items ++ name) ≡ false }
    {
        match self.wanted {
            Wanted::Nothing => false,
            Wanted::Style => begins_styling(&self.attribute),
            Wanted::All => true,
        }
    }

    /// Settles after the name of an attribute whether it is kept.
    fn settle_attribute(&mut self)
        ensures { (rest : List ℕ) → tags_with self.old self.old.attributes.items (with_attribute self.old.attribute.items (value_behind rest) attributes) ≡ after_attribute_name self.new rest }
    {
        self.keeps = self.asked_attribute();
    }

    /// The attribute that is being read, if a rule names it.
    fn asked_attribute(&self) -> Option<AskedName>
        ensures { MatchOption result (is_wanted self.now.wanted self.now.attribute.items ≡ false) (λ n. (self.now.attribute.items ≡ asked_name n) × (is_wanted self.now.wanted self.now.attribute.items ≡ true)) }
    {
        self.wanted.attribute(&self.attribute)
    }

    pub(crate) fn attribute_name_run<'a>(&mut self, text: &'a [u8]) -> Result<&'a [u8], AllocError>
        ensures gives { IfOk result (λ left. LeavesTag (in_attribute_name self.old) text.now left.now self.new) }
        ensures shorter { IfOk result (λ left. length left.now ≤ length text.now) }
    {
        let (name, left) = TagSpan::AttributeName.split(text);
        self.push_name(name)?;
        self.mode = TokenizerState::AttributeName;
        Ok(left)
    }

    pub(crate) fn after_attribute_name(&mut self, byte: u8) -> Result<Ended, AllocError>
        ensures { IfOk result (λ ends. GivesTag (after_attribute_name self.old) byte ends self.new) }
    {
        if is_white(byte) {
            self.mode = TokenizerState::AfterAttributeName;
            return Ok(Ended::Nothing);
        }
        self.value.clear();
        if byte == b'=' {
            self.mode = TokenizerState::BeforeAttributeValue;
            return Ok(Ended::Nothing);
        }
        self.end_attribute()?;
        self.before_attribute_name(byte)
    }

    pub(crate) fn before_attribute_value(&mut self, byte: u8) -> Result<Ended, AllocError>
        ensures { IfOk result (λ ends. GivesTag (before_attribute_value self.old) byte ends self.new) }
    {
        if is_white(byte) {
            self.mode = TokenizerState::BeforeAttributeValue;
            return Ok(Ended::Nothing);
        }
        self.value.clear();
        if is_quote(byte) {
            self.mode = TokenizerState::AttributeValueQuoted(byte);
            return Ok(Ended::Nothing);
        }
        self.attribute_value_unquoted(byte)
    }

    pub(crate) fn attribute_value_quoted(
        &mut self,
        quote: u8,
        byte: u8,
    ) -> Result<Ended, AllocError>
        ensures { IfOk result (λ ends. GivesTag (in_attribute_value_quoted quote self.old) byte ends self.new) }
    {
        if byte == quote {
            self.end_attribute()?;
            self.mode = TokenizerState::BeforeAttributeName;
            return Ok(Ended::Nothing);
        }
        self.push_value(&[byte])?;
        self.mode = TokenizerState::AttributeValueQuoted(quote);
        Ok(Ended::Nothing)
    }

    pub(crate) fn attribute_value_quoted_run<'a>(
        &mut self,
        quote: u8,
        text: &'a [u8],
    ) -> Result<&'a [u8], AllocError>
        ensures gives { IfOk result (λ left. LeavesTag (in_attribute_value_quoted quote self.old) text.now left.now self.new) }
        ensures shorter { IfOk result (λ left. length left.now ≤ length text.now) }
    {
        let (value, left) = split_at_byte(quote, text);
        self.push_value(value)?;
        self.mode = TokenizerState::AttributeValueQuoted(quote);
        Ok(left)
    }

    pub(crate) fn attribute_value_unquoted(&mut self, byte: u8) -> Result<Ended, AllocError>
        ensures { IfOk result (λ ends. GivesTag (in_attribute_value_unquoted self.old) byte ends self.new) }
    {
        if ends_bare_value(byte) {
            self.end_attribute()?;
            return self.before_attribute_name(byte);
        }
        self.push_value(&[byte])?;
        self.mode = TokenizerState::AttributeValueUnquoted;
        Ok(Ended::Nothing)
    }

    pub(crate) fn attribute_value_unquoted_run<'a>(
        &mut self,
        text: &'a [u8],
    ) -> Result<&'a [u8], AllocError>
        ensures gives { IfOk result (λ left. LeavesTag (in_attribute_value_unquoted self.old) text.now left.now self.new) }
        ensures shorter { IfOk result (λ left. length left.now ≤ length text.now) }
    {
        let (value, left) = TagSpan::BareValue.split(text);
        self.push_value(value)?;
        self.mode = TokenizerState::AttributeValueUnquoted;
        Ok(left)
    }

    /// Puts bytes to the value, if it is kept.
    fn push_value(&mut self, bytes: &[u8]) -> Result<(), AllocError>
        ensures same { OnOk result (self.new ≡ record self.old { value = self.new.value }) }
        ensures kept { OnOk result ((value : List ℕ) → kept_with self.old (self.new.value.items ++ value) ≡ kept_with self.old (self.old.value.items ++ (bytes.now ++ value))) }
    {
        if self.keeps.is_some() {
            self.value.extend_from_slice(bytes)?;
        }
        Ok(())
    }

    /// Puts the attribute that is being read to those of the tag, if it is kept.
    fn end_attribute(&mut self) -> Result<(), AllocError>
        ensures { OnOk result (HasRead self.old self.old.value.items self.new) }
    {
        if let Some(name) = self.keeps {
            let value = mem::replace(&mut self.value, Vec::new(self.alloc));
            self.attributes.push(Attribute { name, value })?;
        }
        Ok(())
    }
}

ghost use Rattle.html_links.specs.inner.Rows.{begins_styling};

/// Whether a front in lower case may be one of an attribute that is read like a style sheet, by its first byte.
fn begins_styling(front: &[u8]) -> bool
    ensures { result ≡ false → (name : List ℕ) → is_styling (front.now ++ name) ≡ false }
{
    match front {
        [first, ..] => may_begin_styling(*first),
        [] => true,
    }
}

fn may_begin_styling(first: u8) -> bool
    ensures { result ≡ begins_styling first }
{
    first == b's' || first == b'f' || first == b'm' || first == b'c'
}
