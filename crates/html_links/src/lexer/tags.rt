//! Names and ends of tags (HTML Standard, sections 13.2.5.6 to 13.2.5.8).
ghost use Rattle.std.specs.Prelude.{◌≡◌, true, false, ℕ, Some, None, List, ◌∷◌, ◌++◌, MatchOption, IfOk, OnOk, length, ◌≤◌};
ghost use Rattle.html_links.specs.Pieces.{from, lower, ends_tag_name};
ghost use Rattle.html_links.specs.Markup.{begins_raw, is_styled, unless_closed};
ghost use Rattle.html_links.specs.Asked.{given, asked_tags};
ghost use Rattle.html_links.specs.Lexing.{raw_name};
ghost use Rattle.html_links.specs.declared.asked.Wanted.TheVariants as wanted;

use crate::asked::Wanted;
use crate::bytes::{TagSpan, ends_tag_name, is_name};
use crate::lexer::{Ended, Lexer, TokenizerState};
use crate::raw_element::RawElement;
use std::alloc::AllocError;

/// Puts a text in lower case to the end of a name.
pub(crate) fn push_lower(name: &mut Vec<u8>, text: &[u8]) -> Result<(), AllocError>
    ensures { OnOk result (name.new.items ≡ name.old.items ++ lower text.now) }
{
    for byte in text {
        name.push(byte.to_ascii_lowercase())?;
    }
    Ok(())
}

impl Lexer {
    ghost use Rattle.html_links.specs.Contexts.{opened};
    ghost use Rattle.html_links.specs.Markup.{Attributes, start_tag, end_tag, attributes};
    ghost use Rattle.html_links.specs.Lexing.{remaining, behind_tag, tags_after, in_tag_name, in_end_tag_name, in_raw_end, between_attributes, before_attribute_name};
    ghost use Rattle.html_links.specs.inner.Lexing.{GivesTag, LeavesTag, source_if};

    pub(crate) fn tag_name(&mut self, byte: u8) -> Result<Ended, AllocError>
        ensures { IfOk result (λ ends. GivesTag (in_tag_name self.old) byte ends self.new) }
    {
        if ends_tag_name(byte) {
            self.begin_attributes();
            return self.before_attribute_name(byte);
        }
        self.name.push(byte.to_ascii_lowercase())?;
        self.mode = TokenizerState::TagName;
        Ok(Ended::Nothing)
    }

    /// Goes on after the name of a start tag, and settles what is kept of it and what it opens.
    fn begin_attributes(&mut self)
        ensures { (rest : List ℕ) → tags_after self.old.context (start_tag self.old.context self.old.name.items (attributes rest)) ≡ before_attribute_name self.new rest }
    {
        self.wanted = Wanted::in_start_tag(&self.name);
        self.raw = self.raw_element();
        self.styled = self.is_styled();
        self.opens = self.context.opens(&self.name);
        self.context.break_out(&self.name);
        self.attributes.clear();
    }

    /// The element whose text follows the start tag of which this is the name.
    fn raw_element(&self) -> Option<RawElement>
        ensures { MatchOption result (begins_raw self.now.context self.now.name.items ≡ false) (λ e. (self.now.name.items ≡ raw_name e) × (begins_raw self.now.context self.now.name.items ≡ true)) }
    {
        if self.context.reads_html() {
            RawElement::named(&self.name)
        } else {
            None
        }
    }

    /// Whether the text that follows the start tag of which this is the name is a style sheet, as any other text is read.
    fn is_styled(&self) -> bool
        ensures { result ≡ is_styled self.now.context self.now.name.items }
    {
        !self.context.reads_html() && is_name(&self.name, b"style")
    }

    pub(crate) fn tag_name_run<'a>(&mut self, text: &'a [u8]) -> Result<&'a [u8], AllocError>
        ensures gives { IfOk result (λ left. LeavesTag (in_tag_name self.old) text.now left.now self.new) }
        ensures shorter { IfOk result (λ left. length left.now ≤ length text.now) }
    {
        let (name, left) = TagSpan::TagName.split(text);
        push_lower(&mut self.name, name)?;
        self.mode = TokenizerState::TagName;
        Ok(left)
    }

    pub(crate) fn end_tag_name(&mut self, byte: u8) -> Result<Ended, AllocError>
        ensures { IfOk result (λ ends. GivesTag (in_end_tag_name self.old) byte ends self.new) }
    {
        if ends_tag_name(byte) {
            self.context.leave(&self.name);
            return self.end_tag_attributes(byte);
        }
        self.push_end_name(&[byte])?;
        self.mode = TokenizerState::EndTagName;
        Ok(Ended::Nothing)
    }

    /// Puts bytes to the name of an end tag, if it may say something.
    #[tactic(auto, using(crate::proofs::Tagging::end_put, crate::proofs::Tagging::end_unheeded))]
    pub(crate) fn push_end_name(&mut self, bytes: &[u8]) -> Result<(), AllocError>
        ensures same { OnOk result (self.new ≡ record self.old { name = self.new.name }) }
        ensures named { OnOk result ((name : List ℕ) (found : Attributes) → tags_after self.old.context (end_tag (self.new.name.items ++ name) found) ≡ tags_after self.old.context (end_tag (self.old.name.items ++ (lower bytes.now ++ name)) found)) }
    {
        if self.context.heeds_end_tags() {
            push_lower(&mut self.name, bytes)?;
        }
        Ok(())
    }

    /// Goes on after the name of an end tag, of which nothing is kept.
    pub(crate) fn end_tag_attributes(&mut self, byte: u8) -> Result<Ended, AllocError>
        ensures { IfOk result (λ ends. GivesTag (in_raw_end self.old.context) byte ends self.new) }
    {
        self.wanted = Wanted::Nothing;
        self.raw = None;
        self.styled = false;
        self.opens = None;
        self.before_attribute_name(byte)
    }

    pub(crate) fn end_tag_name_run<'a>(&mut self, text: &'a [u8]) -> Result<&'a [u8], AllocError>
        ensures gives { IfOk result (λ left. LeavesTag (in_end_tag_name self.old) text.now left.now self.new) }
        ensures shorter { IfOk result (λ left. length left.now ≤ length text.now) }
    {
        let (name, left) = TagSpan::TagName.split(text);
        self.push_end_name(name)?;
        self.mode = TokenizerState::EndTagName;
        Ok(left)
    }

    /// Ends the tag at its `>`, after a `/` or not.
    pub(crate) fn end_tag(&mut self, slash: bool) -> Result<Ended, AllocError>
        ensures { IfOk result (λ ends. GivesTag (between_attributes slash self.old) 62 ends self.new) }
    {
        self.begin_content(slash)?;
        Ok(self.given())
    }

    /// The tag that has been read, if it is a start tag of which something was kept.
    fn given(&self) -> Ended
        ensures { (name : List ℕ) (shown : List (List ℕ)) → given self.now.wanted name self.now.attributes.items ≡ source_if result name self.now.attributes.items shown }
    {
        match self.wanted {
            Wanted::Nothing => Ended::Nothing,
            Wanted::Style | Wanted::All => self.if_kept(),
        }
    }

    fn if_kept(&self) -> Ended
        ensures { (name : List ℕ) (shown : List (List ℕ)) → given wanted.Style name self.now.attributes.items ≡ source_if result name self.now.attributes.items shown }
    {
        if self.attributes.is_empty() {
            Ended::Nothing
        } else {
            Ended::Tag
        }
    }

    /// Goes on after the tag that has been read, which `/>` ends or not.
    fn begin_content(&mut self, slash: bool) -> Result<(), AllocError>
        ensures rest { OnOk result ((rest : List ℕ) → behind_tag (opened self.old.opens slash self.old.context) self.old.raw (unless_closed slash self.old.styled) rest ≡ remaining self.new rest) }
        ensures same { OnOk result (self.new ≡ record self.old { mode = self.new.mode; context = self.new.context; styled = self.new.styled; sheet = self.new.sheet; held = self.new.held }) }
    {
        self.open_element(slash)?;
        if slash {
            self.styled = false;
        }
        match self.raw {
            Some(element) => self.begin_raw_text(element),
            None => self.begin_text(),
        }
        Ok(())
    }

    /// Goes on in text, which may be a style sheet.
    fn begin_text(&mut self)
        ensures rest { (rest : List ℕ) → behind_tag self.old.context None self.old.styled rest ≡ remaining self.new rest }
        ensures same { self.new ≡ record self.old { mode = self.new.mode; sheet = self.new.sheet; held = self.new.held } }
    {
        if self.styled {
            self.sheet = css_links::Scanner::new(self.alloc);
            self.held.clear();
        }
        self.mode = TokenizerState::Data;
    }

    /// Goes on in the text of that element.
    fn begin_raw_text(&mut self, element: RawElement)
        ensures rest { (rest : List ℕ) → behind_tag self.old.context (Some element) self.old.styled rest ≡ remaining self.new rest }
        ensures same { self.new ≡ record self.old { mode = self.new.mode; sheet = self.new.sheet } }
    {
        match element {
            RawElement::Style => self.begin_sheet(),
            RawElement::Script => self.mode = TokenizerState::RawText(element, 0),
            RawElement::Title => self.mode = TokenizerState::RawText(element, 0),
            RawElement::Textarea => self.mode = TokenizerState::RawText(element, 0),
            RawElement::Xmp => self.mode = TokenizerState::RawText(element, 0),
        }
    }

    /// Opens the element of the tag that has been read, unless `/>` ends it.
    fn open_element(&mut self, slash: bool) -> Result<(), AllocError>
        ensures { OnOk result (self.new ≡ record self.old { context = opened self.old.opens slash self.old.context }) }
    {
        if slash {
            return Ok(());
        }
        if let Some(scope) = self.opens {
            self.context.enter(scope)?;
        }
        Ok(())
    }
}
