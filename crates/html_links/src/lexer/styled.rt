//! Style sheets in `style` elements of foreign content and XML, whose text is that of any element (HTML Standard, section 4.2.6).
ghost use Rattle.std.specs.Prelude.{◌≡◌, true, ℕ, List, [], ◌∷◌, ◌++◌, IfOk, OnOk, OnErr};
ghost use Rattle.css_links.specs.References.{Front, fed};
ghost use Rattle.html_links.specs.References.{referenced};
ghost use Rattle.std.specs.Char.{is_ascii_alphabetic};

use crate::lexer::{Ended, Lexer, Section, TokenizerState};
use crate::value::replace_references;
use std::alloc::AllocError;

impl Lexer {
    ghost use Rattle.html_links.specs.Contexts.{Context};
    ghost use Rattle.html_links.specs.Pieces.{Attribute};
    ghost use Rattle.html_links.specs.Lexing.{asked_from, sheet_if, section_part, with_section, in_text, in_markup};
    ghost use Rattle.html_links.specs.inner.Lexing.{GivesTag, source_if, tag_ended, EndsOnly};

    /// Puts bytes to the text in which references are still to be replaced, if it is that of a style sheet.
    pub(crate) fn hold(&mut self, bytes: &[u8]) -> Result<(), AllocError>
        ensures same { OnOk result (self.new ≡ record self.old { held = self.new.held }) }
        ensures held { OnOk result ((s : Front) (k : Context) (text : List ℕ) → asked_from self.old.styled s self.new.held.items k text ≡ asked_from self.old.styled s (self.old.held.items ++ bytes.now) k text) }
        ensures err { OnErr result (self.old.styled ≡ true) }
    {
        if self.styled {
            self.held.extend_from_slice(bytes)?;
        }
        Ok(())
    }

    /// Puts the text to the style sheet, if one is read, with its references replaced.
    pub(crate) fn settle(&mut self) -> Result<(), AllocError>
        ensures same { OnOk result (self.new ≡ record self.old { sheet = self.new.sheet }) }
        ensures sheet { OnOk result ((text : List ℕ) → sheet_if self.old.styled self.new.sheet.front text ≡ sheet_if self.old.styled self.old.sheet.front (referenced self.old.held.items ++ text)) }
        ensures err { OnErr result (self.old.styled ≡ true) }
    {
        if self.styled {
            let text = replace_references(self.alloc, &self.held)?;
            self.put_sheet(&text)?;
        }
        Ok(())
    }

    /// Puts bytes of a section to the style sheet, if one is read and the section is text.
    pub(crate) fn put_section(&mut self, section: Section, bytes: &[u8]) -> Result<(), AllocError>
        ensures same { OnOk result (self.new ≡ record self.old { sheet = self.new.sheet }) }
        ensures sheet { OnOk result ((text : List ℕ) → sheet_if self.old.styled self.new.sheet.front text ≡ sheet_if self.old.styled self.old.sheet.front (section_part section bytes.now ++ text)) }
        ensures err { OnErr result (self.old.styled ≡ true) }
    {
        match section {
            Section::Comment => Ok(()),
            Section::CData => self.put_styled(bytes),
        }
    }

    fn put_styled(&mut self, bytes: &[u8]) -> Result<(), AllocError>
        ensures same { OnOk result (self.new ≡ record self.old { sheet = self.new.sheet }) }
        ensures sheet { OnOk result ((text : List ℕ) → sheet_if self.old.styled self.new.sheet.front text ≡ sheet_if self.old.styled self.old.sheet.front (bytes.now ++ text)) }
        ensures err { OnErr result (self.old.styled ≡ true) }
    {
        if self.styled {
            self.put_sheet(bytes)?;
        }
        Ok(())
    }

    /// Ends the style sheet, if one is read.
    fn end_styled(&mut self) -> Result<Ended, AllocError>
        ensures same { OnOk result (self.new ≡ record self.old { sheet = self.new.sheet; shown = self.new.shown }) }
        ensures ends { IfOk result (λ ends. (name : List ℕ) (attributes : List Attribute) → sheet_if self.old.styled self.old.sheet.front [] ≡ source_if ends name attributes self.new.shown.items) }
        ensures only { IfOk result (λ ends. EndsOnly self.old.styled ends) }
        ensures err { OnErr result (self.old.styled ≡ true) }
    {
        if !self.styled {
            return Ok(Ended::Nothing);
        }
        self.end_sheet()?;
        Ok(Ended::Sheet)
    }

    /// Ends the style sheet at the first letter of a start tag's name.
    pub(crate) fn begin_tag(&mut self, byte: u8) -> Result<Ended, AllocError>
        requires { is_ascii_alphabetic byte ≡ true }
        ensures { IfOk result (λ ends. GivesTag (λ rest. in_text self.old (60 ∷ rest)) byte ends self.new) }
    {
        self.settle()?;
        self.name.clear();
        self.name.push(byte.to_ascii_lowercase())?;
        self.mode = TokenizerState::TagName;
        self.end_styled()
    }

    /// Ends the style sheet at the first letter of an end tag's name.
    pub(crate) fn begin_end_tag(&mut self, byte: u8) -> Result<Ended, AllocError>
        requires { is_ascii_alphabetic byte ≡ true }
        ensures { IfOk result (λ ends. GivesTag (λ rest. in_markup self.old (60 ∷ 47 ∷ rest)) byte ends self.new) }
    {
        self.name.clear();
        self.push_end_name(&[byte])?;
        self.mode = TokenizerState::EndTagName;
        self.end_styled()
    }

    // ---- the end of the body

    /// Reads it in text.
    pub(crate) fn end_text(&mut self) -> Result<Ended, AllocError>
        ensures ends { IfOk result (λ ends. in_text self.old [] ≡ tag_ended ends self.new) }
        ensures only { IfOk result (λ ends. EndsOnly self.old.styled ends) }
        ensures err { OnErr result (self.old.styled ≡ true) }
    {
        self.settle()?;
        self.end_styled()
    }

    /// Reads it after a `<`, which is text.
    pub(crate) fn end_text_with_less(&mut self) -> Result<Ended, AllocError>
        ensures ends { IfOk result (λ ends. in_text self.old (60 ∷ []) ≡ tag_ended ends self.new) }
        ensures only { IfOk result (λ ends. EndsOnly self.old.styled ends) }
        ensures err { OnErr result (self.old.styled ≡ true) }
    {
        self.hold(b"<")?;
        self.end_text()
    }

    /// Reads it in markup that isn't text.
    pub(crate) fn end_markup(&mut self) -> Result<Ended, AllocError>
        ensures ends { IfOk result (λ ends. in_markup self.old [] ≡ tag_ended ends self.new) }
        ensures only { IfOk result (λ ends. EndsOnly self.old.styled ends) }
        ensures err { OnErr result (self.old.styled ≡ true) }
    {
        self.end_styled()
    }

    /// Reads it in a section, after one or both of the bytes that are there twice at its end.
    pub(crate) fn end_section(
        &mut self,
        section: Section,
        marks: &[u8],
    ) -> Result<Ended, AllocError>
        ensures ends { IfOk result (λ ends. with_section self.old section marks.now [] ≡ tag_ended ends self.new) }
        ensures only { IfOk result (λ ends. EndsOnly self.old.styled ends) }
        ensures err { OnErr result (self.old.styled ≡ true) }
    {
        self.put_section(section, marks)?;
        self.end_styled()
    }
}
