//! Style sheets in the raw text of `style` elements (HTML Standard, sections 4.2.6 and 13.2.5.4).
ghost use Rattle.std.specs.Prelude.{◌≡◌, ℕ, List, [], ◌∷◌, ◌++◌, IfOk, OnOk, length, ◌≤◌};
ghost use Rattle.css_links.specs.References.{nothing_read, fed, ended};
ghost use Rattle.std.specs.Prelude.{true};
ghost use Rattle.html_links.specs.Pieces.{ends_tag_name};

use crate::asked::Wanted;
use crate::bytes::{ends_tag_name, split_at_byte};
use crate::lexer::{Ended, Lexer, TokenizerState};
use crate::raw_element::RawElement;
use std::alloc::AllocError;
use std::mem;

impl Lexer {
    ghost use Rattle.html_links.specs.Lexing.{remaining, in_raw_end, in_sheet, in_sheet_end_tag};
    ghost use Rattle.html_links.specs.inner.Lexing.{GivesTag, LeavesTag, tag_ended, sheet_and_end};

    /// Goes on in the text of a `style` element.
    pub(crate) fn begin_sheet(&mut self)
        ensures rest { (rest : List ℕ) → in_sheet self.old.context nothing_read rest ≡ remaining self.new rest }
        ensures same { self.new ≡ record self.old { mode = self.new.mode; sheet = self.new.sheet } }
    {
        self.sheet = css_links::Scanner::new(self.alloc);
        self.mode = TokenizerState::SheetText;
    }

    /// Puts bytes to the style sheet.
    pub(crate) fn put_sheet(&mut self, bytes: &[u8]) -> Result<(), AllocError>
        ensures sheet { OnOk result (self.new.sheet.front ≡ fed self.old.sheet.front bytes.now) }
        ensures same { OnOk result (self.new ≡ record self.old { sheet = self.new.sheet }) }
    {
        match self.sheet.feed(bytes) {
            Ok(()) => Ok(()),
            Err(_) => Err(AllocError),
        }
    }

    /// Puts to the style sheet what was held as it may have been of the end tag.
    fn put_held(&mut self) -> Result<(), AllocError>
        ensures sheet { OnOk result (self.new.sheet.front ≡ fed self.old.sheet.front self.old.held.items) }
        ensures same { OnOk result (self.new ≡ record self.old { sheet = self.new.sheet }) }
    {
        match self.sheet.feed(&self.held) {
            Ok(()) => Ok(()),
            Err(_) => Err(AllocError),
        }
    }

    pub(crate) fn sheet_text(&mut self, byte: u8) -> Result<Ended, AllocError>
        ensures { IfOk result (λ ends. GivesTag (in_sheet self.old.context self.old.sheet.front) byte ends self.new) }
    {
        if byte == b'<' {
            self.held.clear();
            self.held.push(byte)?;
            self.mode = TokenizerState::SheetEndTag(1);
            return Ok(Ended::Nothing);
        }
        self.put_sheet(&[byte])?;
        self.mode = TokenizerState::SheetText;
        Ok(Ended::Nothing)
    }

    pub(crate) fn sheet_run<'a>(&mut self, text: &'a [u8]) -> Result<&'a [u8], AllocError>
        ensures gives { IfOk result (λ left. LeavesTag (in_sheet self.old.context self.old.sheet.front) text.now left.now self.new) }
        ensures shorter { IfOk result (λ left. length left.now ≤ length text.now) }
    {
        let (sheet, left) = split_at_byte(b'<', text);
        self.put_sheet(sheet)?;
        self.mode = TokenizerState::SheetText;
        Ok(left)
    }

    pub(crate) fn sheet_end_tag(&mut self, matched: usize, byte: u8) -> Result<Ended, AllocError>
        ensures { IfOk result (λ ends. GivesTag (in_sheet_end_tag self.old.context self.old.sheet.front self.old.held.items matched) byte ends self.new) }
    {
        match RawElement::Style.closing().get(matched) {
            None => {
                if ends_tag_name(byte) {
                    self.end_style(byte)
                } else {
                    self.sheet_again(byte)
                }
            },
            Some(expected) => {
                if byte.to_ascii_lowercase() == *expected {
                    self.held.push(byte)?;
                    self.mode = TokenizerState::SheetEndTag(matched + 1);
                    Ok(Ended::Nothing)
                } else {
                    self.sheet_again(byte)
                }
            },
        }
    }

    /// Reads a byte that doesn't continue the end tag: what was held belongs to the style sheet.
    fn sheet_again(&mut self, byte: u8) -> Result<Ended, AllocError>
        ensures { IfOk result (λ ends. GivesTag (in_sheet self.old.context (fed self.old.sheet.front self.old.held.items)) byte ends self.new) }
    {
        self.put_held()?;
        self.sheet_text(byte)
    }

    /// Ends the style sheet at the byte that ends the name of its end tag.
    fn end_style(&mut self, byte: u8) -> Result<Ended, AllocError>
        requires { ends_tag_name byte ≡ true }
        ensures { IfOk result (λ ends. GivesTag (sheet_and_end self.old.context self.old.sheet.front) byte ends self.new) }
    {
        self.end_sheet()?;
        self.behind_style(byte);
        Ok(Ended::Sheet)
    }

    /// Ends the style sheet at the end of the body.
    pub(crate) fn end_raw_sheet(&mut self) -> Result<Ended, AllocError>
        ensures { IfOk result (λ ends. in_sheet self.old.context self.old.sheet.front [] ≡ tag_ended ends self.new) }
    {
        self.end_sheet()?;
        Ok(Ended::Sheet)
    }

    /// Ends it there after a part of its end tag, which belongs to it.
    pub(crate) fn end_held_sheet(&mut self, matched: usize) -> Result<Ended, AllocError>
        ensures { IfOk result (λ ends. in_sheet_end_tag self.old.context self.old.sheet.front self.old.held.items matched [] ≡ tag_ended ends self.new) }
    {
        self.put_held()?;
        self.end_sheet()?;
        Ok(Ended::Sheet)
    }

    /// Ends the style sheet.
    pub(crate) fn end_sheet(&mut self) -> Result<(), AllocError>
        ensures shown { OnOk result (self.new.shown.items ≡ ended self.old.sheet.front) }
        ensures same { OnOk result (self.new ≡ record self.old { sheet = self.new.sheet; shown = self.new.shown }) }
    {
        let sheet = mem::replace(&mut self.sheet, css_links::Scanner::new(self.alloc));
        match sheet.finish() {
            Ok(shown) => {
                self.shown = shown;
                Ok(())
            },
            Err(_) => Err(AllocError),
        }
    }

    /// Goes on after the name of the end tag, which that byte ends.
    #[tactic(auto, using(crate::proofs::Tagging::style_ended, crate::proofs::Tagging::style_slashed, crate::proofs::Tagging::style_white))]
    fn behind_style(&mut self, byte: u8)
        requires { ends_tag_name byte ≡ true }
        ensures rest { (rest : List ℕ) → in_raw_end self.old.context (byte ∷ rest) ≡ remaining self.new rest }
        ensures shown { self.new.shown.items ≡ self.old.shown.items }
    {
        self.wanted = Wanted::Nothing;
        self.raw = None;
        self.styled = false;
        self.opens = None;
        self.mode = if byte == b'>' {
            TokenizerState::Data
        } else if byte == b'/' {
            TokenizerState::SelfClosingStartTag
        } else {
            TokenizerState::BeforeAttributeName
        };
    }

    /// The references of the style sheet that ended last, to be taken once.
    pub(crate) fn take_shown(&mut self) -> Vec<css_links::Found>
        ensures shown { result.items ≡ self.old.shown.items }
        ensures same { self.new ≡ record self.old { shown = self.new.shown } }
    {
        mem::replace(&mut self.shown, Vec::new(self.alloc))
    }
}
