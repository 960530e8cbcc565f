//! A writer of a page whose links change, which reads what it writes.
ghost use Rattle.std.specs.Prelude.{◌≡◌, ◌++◌, [], ◌≤◌, ◌<◌, List, ℕ, OnOk, IfOk, length};
ghost use Rattle.html_links.specs.Scanning.{StandsFor};
ghost use Rattle.html_links.specs.Awaiting.{Awaits};
ghost use Rattle.html_links.specs.declared.context.Syntax.{Syntax};
ghost use Rattle.html_links.specs.declared.lexer.TokenizerState.TheVariants.{SheetText};
ghost use Rattle.page_links.specs.Rewriting.{IsAnew, IsAt};

use crate::bytes::{is_white, run_len};
use crate::cut::cut_value;
use crate::page_change::PageChange;
use crate::sheet::{fits, split_sheet};
use crate::value::{sheet_anew, value_anew};
use html_links::{HtmlScanner, OutOfMemory, Syntax, ValueForm};
use std::alloc::Global;

/// What was written of a page, and a scanner that has read it.
#[derive(Drop)]
pub(crate) struct Writer {
    alloc: Global,
    pub(crate) scanner: HtmlScanner,
    pub(crate) out: Vec<u8>,
}

impl Writer {
    /// A writer that has written nothing.
    pub(crate) fn new(alloc: Global, syntax: Syntax) -> Self
        ensures out { result.out.items ≡ [] }
        ensures stands { StandsFor syntax result.scanner result.out.items }
    {
        Writer {
            alloc,
            scanner: HtmlScanner::with_syntax(alloc, syntax),
            out: Vec::new(alloc),
        }
    }

    /// Writes bytes.
    fn put(&mut self, bytes: &[u8]) -> Result<(), OutOfMemory>
        ensures out { OnOk result (self.new.out.items ≡ self.old.out.items ++ bytes.now) }
        ensures stands { OnOk result ((syntax : Syntax) → StandsFor syntax self.old.scanner self.old.out.items → StandsFor syntax self.new.scanner self.new.out.items) }
    {
        self.scanner.feed(bytes)?;
        self.out.extend_from_slice(bytes)?;
        Ok(())
    }

    /// Writes bytes of the page as they are, up to where a value may be awaited. Gives what is left.
    fn copy<'a, P: PageChange>(
        &mut self,
        changes: &P,
        left: &'a [u8],
    ) -> Result<&'a [u8], OutOfMemory>
        ensures at { IfOk result (λ rest. (syntax : Syntax) (page : List ℕ) → IsAt (P.becomes changes.now) syntax page self.old.scanner self.old.out.items left.now → IsAt (P.becomes changes.now) syntax page self.new.scanner self.new.out.items rest.now) }
        ensures within { IfOk result (λ rest. length rest.now ≤ length left.now) }
        ensures shorter { IfOk result (λ rest. 1 ≤ length left.now → length rest.now < length left.now) }
    {
        let (run, rest) = left.split_at(run_len(left));
        self.put(run)?;
        Ok(rest)
    }

    /// Writes the value that comes next anew, if its links change. Gives what is left.
    fn write_value<'a, P: PageChange>(
        &mut self,
        changes: &P,
        form: ValueForm,
        left: &'a [u8],
    ) -> Result<&'a [u8], OutOfMemory>
        requires { Awaits self.old.scanner left.now form }
        ensures at { IfOk result (λ rest. (syntax : Syntax) (page : List ℕ) → IsAt (P.becomes changes.now) syntax page self.old.scanner self.old.out.items left.now → IsAt (P.becomes changes.now) syntax page self.new.scanner self.new.out.items rest.now) }
        ensures within { IfOk result (λ rest. length rest.now ≤ length left.now) }
    {
        let Some(cut) = cut_value(left) else {
            return Ok(left);
        };
        let Some(value) = value_anew(self.alloc, changes, form, cut.value)? else {
            return Ok(left);
        };
        self.put(cut.quote)?;
        self.put(&value)?;
        Ok(cut.end)
    }

    /// Writes the text of a `style` element anew, or as it is if its end would be elsewhere. Gives what is left.
    fn write_sheet<'a, P: PageChange>(
        &mut self,
        changes: &P,
        left: &'a [u8],
    ) -> Result<&'a [u8], OutOfMemory>
        requires { self.old.scanner.lexer.mode ≡ SheetText }
        ensures at { IfOk result (λ rest. (syntax : Syntax) (page : List ℕ) → IsAt (P.becomes changes.now) syntax page self.old.scanner self.old.out.items left.now → IsAt (P.becomes changes.now) syntax page self.new.scanner self.new.out.items rest.now) }
        ensures within { IfOk result (λ rest. length rest.now ≤ length left.now) }
    {
        let (sheet, end) = split_sheet(left);
        let anew = sheet_anew(self.alloc, changes, sheet)?;
        if !fits(&anew, sheet, end) {
            self.put(sheet)?;
            return Ok(end);
        }
        self.put(&anew)?;
        Ok(end)
    }

    /// Writes what comes next: a value anew, the text of a `style` element, or nothing. Gives what is left.
    fn write_next<'a, P: PageChange>(
        &mut self,
        changes: &P,
        left: &'a [u8],
    ) -> Result<&'a [u8], OutOfMemory>
        ensures at { IfOk result (λ rest. (syntax : Syntax) (page : List ℕ) → IsAt (P.becomes changes.now) syntax page self.old.scanner self.old.out.items left.now → IsAt (P.becomes changes.now) syntax page self.new.scanner self.new.out.items rest.now) }
        ensures within { IfOk result (λ rest. length rest.now ≤ length left.now) }
    {
        if let [first, ..] = left {
            // (a value is awaited after white too)
            if is_white(*first) {
                return Ok(left);
            }
        }
        match self.scanner.awaited(left)? {
            Some(form) => self.write_value(changes, form, left),
            None => {
                if self.scanner.is_in_sheet() {
                    self.write_sheet(changes, left)
                } else {
                    Ok(left)
                }
            },
        }
    }

    /// Writes the page.
    pub(crate) fn write<P: PageChange>(
        &mut self,
        changes: &P,
        page: &[u8],
    ) -> Result<(), OutOfMemory>
        requires { self.old.out.items ≡ [] }
        ensures { OnOk result ((syntax : Syntax) → StandsFor syntax self.old.scanner self.old.out.items → IsAt (P.becomes changes.now) syntax page.now self.new.scanner self.new.out.items []) }
    {
        let mut left = page;
        while !left.is_empty() {
            let rest = self.write_next(changes, left)?;
            left = self.copy(changes, rest)?;
        }
        Ok(())
    }
}
