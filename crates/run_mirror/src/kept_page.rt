//! What the links of a kept page become.
ghost use Rattle.std.specs.Prelude.{◌≡◌, IfOk, option_map, string_bytes};
ghost use Rattle.css_links.specs.Rewriting.{changed};
ghost use Rattle.html_links.specs.declared.awaiting.ValueForm.{ValueForm};
ghost use Rattle.html_links.specs.declared.awaiting.ValueForm.TheVariants as value;
ghost use Rattle.run_mirror.specs.Anew.{becomes_in, form_of, kept_for, page_in, Leads, LeadsAlike, LeadsToItself};
ghost use Rattle.link_changes.specs.Changing.{becomes};
ghost use Rattle.local_links.specs.Relative.{relative};

use crate::run_mirror::RunMirror;
use address::Address;
use html_links::ValueForm;
use link_changes::{Form, Links};
use page_links::PageChange;
use std::alloc::{AllocError, Global};
use std::marker::Model;

/// A page of a run: its file, and the address to which its links are joined.
pub(crate) struct PageFile<'a> {
    alloc: Global,
    mirror: &'a RunMirror<'a>,
    file: &'a str,
    base: &'a Address,
}

impl<'a> Drop for PageFile<'a> {
    fn drop(self) {
        let PageFile {
            alloc: _alloc,
            mirror: _mirror,
            file: _file,
            base: _base,
        } = self;
    }
}

impl<'a> Model for PageFile<'a> {
    ghost use Rattle.run_mirror.specs.Anew as spec;

    ghost Value = { spec.KeptPage };

    ghost view = { λ page. record { run = page.mirror.now; file = page.file.now; base = page.base.now } };
}

impl<'a> PageFile<'a> {
    pub(crate) fn new(
        alloc: Global,
        mirror: &'a RunMirror<'a>,
        file: &'a str,
        base: &'a Address,
    ) -> Self
        ensures { result ≡ record { run = mirror.now; file = file.now; base = base.now } }
    {
        PageFile {
            alloc,
            mirror,
            file,
            base,
        }
    }

    /// What a link becomes that is written in that form and leads to what of the run was kept so.
    fn becomes_among(
        &self,
        kept: &RunMirror<'_>,
        form: Form,
        text: &str,
    ) -> Result<Option<String>, AllocError>
        ensures value { (f : ValueForm) → form_of f ≡ form → kept_for f self.now.run ≡ kept.now → IfOk result (λ other. option_map string_bytes other ≡ becomes (page_in self.now f) text.now) }
        ensures leads { (f : ValueForm) → form_of f ≡ form → kept_for f self.now.run ≡ kept.now → IfOk result (λ other. LeadsAlike self.now f text.now (changed (becomes (page_in self.now f)) text.now)) }
    {
        let links = Links::new(self.alloc, kept, self.file, self.base, form);
        let other = links.becomes(text)?;
        Ok(other)
    }

    /// What a link becomes that is written in that form.
    fn becomes(&self, form: Form, text: &str) -> Result<Option<String>, AllocError>
        ensures value { (f : ValueForm) → form_of f ≡ form → kept_for f self.now.run ≡ self.now.run → IfOk result (λ other. option_map string_bytes other ≡ becomes (page_in self.now f) text.now) }
        ensures leads { (f : ValueForm) → form_of f ≡ form → kept_for f self.now.run ≡ self.now.run → IfOk result (λ other. LeadsAlike self.now f text.now (changed (becomes (page_in self.now f)) text.now)) }
    {
        self.becomes_among(self.mirror, form, text)
    }

    /// What a URL becomes that is only mentioned: its whole address, whatever was kept of it, since a form is sent to a server. An empty
    /// one stays: it means the page (HTML Standard, section 4.10.21.3).
    fn whole(&self, text: &str) -> Result<Option<String>, AllocError>
        ensures value { IfOk result (λ other. option_map string_bytes other ≡ becomes_in self.now value.Mention text.now) }
        ensures leads { IfOk result (λ other. Leads self.now value.Mention text.now (changed (becomes_in self.now value.Mention) text.now)) }
    {
        if text.is_empty() {
            return Ok(None);
        }
        let nothing = RunMirror::new(&[], &[], &[]);
        self.becomes_among(&nothing, Form::Value, text)
    }

    /// What the base becomes: the file itself.
    fn own_name(&self) -> Result<String, AllocError>
        ensures value { IfOk result (λ own. string_bytes own ≡ relative self.now.file self.now.file) }
        ensures leads { IfOk result (λ own. LeadsToItself self.now (string_bytes own)) }
    {
        let own = local_links::relative(self.alloc, self.file, self.file)?;
        Ok(own)
    }
}

impl<'a> PageChange for PageFile<'a> {
    ghost becomes = { λ page form. becomes_in page form };

    ghost known = { λ page form old new. Leads page form old new };

    fn change(&self, form: ValueForm, text: &str) -> Result<Option<String>, AllocError> {
        match form {
            ValueForm::Address => self.becomes(Form::Value, text),
            ValueForm::Base => Ok(Some(self.own_name()?)),
            ValueForm::Set => self.becomes(Form::Set, text),
            ValueForm::Refresh => self.becomes(Form::Refresh, text),
            ValueForm::Sheet => self.becomes(Form::Sheet, text),
            ValueForm::Mention => self.whole(text),
        }
    }
}
