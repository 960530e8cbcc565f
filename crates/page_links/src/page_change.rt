//! What the links of a page become.
ghost use Rattle.std.specs.Prelude.{◌≡◌, ℕ, List, Option, IfOk, option_map, string_bytes};
ghost use Rattle.css_links.specs.Rewriting.{changed};
ghost use Rattle.html_links.specs.declared.awaiting.ValueForm.{ValueForm};

use css_links::Change;
use html_links::ValueForm;
use std::alloc::AllocError;
use std::marker::Model;

/// What the links of a page become by what they are written in, and what its base becomes.
pub trait PageChange {
    // What a link of that text becomes that is written so; nothing, if it stays.
    ghost becomes: { Self → ValueForm → List ℕ → Option (List ℕ) };

    // What is known of a link that is written so, by its old text and by the one that it has then.
    ghost known: { Self → ValueForm → List ℕ → List ℕ → Type 0 };

    /// What a link of that text becomes that is written so; nothing, if it stays. The error is out of memory.
    fn change(&self, form: ValueForm, text: &str) -> Result<Option<String>, AllocError>
        ensures other { IfOk result (λ other. option_map string_bytes other ≡ becomes self.now form text.now) }
        ensures known { IfOk result (λ other. known self.now form text.now (changed (becomes self.now form) text.now)) };
}

/// What those become that are written in one form.
pub(crate) struct InForm<'a, P: PageChange> {
    changes: &'a P,
    form: ValueForm,
}

impl<'a, P: PageChange> Drop for InForm<'a, P> {
    fn drop(self) {
        let InForm {
            changes: _changes,
            form: _form,
        } = self;
    }
}

impl<'a, P: PageChange> Model for InForm<'a, P> {
    ghost use Rattle.page_links.specs.Rewriting.{InOneForm};

    ghost Value = { InOneForm P };

    ghost view = { λ one. record { changes = one.changes.now; form = one.form } };
}

impl<'a, P: PageChange> InForm<'a, P> {
    pub(crate) fn new(changes: &'a P, form: ValueForm) -> Self
        ensures { result ≡ record { changes = changes.now; form = form } }
    {
        InForm { changes, form }
    }
}

impl<'a, P: PageChange> Change for InForm<'a, P> {
    ghost becomes = { λ one. P.becomes one.changes one.form };

    fn change(&self, text: &str) -> Result<Option<String>, AllocError> {
        self.changes.change(self.form, text)
    }
}
