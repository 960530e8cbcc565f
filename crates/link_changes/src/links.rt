//! What the links of one page become.
ghost use Rattle.std.specs.Prelude.{◌≡◌, ◌≤◌, ◌++◌, ℕ, true, List, [], IfOk, Option, Some, None, option_map, string_bytes};
ghost use Rattle.address.specs.Address.{join_address, IsAddress};
ghost use Rattle.link_changes.specs.Leading.{page_of, named, landed, landed_within, address_in, destination, at_end, fragment_of, is_left, stays};
ghost use Rattle.link_changes.specs.Changing as spec;
ghost use Rattle.link_changes.specs.Changing.{text_at, way_to, changed_text, to_other, or_same, LeadsTo, IsMirror, holds_all, can_hold};

use crate::form::{Form, fits};
use crate::fragment::{begins_mark, is_own, push_fragment};
use crate::mirror::Mirror;
use crate::whole::is_whole;
use address::{Address, AddressFault};
use css_links::Change;
use std::alloc::{AllocError, Global};
use std::marker::Model;

/// The most redirects that are followed from a link: as many as browsers follow (Fetch Standard, section 4.4). A longer chain, or
/// a circle, is taken for an address of which nothing was kept.
pub const MAX_REDIRECTS: usize = 20;

/// What the links of a page become that are written in one form.
pub struct Links<'a, M: Mirror> {
    alloc: Global,
    mirror: &'a M,
    file: &'a str,
    base: &'a Address,
    form: Form,
}

impl<'a, M: Mirror> Drop for Links<'a, M> {
    fn drop(self) {
        let Links {
            alloc: _alloc,
            mirror: _mirror,
            file: _file,
            base: _base,
            form: _form,
        } = self;
    }
}

// Contracts see the page, and what the run kept.
impl<'a, M: Mirror> Model for Links<'a, M> {
    ghost use Rattle.link_changes.specs.Leading.{Linked};

    ghost Value = { Linked M };

    ghost view = { λ links. record { file = links.file.now; base = links.base.now; form = links.form; mirror = links.mirror.now } };
}

impl<'a, M: Mirror> Links<'a, M> {
    /// The links of the page that is kept as this file of the mirror, joined to this base, as they are written in that form. Takes no
    /// memory.
    pub fn new(
        alloc: Global,
        mirror: &'a M,
        file: &'a str,
        base: &'a Address,
        form: Form,
    ) -> Links<'a, M>
        ensures { result ≡ record { file = file.now; base = base.now; form = form; mirror = mirror.now } }
    {
        Links {
            alloc,
            mirror,
            file,
            base,
            form,
        }
    }

    // The local name of what was kept of an address, or of where its redirects lead, of which so many are followed less one.
    fn landed_within(&self, most: usize, address: &Address) -> Option<&str>
        ensures { option_map (λ name. name.now) result ≡ landed_within most (page_of M.name_of M.target_of self.now) address.now }
    {
        if most == 0 {
            return None;
        }
        if let Some(name) = self.mirror.name(address) {
            return Some(name);
        }
        match self.mirror.target(address) {
            Some(target) => self.landed_within(most - 1, target),
            None => None,
        }
    }

    // The same, of as many as are followed.
    #[tactic(auto, unfolding(crate::specs::Leading::landed))]
    fn landed(&self, address: &Address) -> Option<&str>
        ensures { option_map (λ name. name.now) result ≡ landed (page_of M.name_of M.target_of self.now) address.now }
    {
        self.landed_within(MAX_REDIRECTS + 1, address)
    }

    // The way to a file. There is none from a reference of the own file to a part of it.
    fn way_to(&self, text: &str, name: &str) -> Result<String, AllocError>
        ensures { IfOk result (λ way. string_bytes way ≡ way_to (page_of M.name_of M.target_of self.now) text.now name.now) }
    {
        if is_own(text.as_bytes()) && name == self.file {
            return Ok(String::new(self.alloc));
        }
        local_links::relative(self.alloc, self.file, name)
    }

    // What a link is without its fragment that leads to an address.
    fn front(&self, text: &str, address: &Address) -> Result<String, AllocError>
        ensures is { IsAddress address.now }
        ensures front { IfOk result (λ front. string_bytes front ++ fragment_of text.now ≡ text_at (page_of M.name_of M.target_of self.now) text.now (at_end (landed (page_of M.name_of M.target_of self.now) address.now) address.now (fragment_of text.now))) }
    {
        let whole = address.as_str();
        match self.landed(address) {
            Some(name) => self.way_to(text, name),
            None => String::from_str(self.alloc, whole),
        }
    }

    // What is written for a link that leads to an address.
    fn text(&self, text: &str, address: &Address) -> Result<String, AllocError>
        ensures is { IsAddress address.now }
        ensures text { IfOk result (λ new. string_bytes new ≡ text_at (page_of M.name_of M.target_of self.now) text.now (at_end (landed (page_of M.name_of M.target_of self.now) address.now) address.now (fragment_of text.now))) }
    {
        let mut new = self.front(text, address)?;
        push_fragment(&mut new, text)?;
        Ok(new)
    }

    // The text that is written, if it is another and the form can hold it.
    fn other(&self, text: &str, new: String) -> Option<String>
        ensures { option_map string_bytes result ≡ to_other self.now.form text.now (string_bytes new) }
    {
        if new.as_str() == text || !fits(self.form, new.as_bytes()) {
            return None;
        }
        Some(new)
    }

    // The address that a text names.
    fn named(&self, text: &str) -> Result<Option<Address>, AllocError>
        ensures { IfOk result (λ address. address ≡ named (join_address self.now.base text.now)) }
    {
        match self.base.join(text) {
            Ok(address) => Ok(Some(address)),
            Err(AddressFault::Memory) => Err(AllocError),
            Err(_) => Ok(None),
        }
    }

    // Whether a text stays that names this address: it has a host of its own, and nothing was kept of the address.
    fn stays(&self, text: &str, address: &Address) -> bool
        ensures { result ≡ stays (page_of M.name_of M.target_of self.now) text.now address.now }
    {
        is_whole(text.as_bytes()) && self.landed(address).is_none()
    }

    // The address that a text names, if the text may change.
    fn address_in(&self, text: &str) -> Result<Option<Address>, AllocError>
        ensures { IfOk result (λ address. address ≡ address_in (page_of M.name_of M.target_of self.now) text.now) }
    {
        if is_left(self.form, text) {
            return Ok(None);
        }
        match self.named(text)? {
            Some(address) => {
                if self.stays(text, &address) {
                    Ok(None)
                } else {
                    Ok(Some(address))
                }
            },
            None => Ok(None),
        }
    }

    /// What a link of that text becomes; nothing, if it stays. Its time is that of [`Address::join`], of at most [`MAX_REDIRECTS`]
    /// looks into the mirror, and linear in the texts. The error is out of memory.
    pub fn becomes(&self, text: &str) -> Result<Option<String>, AllocError>
        ensures value { IfOk result (λ new. option_map string_bytes new ≡ spec.becomes (page_of M.name_of M.target_of self.now) text.now) }

        // From the file the new text leads to where the old one led from the page.
        ensures leads { IsMirror (page_of M.name_of M.target_of self.now) → can_hold (page_of M.name_of M.target_of self.now) text.now ≡ true → IfOk result (λ new. LeadsTo self.now.file (destination (page_of M.name_of M.target_of self.now) text.now) (or_same (option_map string_bytes new) text.now)) }

        // Values and sheets can hold it; sets and refreshes unless it is one of a few.
        ensures held { IsMirror (page_of M.name_of M.target_of self.now) → holds_all self.now.form ≡ true → IfOk result (λ new. can_hold (page_of M.name_of M.target_of self.now) text.now ≡ true) }
    {
        match self.address_in(text)? {
            Some(address) => {
                let new = self.text(text, &address)?;
                Ok(self.other(text, new))
            },
            None => Ok(None),
        }
    }
}

// Whether a text stays in a form for what it is: in a sheet `#a` is of the document, whatever the base is (CSS Values Level 4).
fn is_left(form: Form, text: &str) -> bool
    ensures { result ≡ is_left form text.now }
{
    form == Form::Sheet && begins_mark(text.as_bytes())
}

impl<'a, M: Mirror> Change for Links<'a, M> {
    ghost becomes = { λ links. spec.becomes (page_of M.name_of M.target_of links) };

    fn change(&self, text: &str) -> Result<Option<String>, AllocError> {
        self.becomes(text)
    }
}
