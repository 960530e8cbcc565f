//! Domains (GNU Wget manual, section Spanning Hosts).
ghost use Rattle.std.specs.Prelude.{◌≡◌, ◌++◌, codes, nat_eq, IfOk, Err, None};
ghost use Rattle.std.specs.List.{ends_with, list_all};
ghost use Rattle.std.specs.Str.{str_to_ascii_lowercase};
ghost use Rattle.follow_filters.specs.Domains.{is_in_domain, is_domain, is_domain_byte, without_dot};

use crate::elements::ElementFault;
use std::alloc::{AllocError, Global};
use std::marker::Model;

/// A domain, such as `foo.edu`: it has the host `foo.edu` and those that end in `.foo.edu`.
#[derive(Drop)]
pub struct Domain {
    text: String,
}

// Contracts see a domain as its text, without a leading dot.
impl Model for Domain {
    ghost use Rattle.std.specs.Prelude.{List, ℕ};
    ghost use Rattle.std.specs.String.{string_bytes};

    ghost Value = { List ℕ };

    ghost view = { λ d. string_bytes d.text };
}

impl Domain {
    ghost use Rattle.follow_filters.specs.Elements.{ReadsElement};
    ghost use Rattle.follow_filters.specs.Domains.{read_domain};

    /// Reads a domain. One leading dot is taken off, and what remains is one or more letters and
    /// digits of ASCII, `-`, `_` and `.`; else `Bad`, and nothing else.
    pub fn read(alloc: Global, text: &str) -> Result<Domain, ElementFault>
        ensures reads { ReadsElement result (read_domain text.now) }
        ensures refuses { read_domain text.now ≡ None → result ≡ Err ElementFault.Bad }
    {
        let bare = without_dot(text);
        if !is_domain(bare.as_bytes()) {
            return Err(ElementFault::Bad);
        }
        Ok(Domain {
            text: String::from_str(alloc, bare)?,
        })
    }

    /// Whether the domain has the host, without regard to ASCII case.
    pub fn has(&self, host: &str) -> bool
        ensures { result ≡ is_in_domain self.now host.now }
    {
        is_at_or_below(host.as_bytes(), self.text.as_bytes())
    }

    /// The domain as it was read, without its leading dot. Takes no memory.
    pub fn as_str(&self) -> &str
        ensures { result.now ≡ self.now }
    {
        self.text.as_str()
    }

    // An equal domain.
    pub(crate) fn try_clone(&self) -> Result<Domain, AllocError>
        ensures { IfOk result (λ copy. copy ≡ self.now) }
    {
        Ok(Domain {
            text: self.text.clone()?,
        })
    }
}

// Whether the host ends in a dot and the domain.
fn is_below(host: &[u8], domain: &[u8]) -> bool
    ensures { result ≡ ends_with nat_eq (str_to_ascii_lowercase host.now) (codes "." ++ str_to_ascii_lowercase domain.now) }
{
    if host.len() <= domain.len() {
        return false;
    }
    let dot = host.len() - domain.len() - 1;
    host[dot] == b'.' && host[dot + 1..].eq_ignore_ascii_case(domain)
}

// Whether the host is the domain or ends in a dot and the domain.
fn is_at_or_below(host: &[u8], domain: &[u8]) -> bool
    ensures { result ≡ is_in_domain domain.now host.now }
{
    host.eq_ignore_ascii_case(domain) || is_below(host, domain)
}

// The text without one leading dot.
fn without_dot(text: &str) -> &str
    ensures { result.now ≡ without_dot text.now }
{
    match text.strip_prefix('.') {
        Some(bare) => bare,
        None => text,
    }
}

fn is_domain_byte(byte: u8) -> bool
    ensures { result ≡ is_domain_byte byte }
{
    byte.is_ascii_alphanumeric() || byte == b'-' || byte == b'_' || byte == b'.'
}

// Whether the text is a domain.
fn is_domain(text: &[u8]) -> bool
    ensures { result ≡ is_domain text.now }
{
    !text.is_empty() && has_domain_bytes(text)
}

fn has_domain_bytes(text: &[u8]) -> bool
    ensures { result ≡ list_all is_domain_byte text.now }
{
    text.iter().all(|byte| is_domain_byte(*byte))
}
