//! Cookies, and where they go (RFC 6265, sections 5.1.3, 5.1.4 and 5.4).
ghost use Rattle.std.specs.Prelude.{◌≡◌, ◌++◌, IfOk, None, OnOk, length, map, option_and_then, option_map};
ghost use Rattle.std.specs.Char.{to_ascii_lowercase};
ghost use Rattle.std.specs.Option.{option_map_or};
ghost use Rattle.cookie_files.specs.Lines.{cookie_of, fault_of, number_in, port_number};
ghost use Rattle.cookie_files.specs.Jars.{is_same_port, replaces};
ghost use Rattle.cookie_files.specs.Matches.{IsClean, goes, pair_of};
ghost use Rattle.cookie_files.specs.inner.AskedView.{asked_value};
ghost use Rattle.cookie_files.specs.inner.FieldsView.{fields_value};

use crate::fields::{CookieFields, is_true, number_in, place_in, port_number};
use crate::matching::{Asked, domain_matches, is_alive, is_safe, path_matches, port_matches};
use std::alloc::{AllocError, Global};
use std::marker::Model;

/// A cookie of a file.
#[derive(Drop)]
pub(crate) struct Cookie {
    host: Vec<u8>,
    port: Option<u16>,
    subdomains: bool,
    path: Vec<u8>,
    secure: bool,
    expiry: u64,
    name: Vec<u8>,
    value: Vec<u8>,
}

// Contracts see a cookie as what its line says.
impl Model for Cookie {
    ghost use Rattle.std.specs.Prelude.{◌≡◌, false};
    ghost use Rattle.std.specs.List.{list_any};
    ghost use Rattle.cookie_files.specs.Lines.{Cookie, is_bad, is_bad_in_name};

    ghost Value = { Cookie };

    ghost view = { λ c. record { host = c.host.items; port = c.port; subdomains = c.subdomains; path = c.path.items; secure = c.secure; expiry = c.expiry; name = c.name.items; value = c.value.items } };

    // What ends a field of a request, or a pair, is in no name and in no value.
    ghost invariant = { λ c. (list_any is_bad_in_name c.name.items ≡ false) × (list_any is_bad c.value.items ≡ false) };
}

// The text in lower case.
fn in_lower_case(alloc: Global, text: &[u8]) -> Result<Vec<u8>, AllocError>
    ensures { IfOk result (λ lower. lower.items ≡ map to_ascii_lowercase text.now) }
{
    let mut lower = Vec::with_capacity(alloc, text.len())?;
    for byte in text {
        lower.push(byte.to_ascii_lowercase())?;
    }
    Ok(lower)
}

// The number of a port, if there is one.
fn port_by(text: Option<&[u8]>) -> Option<u16>
    ensures { result ≡ option_and_then port_number (option_map (λ port. port.now) text.entry) }
{
    match text {
        Some(text) => port_number(text),
        None => None,
    }
}

// The number, or zero.
fn number_by(text: &[u8]) -> u64
    ensures { result ≡ option_map_or (λ n. n) (number_in text.now) 0 }
{
    number_in(text).unwrap_or(0)
}

// Whether both are of the same port, or of any.
fn is_same_port(one: Option<u16>, other: Option<u16>) -> bool
    ensures { result ≡ is_same_port one other }
{
    match (one, other) {
        (None, None) => true,
        (Some(one), Some(other)) => one == other,
        (None, Some(_)) | (Some(_), None) => false,
    }
}

impl Cookie {
    /// The cookie that the fields say.
    #[tactic(auto, unfolding(crate::specs::Lines::cookie_of))]
    pub(crate) fn of(alloc: Global, fields: &CookieFields<'_>) -> Result<Cookie, AllocError>
        requires { fault_of (fields_value fields.now) ≡ None }
        ensures { IfOk result (λ cookie. cookie ≡ cookie_of (fields_value fields.now)) }
    {
        let (host, port) = place_in(fields.domain);
        Ok(Cookie {
            host: in_lower_case(alloc, host)?,
            port: port_by(port),
            subdomains: is_true(fields.subdomains),
            path: Vec::from_slice(alloc, fields.path)?,
            secure: is_true(fields.secure),
            expiry: number_by(fields.expiry),
            name: Vec::from_slice(alloc, fields.name)?,
            value: Vec::from_slice(alloc, fields.value)?,
        })
    }

    /// How long the path is.
    pub(crate) fn path_len(&self) -> usize
        ensures { result ≡ length self.now.path }
    {
        self.path.len()
    }

    /// Whether this, as a later cookie, takes the place of the other.
    #[tactic(auto, unfolding(crate::specs::Jars::replaces))]
    pub(crate) fn replaces(&self, other: &Cookie) -> bool
        ensures { result ≡ replaces self.now other.now }
    {
        self.name.as_slice() == other.name.as_slice()
            && self.host.as_slice() == other.host.as_slice()
            && self.path.as_slice() == other.path.as_slice()
            && is_same_port(self.port, other.port)
    }

    /// Whether the cookie goes there at this time.
    #[tactic(auto, unfolding(crate::specs::Matches::goes))]
    pub(crate) fn goes(&self, asked: &Asked<'_>, now: u64) -> bool
        ensures { result ≡ goes (asked_value asked.now) now self.now }
    {
        domain_matches(self.subdomains, self.host.as_slice(), asked.host)
            && (path_matches(self.path.as_slice(), asked.path)
                && (port_matches(self.port, asked.port)
                    && (is_safe(self.secure, asked.by) && is_alive(self.expiry, now))))
    }

    /// Adds name and value.
    #[tactic(auto, unfolding(crate::specs::Matches::pair_of))]
    pub(crate) fn push_pair(&self, text: &mut Vec<u8>) -> Result<(), AllocError>
        ensures pair { OnOk result (text.new.items ≡ text.old.items ++ pair_of self.now) }
        ensures clean { IsClean text.old.items → OnOk result (IsClean text.new.items) }
    {
        text.extend_from_slice(self.name.as_slice())?;
        text.push(b'=')?;
        text.extend_from_slice(self.value.as_slice())?;
        Ok(())
    }
}
