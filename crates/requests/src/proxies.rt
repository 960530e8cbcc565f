//! Proxies, and which of them is used for an address (GNU Wget manual, chapter Proxies).
ghost use Rattle.std.specs.Prelude.{◌≡◌, IfOk, None, option_map};
ghost use Rattle.std.specs.List.{list_any, slice_split};
ghost use Rattle.requests.specs.Lines.{trimmed};
ghost use Rattle.requests.specs.Proxies.{begins_after, ends_label, has_suffix, is_comma, is_without, no_proxies, proxies_of, proxy_for, proxy_of, unless_without};

use crate::login::{Login, copy_of};
use address::{Origin, Scheme};
use std::alloc::{AllocError, Global};
use std::marker::Model;

/// A proxy, and the credentials that go to it alone.
#[derive(Drop)]
pub struct Proxy {
    origin: Origin,
    login: Option<Login>,
}

impl Model for Proxy {
    ghost use Rattle.requests.specs.Proxies.{Proxy};

    ghost Value = { Proxy };

    ghost view = { λ p. record { origin = p.origin; login = p.login } };
}

impl Proxy {
    /// At this origin, with these credentials. Takes no memory.
    pub fn new(origin: Origin, login: Option<Login>) -> Proxy
        ensures { result ≡ record { origin = origin; login = login } }
    {
        Proxy { origin, login }
    }

    /// Its origin.
    pub fn origin(&self) -> &Origin
        ensures { result.now ≡ self.entry.now.origin }
    {
        &self.origin
    }

    // The credentials for it, if there are any.
    pub(crate) fn login(&self) -> Option<&Login>
        ensures { option_map (λ l. l.now) result ≡ self.entry.now.login }
    {
        match &self.login {
            Some(login) => Some(login),
            None => None,
        }
    }

    // The same once more.
    fn try_clone(&self) -> Result<Proxy, AllocError>
        ensures { IfOk result (λ copy. copy ≡ self.now) }
    {
        Ok(Proxy {
            origin: self.origin.try_clone()?,
            login: copy_of(&self.login)?,
        })
    }
}

// The same proxy once more, if there is one.
fn copy_of_proxy(proxy: &Option<Proxy>) -> Result<Option<Proxy>, AllocError>
    ensures { IfOk result (λ copy. copy ≡ proxy.now) }
{
    match proxy {
        Some(proxy) => Ok(Some(proxy.try_clone()?)),
        None => Ok(None),
    }
}

// Nothing, or what ends in a dot.
fn ends_label(front: &[u8]) -> bool
    ensures { result ≡ ends_label front.now }
{
    front.is_empty() || front.ends_with(b".")
}

// Whether a suffix begins after this front of a host: between labels, unless it brings the dot.
fn begins_after(front: &[u8], suffix: &[u8]) -> bool
    ensures { result ≡ begins_after front.now suffix.now }
{
    ends_label(front) || suffix.starts_with(b".")
}

// Whether a host is the suffix, or is below it.
#[tactic(auto, unfolding(crate::specs::Proxies::has_suffix))]
fn has_suffix(host: &[u8], suffix: &[u8]) -> bool
    ensures { result ≡ has_suffix host.now suffix.now }
{
    !suffix.is_empty()
        && host.ends_with(suffix)
        && begins_after(&host[..host.len() - suffix.len()], suffix)
}

// An element of the list, without white space at its ends.
fn trimmed(element: &[u8]) -> &[u8]
    ensures { result.now ≡ trimmed element.now }
{
    element.trim_ascii()
}

// Whether an element of the list is a suffix of the host.
fn is_without(list: &[u8], host: &[u8]) -> bool
    ensures { result ≡ is_without list.now host.now }
{
    list.split(|byte| *byte == b',')
        .any(|element| has_suffix(host, trimmed(element)))
}

/// The proxies of a run: one for https and one for http, and which hosts are requested without one.
pub struct Proxies {
    https: Option<Proxy>,
    http: Option<Proxy>,
    // In lower case, as hosts are.
    without: String,
}

// Written by hand to keep proofs short: a derived one is proved anew by every user.
impl Drop for Proxies {
    fn drop(self) {
        let Proxies {
            https: _https,
            http: _http,
            without: _without,
        } = self;
    }
}

impl Model for Proxies {
    ghost use Rattle.std.specs.String.{string_bytes};
    ghost use Rattle.requests.specs.Proxies.{Proxies};

    ghost Value = { Proxies };

    ghost view = { λ p. record { https = p.https; http = p.http; without = string_bytes p.without } };
}

impl Proxies {
    /// None. Takes no memory.
    pub fn none(alloc: Global) -> Proxies
        ensures { result ≡ no_proxies }
    {
        Proxies {
            https: None,
            http: None,
            without: String::new(alloc),
        }
    }

    /// These, except for the hosts in a list of suffixes, such as `example.org,.test`.
    pub fn new(
        alloc: Global,
        https: Option<Proxy>,
        http: Option<Proxy>,
        without: &str,
    ) -> Result<Proxies, AllocError>
        ensures { IfOk result (λ proxies. proxies ≡ proxies_of https http without.now) }
    {
        let without = without.to_ascii_lowercase(alloc)?;
        Ok(Proxies {
            https,
            http,
            without,
        })
    }

    /// The proxy for https, if there is one. Takes no memory.
    pub fn https(&self) -> Option<&Proxy>
        ensures { option_map (λ p. p.now) result ≡ self.entry.now.https }
    {
        match &self.https {
            Some(proxy) => Some(proxy),
            None => None,
        }
    }

    // The proxy for a scheme.
    fn of(&self, scheme: Scheme) -> Option<&Proxy>
        ensures { option_map (λ p. p.now) result ≡ proxy_of self.entry.now scheme }
    {
        match scheme {
            Scheme::Http => match &self.http {
                Some(proxy) => Some(proxy),
                None => None,
            },
            Scheme::Https => self.https(),
        }
    }

    /// The proxy for a host of this scheme, if one is asked. Takes no memory.
    #[tactic(auto, unfolding(crate::specs::Proxies::proxy_for))]
    pub fn proxy_for(&self, scheme: Scheme, host: &str) -> Option<&Proxy>
        ensures { option_map (λ p. p.now) result ≡ proxy_for self.entry.now scheme host.now }
    {
        let proxy = self.of(scheme)?;
        if is_without(self.without.as_str().as_bytes(), host.as_bytes()) {
            None
        } else {
            Some(proxy)
        }
    }

    /// The same once more.
    pub fn try_clone(&self) -> Result<Proxies, AllocError>
        ensures { IfOk result (λ copy. copy ≡ self.now) }
    {
        Ok(Proxies {
            https: copy_of_proxy(&self.https)?,
            http: copy_of_proxy(&self.http)?,
            without: self.without.clone()?,
        })
    }
}
