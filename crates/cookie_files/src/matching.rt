//! Which cookies go to which address (RFC 6265, sections 5.1.3, 5.1.4 and 5.4).
ghost use Rattle.std.specs.Prelude.{◌≡◌};
ghost use Rattle.std.specs.List.{list_all};
ghost use Rattle.cookie_files.specs.Matches.{asked_of, domain_matches, is_alive, is_below, is_ip_address, is_number_byte, is_safe, path_matches, path_of, port_matches};
ghost use Rattle.cookie_files.specs.inner.AskedView.{asked_value};

use crate::fields::{cut, is_bracketed};
use address::{Address, Scheme};

/// What of an address decides.
#[derive(Clone, Copy)]
pub(crate) struct Asked<'a> {
    pub(crate) host: &'a [u8],
    pub(crate) path: &'a [u8],
    pub(crate) port: u16,
    pub(crate) by: Scheme,
}

// The path of an address, without its query.
#[tactic(auto, unfolding(crate::specs::Matches::path_of))]
fn path_of(at: &Address) -> &[u8]
    ensures { result.now ≡ path_of at.now }
{
    let asked = at.path_query().as_bytes();
    match cut(b'?', asked) {
        Some((path, _)) => path,
        None => asked,
    }
}

/// What of an address decides.
pub(crate) fn asked_of(at: &Address) -> Asked<'_>
    ensures { asked_value result ≡ asked_of at.now }
{
    Asked {
        host: at.host().as_bytes(),
        path: path_of(at),
        port: at.port(),
        by: at.scheme(),
    }
}

fn is_number_byte(byte: u8) -> bool
    ensures { result ≡ is_number_byte byte }
{
    byte.is_ascii_digit() || byte == b'.'
}

fn has_number_bytes(host: &[u8]) -> bool
    ensures { result ≡ list_all is_number_byte host.now }
{
    host.iter().all(|byte| is_number_byte(*byte))
}

// Whether a host is an IP address.
fn is_ip_address(host: &[u8]) -> bool
    ensures { result ≡ is_ip_address host.now }
{
    is_bracketed(host) || has_number_bytes(host)
}

// Whether a host ends in a dot and this domain.
#[tactic(auto, unfolding(crate::specs::Matches::is_below))]
fn is_below(domain: &[u8], host: &[u8]) -> bool
    ensures { result ≡ is_below domain.now host.now }
{
    host.ends_with(domain) && host[..host.len() - domain.len()].ends_with(b".")
}

/// Whether a cookie of this domain goes to the host.
#[tactic(auto, unfolding(crate::specs::Matches::domain_matches))]
pub(crate) fn domain_matches(subdomains: bool, domain: &[u8], host: &[u8]) -> bool
    ensures { result ≡ domain_matches subdomains domain.now host.now }
{
    host == domain || subdomains && (is_below(domain, host) && !is_ip_address(host))
}

/// Whether a cookie of this path goes to what is requested.
#[tactic(auto, unfolding(crate::specs::Matches::path_matches))]
pub(crate) fn path_matches(path: &[u8], asked: &[u8]) -> bool
    ensures { result ≡ path_matches path.now asked.now }
{
    asked == path
        || asked.starts_with(path)
            && (path.ends_with(b"/") || asked[path.len()..].starts_with(b"/"))
}

/// Whether a cookie of this port goes there.
#[tactic(auto, unfolding(crate::specs::Matches::port_matches))]
pub(crate) fn port_matches(port: Option<u16>, asked: u16) -> bool
    ensures { result ≡ port_matches port asked }
{
    match port {
        Some(port) => port == asked,
        None => true,
    }
}

/// Whether a cookie goes by this scheme, if it is for https alone or isn't.
#[tactic(auto, unfolding(crate::specs::Matches::is_safe))]
pub(crate) fn is_safe(secure: bool, by: Scheme) -> bool
    ensures { result ≡ is_safe secure by }
{
    match by {
        Scheme::Https => true,
        Scheme::Http => !secure,
    }
}

/// Whether a cookie of this expiry isn't past.
#[tactic(auto, unfolding(crate::specs::Matches::is_alive))]
pub(crate) fn is_alive(expiry: u64, now: u64) -> bool
    ensures { result ≡ is_alive expiry now }
{
    expiry == 0 || now <= expiry
}
