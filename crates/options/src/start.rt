//! START as it is typed: `http://` is put before what has no scheme.
ghost use Rattle.std.specs.Prelude.{◌≡◌, IfOk, string_bytes};
ghost use Rattle.std.specs.Char.{is_ascii_digit};
ghost use Rattle.std.specs.List.{list_all};
ghost use Rattle.options.specs.Start.{are_digits, before_fragment, before_path, before_query, is_bare, is_pair, lacks_scheme, with_scheme};

use std::alloc::{AllocError, Global};

// What is before a path.
fn before_path(text: &str) -> &str
    ensures { result.now ≡ before_path text.entry.now }
{
    match text.split_once('/') {
        Some((before, _)) => before,
        None => text,
    }
}

// What is before a query.
fn before_query(text: &str) -> &str
    ensures { result.now ≡ before_query text.entry.now }
{
    match text.split_once('?') {
        Some((before, _)) => before,
        None => text,
    }
}

// What is before a fragment.
fn before_fragment(text: &str) -> &str
    ensures { result.now ≡ before_fragment text.entry.now }
{
    match text.split_once('#') {
        Some((before, _)) => before,
        None => text,
    }
}

// Whether each byte is a digit.
fn has_digits(text: &[u8]) -> bool
    ensures { result ≡ list_all is_ascii_digit text.now }
{
    text.iter().all(|byte| byte.is_ascii_digit())
}

// Whether these are digits, one at least.
fn are_digits(text: &str) -> bool
    ensures { result ≡ are_digits text.now }
{
    !text.is_empty() && has_digits(text.as_bytes())
}

// Whether these are a host and its port.
fn is_pair(host: &str, port: &str) -> bool
    ensures { result ≡ is_pair host.now port.now }
{
    !host.is_empty() && are_digits(port)
}

// Whether this is a host, or one with a port.
fn is_bare(front: &str) -> bool
    ensures { result ≡ is_bare front.now }
{
    match front.split_once(':') {
        Some((host, port)) => is_pair(host, port),
        None => !front.is_empty(),
    }
}

// Whether `http://` is put before a START.
fn lacks_scheme(text: &str) -> bool
    ensures { result ≡ lacks_scheme text.now }
{
    is_bare(before_fragment(before_query(before_path(text))))
}

/// A START with its scheme, which is `http` if it has none.
#[tactic(auto, unfolding(crate::specs::Start::with_scheme))]
pub fn with_scheme(alloc: Global, text: &str) -> Result<String, AllocError>
    ensures { IfOk result (λ full. string_bytes full ≡ with_scheme text.now) }
{
    if lacks_scheme(text) {
        format!(in alloc; "http://{text}")
    } else {
        String::from_str(alloc, text)
    }
}
