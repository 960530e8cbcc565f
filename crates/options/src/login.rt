//! User and password in a START (URL Standard, section 4.4; RFC 7617).
ghost use Rattle.std.specs.Prelude.{◌≡◌, Err, IfOk, MatchOption, None, Ok, map, string_bytes};
ghost use Rattle.percent_encoding.specs.Percent as percent;
ghost use Rattle.url.specs.Parser.{parse_url};
ghost use Rattle.url.specs.Parts.{has_credentials};
ghost use Rattle.url.specs.declared.error.ParseError.{ParseError};
ghost use Rattle.options.specs.Start.{escaped_login, has_colon, is_short, is_web, login_in, login_of_url, plain_of_parsed, plain_url, typed, typed_login, without_login};

use crate::start::with_scheme;
use address::MAX_ADDRESS;
use percent_encoding::percent_decode;
use requests::Login;
use std::alloc::{AllocError, Global};
use url::{ParseError, Position, Url, quirks};

/// Whether a text has a colon, which ends a user name.
pub(crate) fn has_colon(user: &[u8]) -> bool
    ensures { result ≡ has_colon user.now }
{
    user.iter().any(|byte| *byte == b':')
}

fn is_web(scheme: &str) -> bool
    ensures { result ≡ is_web scheme.now }
{
    scheme == "http" || scheme == "https"
}

fn has_credentials(url: &Url) -> bool
    ensures { result ≡ has_credentials url.now }
{
    !url.username().is_empty() || !quirks::password(url).is_empty()
}

// A text without its escapes.
fn decoded(alloc: Global, text: &str) -> Result<Vec<u8>, AllocError>
    ensures { IfOk result (λ bytes. bytes.items ≡ percent.percent_decode text.now) }
{
    let mut bytes = Vec::new(alloc);
    percent_decode(text.as_bytes()).append_to(&mut bytes)?;
    Ok(bytes)
}

// The credentials for a user and a password that may have escapes, if they can be sent.
fn escaped_login(alloc: Global, user: &str, password: &str) -> Result<Option<Login>, AllocError>
    ensures { IfOk result (λ login. login ≡ escaped_login user.now password.now) }
{
    let user = decoded(alloc, user)?;
    let password = decoded(alloc, password)?;
    if has_colon(user.as_slice()) {
        return Ok(None);
    }
    Login::of(alloc, user.as_slice(), password.as_slice())
}

// The credentials of a URL, if it has any that can be sent.
fn login_of_url(alloc: Global, url: &Url) -> Result<Option<Login>, AllocError>
    ensures { IfOk result (λ login. login ≡ login_of_url url.now) }
{
    if is_web(url.scheme()) && has_credentials(url) {
        escaped_login(alloc, url.username(), quirks::password(url))
    } else {
        Ok(None)
    }
}

// What the parser makes of a text, if that is a URL.
fn parsed(alloc: Global, text: &str) -> Result<Option<Url>, AllocError>
    ensures { IfOk result (λ parsed. MatchOption parsed ((e : ParseError) × (parse_url None text.now ≡ Err e)) (λ url. parse_url None text.now ≡ Ok url)) }
{
    match Url::parse(alloc, text) {
        Ok(url) => Ok(Some(url)),
        Err(ParseError::OutOfMemory | ParseError::Overflow) => Err(AllocError),
        Err(_) => Ok(None),
    }
}

// The text of a URL without user and password.
fn plain_url(alloc: Global, url: &Url) -> Result<String, AllocError>
    ensures { IfOk result (λ text. string_bytes text ≡ plain_url url.now) }
{
    let scheme = url.scheme();
    let rest = url.slice(Position::BeforeHost, Position::AfterFragment);
    format!(in alloc; "{scheme}://{rest}")
}

// Whether a text isn't longer than an address may be.
fn is_short(text: &str) -> bool
    ensures { result ≡ is_short text.now }
{
    text.len() <= MAX_ADDRESS
}

// The credentials of a START with its scheme.
#[tactic(auto, using(crate::proofs::LoginLemmas::login_long, crate::proofs::LoginLemmas::login_url, crate::proofs::LoginLemmas::login_none))]
fn login_in(alloc: Global, text: &str) -> Result<Option<Login>, AllocError>
    ensures { IfOk result (λ login. login ≡ login_in text.now) }
{
    if !is_short(text) {
        return Ok(None);
    }
    match parsed(alloc, text)? {
        Some(url) => login_of_url(alloc, &url),
        None => Ok(None),
    }
}

// A START with its scheme, without user and password.
#[tactic(auto, using(crate::proofs::LoginLemmas::plain_long, crate::proofs::LoginLemmas::plain_url, crate::proofs::LoginLemmas::plain_none))]
fn without_login(alloc: Global, text: &str) -> Result<String, AllocError>
    ensures { IfOk result (λ plain. string_bytes plain ≡ without_login text.now) }
{
    if !is_short(text) {
        return String::from_str(alloc, text);
    }
    match parsed(alloc, text)? {
        Some(url) => without_login_of(alloc, text, &url),
        None => String::from_str(alloc, text),
    }
}

// The text of this URL, without user and password if they can be sent.
fn without_login_of(alloc: Global, text: &str, url: &Url) -> Result<String, AllocError>
    ensures { IfOk result (λ plain. string_bytes plain ≡ plain_of_parsed text.now (Ok url.now)) }
{
    let login = login_of_url(alloc, url)?;
    if login.is_some() {
        plain_url(alloc, url)
    } else {
        String::from_str(alloc, text)
    }
}

/// A START that is typed: with its scheme, and without user and password.
pub(crate) fn typed(alloc: Global, text: &str) -> Result<String, AllocError>
    ensures { IfOk result (λ full. string_bytes full ≡ typed text.now) }
{
    let full = with_scheme(alloc, text)?;
    without_login(alloc, full.as_str())
}

/// Its credentials.
pub(crate) fn typed_login(alloc: Global, text: &str) -> Result<Option<Login>, AllocError>
    ensures { IfOk result (λ login. login ≡ typed_login text.now) }
{
    let full = with_scheme(alloc, text)?;
    login_in(alloc, full.as_str())
}

/// The credentials of these STARTs.
pub(crate) fn logins(alloc: Global, starts: &[&str]) -> Result<Vec<Option<Login>>, AllocError>
    ensures { IfOk result (λ logins. logins.items ≡ map typed_login (map (λ text. text.now) starts.now)) }
{
    let mut logins = Vec::new(alloc);
    for start in starts {
        logins.push(typed_login(alloc, start)?)?;
    }
    Ok(logins)
}
