//! What an address asks of the URL that it holds.
ghost use Rattle.std.specs.Prelude.{◌≡◌, ◌≤◌, Ok, length, IsAscii};
ghost use Rattle.url.specs.Host.{host_text};
ghost use Rattle.url.specs.Parts.{IsValid, has_credentials, host_or_empty};
ghost use Rattle.url.specs.Parser as parser;
ghost use Rattle.address.specs.Address.{url_text_of, upgraded, read_as, without_fragment, is_too_long, dir_len};

use crate::{MAX_ADDRESS, MAX_HOST, Scheme};
use url::{ParseResult, Position, Url};

// A URL as a scheme reads it.
pub(crate) fn read_as(scheme: Scheme, url: Url) -> ParseResult<Url>
    ensures { parser.Gives result (Ok (read_as scheme url)) }
{
    match scheme {
        Scheme::Http => Ok(url),
        Scheme::Https => upgraded(url),
    }
}

// The URL with https for http.
fn upgraded(mut url: Url) -> ParseResult<Url>
    ensures { parser.Gives result (Ok (upgraded url)) }
{
    if url.scheme() == "http" {
        url.set_scheme("https")?;
    }
    Ok(url)
}

pub(crate) fn without_fragment(mut url: Url) -> ParseResult<Url>
    ensures { parser.Gives result (Ok (without_fragment url)) }
{
    if url.fragment().is_some() {
        url.set_fragment(None)?;
    }
    Ok(url)
}

pub(crate) fn has_credentials(url: &Url) -> bool
    ensures { result ≡ has_credentials url.now }
{
    !url.username().is_empty() || url.password().is_some()
}

#[tactic(auto, unfolding(crate::specs::Address::url_text_of))]
pub(crate) fn text(url: &Url) -> &str
    ensures value { result.now ≡ url_text_of url.now }
    ensures ascii { IsAscii result.now }
    ensures valid { IsValid url.now }
{
    url.as_str()
}

pub(crate) fn host(url: &Url) -> &str
    ensures value { result.now ≡ host_text (host_or_empty url.now) }
    ensures ascii { IsAscii result.now }
{
    url.slice(Position::BeforeHost, Position::AfterHost)
}

pub(crate) fn is_too_long(url: &Url) -> bool
    ensures value { result ≡ is_too_long url.now }
    ensures valid { IsValid url.now }
{
    text(url).len() > MAX_ADDRESS || host(url).len() > MAX_HOST
}

// How many bytes the path has up to and with its last slash.
pub(crate) fn dir_len(path: &str) -> usize
    ensures value { result ≡ dir_len path.now }
    ensures within { result ≤ length path.now }
{
    match path.rfind('/') {
        Some(last) => last + 1,
        None => 0,
    }
}
