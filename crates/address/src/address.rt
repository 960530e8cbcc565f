//! Addresses: http and https URLs without user name, password and fragment (URL Standard, section 4.1).
ghost use Rattle.std.specs.Prelude.{◌≡◌, ◌<◌, IsAscii, IfOk, MatchResult, Ok, Err, length, unwrap_or};
ghost use Rattle.address.specs.declared.fault.AddressFault.TheVariants.{TooLong, Memory};
ghost use Rattle.address.specs.Address.{Gives, url_text_of, address_of, read_as, scheme_of, scheme_port, is_robots_file, IsAddress, IsOrigin, read_address, read_address_as, read_either, join_address, origin_of, host_of, port_of, authority_of, dir_of, file_of, path_query_of};
ghost use Rattle.address.specs.Layout.{IsHttp};

use crate::{AddressFault, Scheme, http_url};
use std::alloc::{AllocError, Global};
use std::marker::Model;
use std::sync::Arc;
use url::{Position, Url};

/// The most bytes of a text that is read, and of an address.
pub const MAX_ADDRESS: usize = 8192;

/// The most bytes of an address's host. With it, each origin's `/robots.txt` is an address too.
pub const MAX_HOST: usize = 255;

/// An http or https URL without user name, password and fragment, of at most [`MAX_ADDRESS`] bytes, its host
/// of at most [`MAX_HOST`]. Equality, order and hash are those of its text, by bytes.
///
/// Copies share one URL, so that a copy takes no memory. Threads may share an address.
pub struct Address {
    // Nothing writes to the URL once it is shared.
    url: Arc<Url>,
    // For what is joined. It has no size.
    alloc: Global,
}

// By hand: who drops one proves a call, and nothing of what it holds.
impl Drop for Address {
    fn drop(self) {
        let Address {
            url: _url,
            alloc: _alloc,
        } = self;
    }
}

// Contracts see an address as its text.
impl Model for Address {
    ghost use Rattle.std.specs.Arc.{arc_value};
    ghost use Rattle.address.specs.Address.{AddressText, url_text_of};
    ghost use Rattle.address.specs.Layout.{IsHttp};

    ghost Value = { AddressText };

    ghost view = { λ a. url_text_of (arc_value a.url) };

    ghost invariant = { λ a. IsHttp (arc_value a.url) };
}

impl Address {
    /// Reads an absolute URL, such as `http://h:81/a?b`; a fragment is dropped (URL Standard, section 4.4).
    /// [`AddressFault`] has the condition of each refusal.
    pub fn read(alloc: Global, text: &str) -> Result<Address, AddressFault>
        ensures value { Gives result (read_address text.now) }
        ensures long { MAX_ADDRESS < length text.now → result ≡ Err TooLong }
    {
        Address::read_as(alloc, Scheme::Http, text)
    }

    /// The same, as a scheme reads it: of http https is refused, of https http is read as https
    /// (W3C, Upgrade Insecure Requests, section 3.2).
    pub fn read_as(alloc: Global, scheme: Scheme, text: &str) -> Result<Address, AddressFault>
        ensures value { Gives result (read_address_as scheme text.now) }
        ensures long { MAX_ADDRESS < length text.now → result ≡ Err TooLong }
    {
        if text.len() > MAX_ADDRESS {
            return Err(AddressFault::TooLong);
        }
        Address::from_url(alloc, scheme, Url::parse(alloc, text)?)
    }

    /// Reads an absolute URL, http or https, as it is written. [`AddressFault`] has the condition of each refusal.
    pub fn read_either(alloc: Global, text: &str) -> Result<Address, AddressFault>
        ensures value { Gives result (read_either text.now) }
    {
        match Address::read(alloc, text) {
            Err(AddressFault::NotHttp) => Address::read_as(alloc, Scheme::Https, text),
            other => other,
        }
    }

    /// Reads a URL, such as `../a?b`, with this address as its base and as its scheme reads it; a fragment
    /// is dropped (URL Standard, section 4.4). [`AddressFault`] has the condition of each refusal.
    pub fn join(&self, link: &str) -> Result<Address, AddressFault>
        ensures value { Gives result (join_address self.now link.now) }
        ensures long { MAX_ADDRESS < length link.now → result ≡ Err TooLong }
    {
        if link.len() > MAX_ADDRESS {
            return Err(AddressFault::TooLong);
        }
        Address::from_url(self.alloc, self.scheme(), self.url().join(link)?)
    }

    // The address of a URL, as a scheme reads it.
    fn from_url(alloc: Global, scheme: Scheme, url: Url) -> Result<Address, AddressFault>
        ensures { Gives result (address_of scheme (read_as scheme url)) }
    {
        Address::of_scheme(alloc, scheme, http_url::read_as(scheme, url)?)
    }

    // The address of a URL of this scheme.
    fn of_scheme(alloc: Global, scheme: Scheme, url: Url) -> Result<Address, AddressFault>
        ensures { Gives result (address_of scheme url) }
    {
        if url.scheme() != scheme.as_str() {
            return Err(AddressFault::NotHttp);
        }
        if http_url::has_credentials(&url) {
            return Err(AddressFault::UserInfo);
        }
        let url = http_url::without_fragment(url)?;
        if http_url::is_too_long(&url) {
            return Err(AddressFault::TooLong);
        }
        Address::sharing(alloc, url)
    }

    // The address of a URL that keeps the rules. Fails only if memory runs out.
    fn sharing(alloc: Global, url: Url) -> Result<Address, AddressFault>
        requires { IsHttp url }
        ensures { MatchResult result (λ address. address ≡ url_text_of url) (λ fault. fault ≡ Memory) }
    {
        match Arc::new(alloc, url) {
            Ok(url) => Ok(Address { url, alloc }),
            Err(_) => Err(AddressFault::Memory),
        }
    }

    // The URL that this address and its copies share.
    fn url(&self) -> &Url
        ensures text { url_text_of result.now ≡ self.now }
        ensures http { IsHttp result.now }
    {
        &*self.url
    }

    // `join` of a path that every address can be joined with: it fails only if memory runs out.
    pub(crate) fn join_path(&self, path: &str) -> Result<Address, AllocError>
        ensures { IfOk result (λ address. join_address self.now path.now ≡ Ok address) }
    {
        match self.join(path) {
            Ok(address) => Ok(address),
            Err(_) => Err(AllocError),
        }
    }

    /// An equal address, which shares the URL of this one. Takes no memory; the error is that 2^63
    /// copies are there.
    pub fn try_clone(&self) -> Result<Address, AllocError>
        ensures { IfOk result (λ copy. copy ≡ self.now) }
    {
        Ok(Address {
            url: Arc::try_clone(&self.url)?,
            alloc: self.alloc,
        })
    }

    /// The text of the address, such as `http://h:81/a?b`. Reading it gives this address again.
    pub fn as_str(&self) -> &str
        ensures value { result.now ≡ self.now }
        ensures ascii { IsAscii result.now }

        // What every address is, for callers to use.
        ensures address { IsAddress self.now }
        ensures origin { IsOrigin (origin_of self.now) }
    {
        http_url::text(self.url())
    }

    /// The scheme.
    pub fn scheme(&self) -> Scheme
        ensures { result ≡ scheme_of self.now }
    {
        if self.url().scheme() == "https" {
            Scheme::Https
        } else {
            Scheme::Http
        }
    }

    /// Scheme, host and port, such as `http://h:81`; the port is left out if it is the scheme's (URL Standard,
    /// section 4.7).
    pub fn origin(&self) -> &str
        ensures value { result.now ≡ origin_of self.now }
        ensures ascii { IsAscii result.now }
    {
        self.url()
            .slice(Position::BeforeScheme, Position::AfterPort)
    }

    /// The host, as the address writes it: a domain in lower case, or an IP address (URL Standard,
    /// section 3).
    pub fn host(&self) -> &str
        ensures value { result.now ≡ host_of self.now }
        ensures ascii { IsAscii result.now }
    {
        http_url::host(self.url())
    }

    /// The port, that of the scheme if the address names none (RFC 9110, sections 4.2.1 and 4.2.2).
    pub fn port(&self) -> u16
        ensures { result ≡ unwrap_or (port_of self.now) (scheme_port (scheme_of self.now)) }
    {
        self.url().port().unwrap_or(self.scheme().port())
    }

    /// Host and port, such as `h:81`: what the Host field of a request holds (RFC 9110, section 7.2). The port is
    /// left out if it is the scheme's.
    pub fn authority(&self) -> &str
        ensures value { result.now ≡ authority_of self.now }
        ensures ascii { IsAscii result.now }
    {
        self.url().slice(Position::BeforeHost, Position::AfterPort)
    }

    /// The path up to and with its last `/`, such as `/a/` of `http://h/a/b?c`.
    pub fn dir(&self) -> &str
        ensures value { result.now ≡ dir_of self.now }
        ensures ascii { IsAscii result.now }
    {
        let path = self.url().path();
        &path[..http_url::dir_len(path)]
    }

    /// The path after its last `/`, such as `b` of `http://h/a/b?c`; it may be empty.
    pub fn file(&self) -> &str
        ensures value { result.now ≡ file_of self.now }
        ensures ascii { IsAscii result.now }
    {
        let path = self.url().path();
        &path[http_url::dir_len(path)..]
    }

    /// The path, and the query with its `?`, such as `/a/b?c`: what a request names (RFC 9112,
    /// section 3.2.1).
    pub fn path_query(&self) -> &str
        ensures value { result.now ≡ path_query_of self.now }
        ensures ascii { IsAscii result.now }
    {
        self.url().slice(Position::BeforePath, Position::AfterQuery)
    }

    /// Whether path and query are exactly `/robots.txt`, the place of the origin's robots file
    /// (RFC 9309, section 2.3).
    pub fn is_robots_file(&self) -> bool
        ensures { result ≡ is_robots_file self.now }
    {
        self.path_query() == "/robots.txt"
    }
}
