//! The schemes of addresses (RFC 9110, sections 4.2.1 and 4.2.2).
ghost use Rattle.std.specs.Prelude.{◌≡◌};
ghost use Rattle.address.specs.Address.{scheme_port, scheme_text};

/// The scheme of an address.
#[derive(Clone, Copy, Debug, PartialEq, Eq)]
pub enum Scheme {
    /// `http`: over TCP.
    Http,
    /// `https`: over TLS.
    Https,
}

impl Scheme {
    /// The scheme as it is in front of an address.
    pub fn as_str(self) -> &'static str
        ensures { result.now ≡ scheme_text self }
    {
        match self {
            Scheme::Http => "http",
            Scheme::Https => "https",
        }
    }

    /// The port of an address that names none.
    pub fn port(self) -> u16
        ensures { result ≡ scheme_port self }
    {
        match self {
            Scheme::Http => 80,
            Scheme::Https => 443,
        }
    }
}
