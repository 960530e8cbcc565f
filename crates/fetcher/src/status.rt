//! Statuses of responses: successes and redirects (RFC 9110, section 15).
ghost use Rattle.std.specs.Prelude.{◌≡◌};
ghost use Rattle.fetcher.specs.Statuses.{is_successful, is_redirect};

/// The first status of success (RFC 9110, section 15.3).
pub const FIRST_SUCCESS: u16 = 200;

/// The last status of success.
pub const LAST_SUCCESS: u16 = 299;

/// The statuses that redirect to what `Location` names (RFC 9110, sections 15.4.2 to 15.4.9).
pub const REDIRECTS: [u16; 5] = [301, 302, 303, 307, 308];

/// The status of an address that names nothing (RFC 9110, section 15.5.5).
pub const NOT_FOUND: u16 = 404;

/// Whether a status is one of success.
pub fn is_successful(status: u16) -> bool
    ensures { result ≡ is_successful status }
{
    FIRST_SUCCESS <= status && status <= LAST_SUCCESS
}

/// Whether a status redirects.
pub fn is_redirect(status: u16) -> bool
    ensures { result ≡ is_redirect status }
{
    REDIRECTS.contains(&status)
}
