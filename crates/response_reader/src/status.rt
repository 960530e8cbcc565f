//! What the status of a head says of what follows it (RFC 9110, section 15; RFC 9112, section 6.3).
ghost use Rattle.std.specs.Prelude.{◌≡◌};
ghost use Rattle.response_reader.specs.Fields.{has_no_body};

/// The status of a success without a body (RFC 9110, section 15.3.5).
pub(crate) const NO_CONTENT: u16 = 204;

/// The status of an answer to a condition, without a body (RFC 9110, section 15.4.5).
pub(crate) const NOT_MODIFIED: u16 = 304;

/// Whether a response with this status has no body, whatever its fields say.
pub(crate) fn has_no_body(status: u16) -> bool
    ensures { result ≡ has_no_body status }
{
    status == NO_CONTENT || status == NOT_MODIFIED
}
