//! What a body is.

/// What a body is, by its media type (RFC 9110, section 8.3).
#[derive(Clone, Copy, Debug, PartialEq, Eq)]
pub enum BodyKind {
    /// A page of HTML.
    Html,
    /// A style sheet.
    Sheet,
    /// Anything else, or no body.
    Other,
}
