//! Wildcards (GNU Wget manual, section Types of Files).
ghost use Rattle.std.specs.Prelude.{◌≡◌};
ghost use Rattle.std.specs.List.{list_any};
ghost use Rattle.follow_filters.specs.Wildcards.{is_wildcard};

fn is_wildcard(byte: u8) -> bool
    ensures { result ≡ is_wildcard byte }
{
    byte == b'*' || byte == b'?' || byte == b'[' || byte == b']'
}

// Whether a byte of the text is a wildcard.
pub(crate) fn has_wildcard(text: &[u8]) -> bool
    ensures { result ≡ list_any is_wildcard text.now }
{
    text.iter().any(|byte| is_wildcard(*byte))
}
