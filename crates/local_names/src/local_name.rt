//! Names that lead nowhere but below their folder.
ghost use Rattle.std.specs.Prelude.{◌≡◌, ◌↔◌, IsTrue};
ghost use Rattle.std.specs.List.{slice_split, list_any};
ghost use Rattle.local_names.specs.PlainNames.{is_slash};
ghost use Rattle.local_names.specs.LocalNames.{StaysInside};
ghost use Rattle.local_names.specs.inner.LocalNames.{is_outer};

// Whether a segment names nothing within its directory.
fn is_outer(segment: &[u8]) -> bool
    ensures { result ≡ is_outer segment.now }
{
    matches!(segment, b"" | b"." | b"..")
}

// Whether a name has such a segment.
fn has_outer(name: &[u8]) -> bool
    ensures { result ≡ list_any is_outer (slice_split is_slash name.now) }
{
    name.split(
        |byte: &u8| -> bool
            ensures { result ≡ is_slash byte.now }
        { *byte == b'/' },
    )
    .any(|segment| is_outer(segment))
}

/// Whether a name leads nowhere but below its folder: none of its segments is empty, `.` or `..`.
pub fn is_local_name(name: &str) -> bool
    ensures { IsTrue result ↔ StaysInside name.now }
{
    !has_outer(name.as_bytes())
}
