//! Versions of the format of records, as their first lines name them.
ghost use Rattle.std.specs.Prelude.{◌≡◌, ◌++◌, MatchOption};
ghost use Rattle.site_records.specs.Records.{version_line, HasVersion};

/// Which entries a record has beside its pages and its faults.
#[derive(Clone, Copy, PartialEq, Eq)]
pub(crate) enum Version {
    /// `robots` and `rules`: the file of an origin, or its rules.
    First,
    /// `chain`: what was answered for an origin's robots file and after its redirects.
    Second,
}

/// How many bytes a record may have that is to be read again.
pub const MAX_RECORD: usize = 1_073_741_824;

/// The first line of a record of version 1.
const VERSION_LINE: &[u8] = b"wgetr-record 1\n";

/// The first line of a record of version 2, which is a record without entries.
pub const SECOND_VERSION_LINE: &[u8] = b"wgetr-record 2\n";

// The version of a record, and what follows its first line; none if that names no version.
pub(crate) fn version_of(bytes: &[u8]) -> Option<(Version, &[u8])>
    ensures { MatchOption result (¬ HasVersion bytes.now) (λ found. bytes.now ≡ version_line found.0 ++ found.1.now) }
{
    if let Some(rest) = bytes.strip_prefix(VERSION_LINE) {
        return Some((Version::First, rest));
    }
    match bytes.strip_prefix(SECOND_VERSION_LINE) {
        Some(rest) => Some((Version::Second, rest)),
        None => None,
    }
}
