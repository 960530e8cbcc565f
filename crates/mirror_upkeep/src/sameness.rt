//! Whether an index says what another does.
ghost use Rattle.std.specs.Prelude.{◌≡◌, ◌++◌, IsTrue, option_map};

use mirror_index::{Entry, KeptHead, Mark, MirrorIndex};

// Whether two values are the same, or both are missing.
fn is_same_value(one: Option<&[u8]>, other: Option<&[u8]>) -> bool
    ensures { IsTrue result → option_map (λ v. v.now) one.entry ≡ option_map (λ v. v.now) other.entry }
{
    match (one, other) {
        (Some(one), Some(other)) => one == other,
        (None, None) => true,
        _ => false,
    }
}

// Whether the same was said with two pages.
fn is_same_head(one: &KeptHead, other: &KeptHead) -> bool
    ensures { IsTrue result → one.now ≡ other.now }
{
    one.status() == other.status()
        && is_same_value(one.content_type(), other.content_type())
        && is_same_value(one.etag(), other.etag())
        && is_same_value(one.last_modified(), other.last_modified())
}

// Whether two marks are the same.
fn is_same_mark(one: Mark, other: Mark) -> bool
    ensures { IsTrue result → one ≡ other }
{
    match (one, other) {
        (Mark::Digest(one), Mark::Digest(other)) => one.as_slice() == other.as_slice(),
        (Mark::Changed(one), Mark::Changed(other)) => one == other,
        _ => false,
    }
}

// Whether two entries are the same.
fn is_same_entry(one: &Entry, other: &Entry) -> bool
    ensures { IsTrue result → one.now ≡ other.now }
{
    one.address() == other.address()
        && one.name() == other.name()
        && one.size() == other.size()
        && is_same_mark(one.mark(), other.mark())
        && is_same_head(one.head(), other.head())
}

/// Whether an index has the entries of another. Takes no memory.
pub fn is_same(one: &MirrorIndex, other: &MirrorIndex) -> bool
    ensures { IsTrue result → one.now ≡ other.now }
{
    let mut rest = one.entries();
    let mut left = other.entries();
    'entries: while let Some((entry, later)) = rest.split_first() {
        let Some((same, after)) = left.split_first() else {
            return false;
        };
        if !is_same_entry(entry, same) {
            return false;
        }
        rest = later;
        left = after;
    }
    left.is_empty()
}
