//! Which paths the parts of a pattern match. The one idea: the octets between two `*` are a piece, and if a piece is found leftmost, the rest of the path is
//! longest, so no other place of it needs a look.
ghost use Rattle.std.specs.Prelude.{◌≡◌, ◌≤◌, ◌<◌, ◌++◌, true, ℕ, List, length, get_or, IfSome};
ghost use Rattle.std.specs.List.{list_all};
ghost use Rattle.part_match.specs.Cuts.{is_match, some_end};
ghost use Rattle.robots_rules.specs.Patterns.{is_run, takes};

use crate::octets::NormalText;
use std::str;

/// A path in normal form.
pub(crate) trait NormalPath: Copy {
    ghost octets: { Self → List ℕ };

    /// Whether the parts of a pattern match the whole path. It takes no memory.
    fn is_matched(self, parts: &[u8]) -> bool
        ensures { result ≡ is_match is_run takes parts.now (octets self) };
}

impl NormalPath for &[u8] {
    ghost octets = { λ path. path.now };

    fn is_matched(self, parts: &[u8]) -> bool {
        matches(parts, self)
    }
}

// A path that isn't written down is read octet by octet, so no piece can be searched for: each place is tried.
impl NormalPath for NormalText<'_> {
    ghost use Rattle.robots_rules.specs.inner.NormalTextView.{octets_of_text};

    ghost octets = { octets_of_text };

    fn is_matched(self, parts: &[u8]) -> bool {
        part_match::matches(parts, self)
    }
}

/// Whether the parts match the whole path: the piece before the first `*` is at its front, and the others match the rest.
fn matches(parts: &[u8], path: &[u8]) -> bool
    ensures { result ≡ is_match is_run takes parts.now path.now }
{
    let (piece, others) = parts.split_at(first_run(parts));
    match path.strip_prefix(piece) {
        Some(rest) => matches_others(others, rest),
        None => false,
    }
}

/// The same of the parts after the first piece: none, or a `*` and what follows it, which matches some end of the path.
fn matches_others(parts: &[u8], path: &[u8]) -> bool
    ensures { result ≡ is_match is_run takes parts.now path.now }
{
    let Some(others) = parts.strip_prefix(b"*") else {
        return part_match::matches(parts, path);
    };
    match (str::from_utf8(others), str::from_utf8(path)) {
        (Ok(others), Ok(path)) => matches_some_end(others, path),
        // Normal forms are ASCII, so this isn't reached.
        _ => part_match::matches(parts, path),
    }
}

/// Whether the parts match some end of the path: each piece before a `*` is found leftmost after the one before it, and the last one is at the end.
fn matches_some_end(parts: &str, path: &str) -> bool
    ensures { result ≡ some_end (is_match is_run takes parts.now) path.now }
{
    let mut parts = parts;
    let mut path = path;
    while let Some((piece, others)) = parts.split_once('*') {
        let Some((_, behind)) = path.split_once(piece) else {
            return false;
        };
        path = behind;
        parts = others;
    }
    path.ends_with(parts)
}

/// Whether the parts match every path with this front, or none, `None` if that depends on what follows the front.
pub(crate) fn matches_front(parts: &[u8], front: &[u8]) -> Option<bool>
    ensures { IfSome result (λ matched. (rest : List ℕ) → matched ≡ is_match is_run takes parts.now (front.now ++ rest)) }
{
    let (piece, others) = parts.split_at(first_run(parts));
    match front.strip_prefix(piece) {
        Some(behind) => matches_behind(others, behind),
        None => match piece.strip_prefix(front) {
            Some(_) => None,
            None => Some(false),
        },
    }
}

/// The same of the parts after the first piece: none, or a `*` and what follows it.
fn matches_behind(parts: &[u8], front: &[u8]) -> Option<bool>
    ensures { IfSome result (λ matched. (rest : List ℕ) → matched ≡ is_match is_run takes parts.now (front.now ++ rest)) }
{
    if parts.is_empty() {
        if front.is_empty() {
            return None;
        }
        return Some(false);
    }
    if only_runs(parts) {
        return Some(true);
    }
    None
}

fn only_runs(parts: &[u8]) -> bool
    ensures { result ≡ list_all is_run parts.now }
{
    parts.iter().all(|part| *part == b'*')
}

/// The place of the first `*`, or how many parts there are if there is none.
fn first_run(parts: &[u8]) -> usize
    ensures within { result ≤ length parts.now }
    ensures run { result < length parts.now → is_run (get_or parts.now result 0) ≡ true }
    ensures before { (k : ℕ) → k < result → is_run (get_or parts.now k 0) ≡ true → ⊥ }
{
    parts
        .iter()
        .position(|part| *part == b'*')
        .unwrap_or(parts.len())
}
