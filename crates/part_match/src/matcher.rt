//! The matching of a whole text by the parts of a pattern.
ghost use Rattle.std.specs.Prelude.{◌≡◌, ◌↔◌, ◌≤◌, IsTrue, not, count_by, length};
ghost use Rattle.std.specs.List.{list_all};
ghost use Rattle.part_match.specs.Cuts.{Matches, is_match};
ghost use Rattle.part_match.specs.inner.Cuts.{least_octets};

use crate::parts::{Part, Text};

/// Whether the whole text can be cut into pieces that the parts match one by one. It takes no memory and calls itself nowhere.
///
/// A text with fewer octets than the pattern has parts that take one is refused after reading it once. Otherwise, with n octets and p parts, the loop
/// takes at most (n + 1) * (p + 1) turns, each of which looks at one part and at most two octets: after a run each place of the text is tried once, and an
/// earlier run is never gone back to.
pub fn matches<P: Part, T: Text>(parts: &[P], text: T) -> bool
    ensures value { result ≡ is_match P.is_run P.takes parts.now (T.octets text) }
    ensures cuts { IsTrue result ↔ Matches P.is_run P.takes parts.now (T.octets text) }
{
    if !is_long_enough(parts, text) {
        return false;
    }
    let mut at = 0;
    let mut rest = text;
    // The place after the last run, and the text that was tried there last.
    let mut last_run: Option<(usize, T)> = None;
    while let Some((octet, behind)) = rest.split_first() {
        if at < parts.len() {
            let part = &parts[at];
            if part.is_run() {
                at += 1;
                last_run = Some((at, rest));
                continue;
            }
            if part.takes(octet) {
                at += 1;
                rest = behind;
                continue;
            }
        }
        let Some((start, tried)) = last_run else {
            return false;
        };
        let Some((_, next)) = tried.split_first() else {
            return false;
        };
        at = start;
        rest = next;
        last_run = Some((start, next));
    }
    only_runs(&parts[at..])
}

/// Whether the text has an octet for each part that takes one.
fn is_long_enough<P: Part, T: Text>(parts: &[P], text: T) -> bool
    ensures { IsTrue result ↔ (least_octets P.is_run parts.now ≤ length (T.octets text)) }
{
    let mut rest = text;
    for part in parts {
        let takes_one = !part.is_run();
        if takes_one {
            let Some((_, behind)) = rest.split_first() else {
                return false;
            };
            rest = behind;
        }
    }
    true
}

fn only_runs<P: Part>(parts: &[P]) -> bool
    ensures { result ≡ list_all P.is_run parts.now }
{
    parts.iter().all(|part| part.is_run())
}
