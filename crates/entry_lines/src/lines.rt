ghost use Rattle.std.specs.Prelude.{◌≡◌, ◌≤◌, ◌↔◌, ◌++◌, [], ◌∷◌, IsTrue, IfOk, length, take, List, ℕ};
ghost use Rattle.disk_folder.specs.Disks.{IsTorn};
ghost use Rattle.entry_lines.specs.Lines.{ArePlain, AreEntries, text, recovered, IsFrontOf};

use std::alloc::{AllocError, Global};

/// Whether bytes can be an entry: they have no zero and no line feed.
pub fn is_plain(entry: &[u8]) -> bool
    ensures { IsTrue result ↔ ArePlain entry.now }
{
    let mut rest = entry;
    while let [b, after @ ..] = rest {
        if *b == 0 || *b == b'\n' {
            return false;
        }
        rest = after;
    }
    true
}

/// The line of an entry.
pub fn line_of(alloc: Global, entry: &[u8]) -> Result<Vec<u8>, AllocError>
    ensures { IfOk result (λ line. line.items ≡ entry.now ++ 10 ∷ []) }
{
    let mut line = entry.to_vec(alloc)?;
    line.push(b'\n')?;
    Ok(line)
}

/// How many bytes the whole lines at the front have.
pub fn whole_len(bytes: &[u8]) -> usize
    ensures within { result ≤ length bytes.now }
    ensures front { take result bytes.now ≡ text (recovered bytes.now) }
    // Of lines that a crash left they are those that were synced, and a front of the others.
    ensures crash { (done added : List (List ℕ)) → AreEntries done → AreEntries added → IsTorn (text done) (text added) bytes.now → IsFrontOf done added (recovered bytes.now) }
{
    let mut whole = 0;
    let mut i = 0;
    while i < bytes.len() && bytes[i] != 0 {
        i += 1;
        if bytes[i - 1] == b'\n' {
            whole = i;
        }
    }
    whole
}
