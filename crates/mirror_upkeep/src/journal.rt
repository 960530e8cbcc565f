//! The text of a journal: its first line, and those of pages and answers.
ghost use Rattle.std.specs.Prelude.{◌≡◌, ◌++◌, ◌∷◌, ℕ, List, [], IfOk, OnOk, if◌then◌else◌, length, nat_le};
ghost use Rattle.sha2.specs.Sha256.{sha256};
ghost use Rattle.sha2.specs.Hashers.{Holds256};
ghost use Rattle.mirror_index.specs.Entries.{entry_line, text_line};
ghost use Rattle.mirror_index.specs.declared.entry.TheConstants.{MAX_LINE};
ghost use Rattle.mirror_upkeep.specs.Journals.{entry_part, first_line, starts_text};

use address::Address;
use mirror_index::{Entry, MAX_LINE, entry_line, text_line};
use sha2::{Digest, Sha256};
use std::alloc::{AllocError, Global};

// Adds a start to what is digested.
fn digest_start(hasher: &mut Sha256, start: &Address)
    ensures { (m : List ℕ) → Holds256 hasher.old m → Holds256 hasher.new (m ++ (start.now ++ 10 ∷ [])) }
{
    hasher.update(start.as_str().as_bytes());
    hasher.update(b"\n");
}

// The SHA-256 of the addresses of a run's starts, in lines.
fn starts_digest(start: &Address, others: &[Address]) -> [u8; 32]
    ensures { result ≡ sha256 (starts_text (start.now ∷ others.now)) }
{
    let mut hasher = Sha256::new();
    digest_start(&mut hasher, start);
    let mut rest = others;
    'others: while let Some((other, later)) = rest.split_first() {
        digest_start(&mut hasher, other);
        rest = later;
    }
    hasher.finalize()
}

/// The first line of the journal of a run with these starts, with its end: the version, the first start, and the SHA-256 of all of them
/// in lines. Fails only if memory runs out.
pub fn first_line(alloc: Global, start: &Address, others: &[Address]) -> Result<Vec<u8>, AllocError>
    ensures { IfOk result (λ line. line.items ≡ first_line start.now others.now) }
{
    let digest = starts_digest(start, others);
    let digits = hex::encode(alloc, digest.as_slice())?;
    let start = start.as_str();
    let line = format!(in alloc; "wgetr-journal 1 {start} {digits}\n")?;
    Ok(line.into_bytes())
}

/// Adds the line of an entry, unless that has more than 65,536 bytes, which no journal may have. Fails only if memory runs out.
pub fn push_entry(alloc: Global, text: &mut Vec<u8>, entry: &Entry) -> Result<(), AllocError>
    ensures { OnOk result (text.new.items ≡ text.old.items ++ entry_part entry.now) }
{
    let line = entry_line(alloc, entry)?;
    if line.len() > MAX_LINE {
        return Ok(());
    }
    text.extend_from_slice(line.as_slice())?;
    text.push(b'\n')?;
    Ok(())
}

/// Adds the line of an answer without a file, which is a text of any bytes. Fails only if memory runs out.
pub fn push_answer(alloc: Global, text: &mut Vec<u8>, answer: &[u8]) -> Result<(), AllocError>
    ensures { OnOk result (text.new.items ≡ text.old.items ++ (text_line answer.now ++ 10 ∷ [])) }
{
    let mut line = text_line(alloc, answer)?;
    line.push(b'\n')?;
    text.extend_from_slice(line.as_slice())
}
