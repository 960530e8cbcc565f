//! The name of a page by itself.
ghost use Rattle.std.specs.Prelude.{◌≡◌, IfOk, string_bytes};
ghost use Rattle.early_names.specs.LoneNames.{lone_name};

use address::Address;
use kept_bodies::BodyKind;
use local_names::{NameRules, ended_name, plain_name_of};
use std::alloc::{AllocError, Global};

/// The most bytes of a name that is given early.
const MAX_NAME: usize = 1_000;

/// The most directories of such a name.
const MAX_DIRECTORIES: usize = 32;

/// The name that a page has if no other page is in its way, by these rules; if names have endings, with the ending of a body of
/// this kind.
pub fn lone_name(
    alloc: Global,
    rules: &NameRules,
    has_endings: bool,
    kind: BodyKind,
    page: &Address,
) -> Result<String, AllocError>
    ensures { IfOk result (λ name. string_bytes name ≡ lone_name has_endings rules.now kind page.now) }
{
    if has_endings {
        return Ok(ended_name(alloc, rules, kind, page)?);
    }
    Ok(plain_name_of(alloc, rules, page)?)
}

/// Whether a page may get this name early: neither it nor its directories are many bytes to remember.
pub fn is_early(name: &str) -> bool {
    let slashes = name.as_bytes().iter().filter(|byte: &&u8| **byte == b'/');
    name.len() <= MAX_NAME && slashes.count() <= MAX_DIRECTORIES
}
