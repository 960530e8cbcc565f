//! What a file of starts has.
ghost use Rattle.std.specs.Prelude.{IfErr, IfOk};
ghost use Rattle.start_lists.specs.Words.{HasStarts, IsNoFile, file_read};

use crate::fault::ListFault;
use crate::html::starts_of_html;
use crate::lines::starts_of_list;
use crate::words::FileOfStarts;
use address::Address;
use std::alloc::Global;

/// The starts of a file with this text.
pub fn starts_of_file(
    alloc: Global,
    file: &FileOfStarts,
    text: &[u8],
) -> Result<Vec<Address>, ListFault>
    ensures starts { IfOk result (λ starts. HasStarts (file_read file.now) text.now starts.items) }
    ensures fault { IfErr result (IsNoFile (file_read file.now) text.now) }
{
    let base = file.base.as_ref();
    if file.is_html {
        Ok(starts_of_html(alloc, text, file.by_proxy, base)?)
    } else {
        starts_of_list(alloc, text, file.by_proxy, base)
    }
}
