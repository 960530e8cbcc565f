//! Heads of responses that answer what is kept.
ghost use Rattle.std.specs.Prelude.{◌≡◌, ◌++◌, IfOk, OnOk, option_map, vec_items};
ghost use Rattle.earlier_answers.specs.Heads.{front_lines, head_of};

use fetcher::Outcome;
use std::alloc::{AllocError, Global};

// The status line, and that there is no body.
fn front_lines(alloc: Global, status: u16) -> Result<Vec<u8>, AllocError>
    ensures { IfOk result (λ head. head.items ≡ front_lines status) }
{
    Ok(format!(in alloc; "HTTP/1.1 {status} \r\nContent-Length: 0\r\n")?.into_bytes())
}

/// The head of a response without a body that answers this outcome, if it is a redirect or leads nowhere; none of a page or a fault
/// (RFC 9112, section 2.1). Fails only if memory runs out.
pub fn head_of(alloc: Global, outcome: &Outcome) -> Result<Option<Vec<u8>>, AllocError>
    ensures { IfOk result (λ head. option_map vec_items head ≡ head_of outcome.now) }
{
    match outcome {
        Outcome::Moved(status, target) => {
            let mut head = front_lines(alloc, *status)?;
            head.extend_from_slice(b"Location: ")?;
            head.extend_from_slice(target.as_str().as_bytes())?;
            head.extend_from_slice(b"\r\n\r\n")?;
            Ok(Some(head))
        }
        Outcome::Leaf(status) => {
            let mut head = front_lines(alloc, *status)?;
            head.extend_from_slice(b"\r\n")?;
            Ok(Some(head))
        }
        Outcome::Page(_, _) | Outcome::Fault(_) => Ok(None),
    }
}
