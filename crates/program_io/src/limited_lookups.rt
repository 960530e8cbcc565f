//! The limit on look-ups of hosts that the words give.
use crate::start_file::{texts_of, words_of};
use address::Address;
use options::LineFault;
use pacing::Manner;
use start_lists::order_with;
use std::alloc::{AllocError, Global};
use std::env::Args;
use std::io;
use std::net::Net;
use std::sync::Wait;
use std::thread::Threads;
use tcp_connect::Hosts;

// How these words have servers treated, with these starts, if they order something.
fn manner_by(
    alloc: Global,
    starts: &[Address],
    words: &[&str],
) -> Result<Option<Manner>, AllocError> {
    match order_with(alloc, starts, words) {
        Ok(order) => {
            let manner = order.manner;
            drop(order);
            Ok(Some(manner))
        }
        Err(LineFault::Memory) => Err(AllocError),
        Err(_) => Ok(None),
    }
}

// The same of the arguments of the program, its name first.
fn manner_of(
    alloc: Global,
    starts: &[Address],
    args: io::Result<Args>,
) -> Result<Option<Manner>, AllocError> {
    let Ok(args) = args else {
        return Ok(None);
    };
    let words = words_of(alloc, args)?;
    let texts = texts_of(alloc, words.as_slice())?;
    manner_by(alloc, starts, texts.as_slice())
}

/// Has these hosts looked up within the limit that the arguments of the program give, its name first, with these starts of a list. If
/// they give none nothing is done. The error is that there is no memory, or no thread.
// A bound of a block can't be passed to a thread, so this is no part of `HostSystem`.
pub fn limit_lookups<R: Net + Wait + Threads + Copy + Send + 'static>(
    rt: &R,
    alloc: Global,
    hosts: &Hosts,
    args: io::Result<Args>,
    starts: &[Address],
) -> Result<(), AllocError>
where
    R::Stream: Send,
    R::Listener: Send,
{
    match manner_of(alloc, starts, args)? {
        Some(manner) => hosts.limit_lookups(rt, &manner),
        None => Ok(()),
    }
}
