//! A body in a file of its own.
use kept_bodies::BodyKind;
use std::alloc::{AllocError, Global};

/// What is there of a body.
#[derive(Clone, Copy, Debug, PartialEq, Eq)]
pub enum Standing {
    /// A file with all its bytes.
    Whole,
    /// The same, with the name that its page has by itself.
    Named,
    /// All its bytes, which wait for a descriptor, and later a file with them.
    Waiting,
    /// Nothing, since its file couldn't be written, or wasn't to be kept.
    Lost,
    /// Nothing, since there is no body.
    Absent,
}

/// A body that a worker kept in a file of its own.
#[derive(Clone, Copy, Debug, PartialEq, Eq)]
pub struct KeptPart {
    /// The worker's number.
    pub worker: u32,
    /// The number of the file among the worker's, or, of a part that was lost, of the reason.
    pub number: u32,
    /// What the body is.
    pub kind: BodyKind,
    /// How many bytes it has.
    pub len: u64,
    /// Whether this run received them: not if they were read from an earlier run's file.
    pub is_received: bool,
    /// Whether they are there.
    pub standing: Standing,
}

/// The path of a part below the directory of a run's parts, whose workers have each their own.
pub fn part_path(alloc: Global, dir: &str, worker: u32, number: u32) -> Result<String, AllocError> {
    format!(in alloc; "{dir}/{worker}/.wgetr%part.{number}")
}
