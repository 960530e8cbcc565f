//! Threads that write the parts of a site's files.
use local_tree::{FilePart, Naming, PartCrew};
use std::thread::{Threads, join};

/// How many threads write parts.
const WRITERS: usize = 3;

/// Writes parts in three threads, while the caller's gives names. Each has one file open at a time. If no thread can be made, the
/// caller's does its work.
// What a method sends to a thread may rest on no bound of its block, so the disk has a handle here whose type is known.
#[derive(Drop)]
pub struct PartThreads<'a, R> {
    rt: &'a R,
    disk: &'a HostRuntime,
}

impl<'a, R> PartThreads<'a, R> {
    /// By this handle, with that of the disk that the parts are written to. Takes no memory.
    pub fn new(rt: &'a R, disk: &'a HostRuntime) -> PartThreads<'a, R> {
        PartThreads { rt, disk }
    }

    // The disk.
    pub(crate) fn disk(&self) -> &'a HostRuntime {
        self.disk
    }
}

// Writes these parts in this thread.
fn write_all(disk: &HostRuntime, parts: &mut [FilePart<'_>]) {
    for part in parts {
        part.write(disk);
    }
}

// Writes these parts in so many other threads, while names are given in this one.
#[cycle(writers)]
fn write_in<R: Threads, N: Naming>(
    rt: &R,
    disk: &HostRuntime,
    writers: usize,
    parts: &mut [FilePart<'_>],
    naming: &mut N,
) {
    if writers == 0 {
        return naming.give_names();
    }
    let (some, rest) = parts.split_at_mut(parts.len() / writers);
    let others = writers - 1;
    join(
        rt,
        || write_all(disk, some),
        || write_in(rt, disk, others, rest, naming),
    );
}

impl<'a, R: Threads> PartCrew for PartThreads<'a, R> {
    fn write_parts<N: Naming>(&self, parts: &mut [FilePart<'_>], naming: &mut N) {
        write_in(self.rt, self.disk, WRITERS, parts, naming);
    }
}
