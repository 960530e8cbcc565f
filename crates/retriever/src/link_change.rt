//! What the files of a run have in place of the bodies of its pages, if links lead from file to file.
ghost use Rattle.std.specs.Prelude.{◌≡◌, length, map, string_bytes};
ghost use Rattle.retriever.specs.Mirrored.{kept_as_named};

use kept_bodies::BodyKind;
use local_tree::{BodyChange, ChangeCrew, ChangeFault, ChangeLane};
use run_mirror::{Anew, RunMirror};
use std::alloc::Global;
use std::marker::Model;
use std::thread::{Threads, join};
use workers::Harvest;

/// How many threads beside the caller's change files.
const THREADS: usize = 3;

/// What becomes of the links of a harvest's kept pages.
#[derive(Drop)]
pub(crate) struct LinkChange<'a> {
    mirror: RunMirror<'a>,
}

// Contracts see what was kept.
impl<'a> Model for LinkChange<'a> {
    ghost use Rattle.run_mirror.specs.Mirrors.{Kept};

    ghost Value = { Kept };

    ghost view = { λ change. change.mirror };
}

impl<'a> LinkChange<'a> {
    /// That of the pages of this harvest, which have these names. Takes 8 bytes for each page, or none if there is no memory.
    pub(crate) fn of<B: Drop>(
        alloc: Global,
        harvest: &'a Harvest<B>,
        names: &'a [String],
    ) -> LinkChange<'a>
        requires { length names.now ≡ length harvest.now.kept }
        ensures { result ≡ kept_as_named harvest.now (map string_bytes names.now) }
    {
        LinkChange {
            mirror: RunMirror::new(harvest.kept(), names, harvest.records()).with_hints(alloc),
        }
    }
}

impl<'a> BodyChange for LinkChange<'a> {
    ghost use Rattle.retriever.specs.Mirrored.{links_become};

    ghost becomes = { links_become };

    fn change(
        &self,
        alloc: Global,
        place: usize,
        kind: BodyKind,
        body: &[u8],
    ) -> Result<Option<Vec<u8>>, ChangeFault> {
        match self.mirror.body_at(alloc, place, kind, body)? {
            Anew::Same => Ok(None),
            Anew::Changed(other) => Ok(Some(other)),
            Anew::Left => Err(ChangeFault::Left),
        }
    }
}

/// Threads in which links of files change, and what becomes of these. If no thread can be made, the caller's does its work.
#[derive(Drop)]
pub(crate) struct LinkThreads<'a, H> {
    rt: &'a H,
    change: &'a LinkChange<'a>,
}

impl<'a, H> LinkThreads<'a, H> {
    /// By this handle. Takes no memory.
    pub(crate) fn new(rt: &'a H, change: &'a LinkChange<'a>) -> LinkThreads<'a, H> {
        LinkThreads { rt, change }
    }
}

// Goes through these lanes in this thread.
fn change_all(lanes: &mut [ChangeLane<'_, '_>], change: &LinkChange<'_>) {
    for lane in lanes {
        lane.run(change);
    }
}

// Goes through these lanes, one in each of so many other threads, and the rest in this one.
#[cycle(lanes)]
fn change_in<H: Threads>(
    rt: &H,
    threads: usize,
    lanes: &mut [ChangeLane<'_, '_>],
    change: &LinkChange<'_>,
) {
    if threads == 0 {
        return change_all(lanes, change);
    }
    let (first, rest) = lanes.split_at_mut(lanes.len().min(1));
    let others = threads - 1;
    join(
        rt,
        || change_all(first, change),
        || change_in(rt, others, rest, change),
    );
}

impl<'a, H: Threads> ChangeCrew for LinkThreads<'a, H> {
    fn run_lanes(&self, lanes: &mut [ChangeLane<'_, '_>]) {
        change_in(self.rt, THREADS, lanes, self.change);
    }
}
