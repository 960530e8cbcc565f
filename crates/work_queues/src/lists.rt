//! The lists under an agenda, numbers by origin, counted and queued, and how they grow by a number.
ghost use Rattle.std.specs.Prelude.{◌≡◌, ◌<◌, [], ◌∷◌, ◌++◌, length, OnOk, IfOk};
ghost use Rattle.work_queues.specs.Lists.{AreListsKept, items_of, key_at};
ghost use Rattle.work_queues.specs.inner.Lists.{HasSpace};

use crate::pool::Pool;
use crate::queues::Queues;
use crate::task::Task;
use address::Origin;
use indexmap::IndexMap;
use std::alloc::{AllocError, Global};

/// A number's origin, by its place among the origins, and what is left to do.
#[derive(Clone, Copy)]
pub(crate) struct Job {
    pub(crate) origin: usize,
    pub(crate) task: Task,
}

/// The origins in order of discovery, each with the permits that are out; a job for each number; and which are in which queue.
#[derive(Drop)]
pub(crate) struct Lists {
    pub(crate) origins: IndexMap<Origin, usize>,
    pub(crate) jobs: Vec<Job>,
    pub(crate) waiting: Pool,
    pub(crate) parked: Pool,
    pub(crate) due: Queues,
}

impl Lists {
    /// The place of an origin among the origins, where it is put if it isn't there. Fails only if memory runs out.
    pub(crate) fn origin_index(
        &mut self,
        alloc: Global,
        origin: Origin,
    ) -> Result<usize, AllocError>
        requires { AreListsKept self.old }
        ensures kept { AreListsKept self.new }
        ensures items { items_of self.new ≡ items_of self.old }
        ensures ok { IfOk result (λ place. (place < length self.new.origins.entries) × (key_at self.new.origins.entries place ≡ origin)) }
    {
        if let Some(place) = self.origins.get_index_of(&origin) {
            return Ok(place);
        }
        self.waiting.open(alloc)?;
        self.parked.open(alloc)?;
        let place = self.origins.len();
        self.origins.insert(origin, 0)?;
        Ok(place)
    }

    /// Makes room for one number more of this origin.
    pub(crate) fn reserve(&mut self, origin: usize) -> Result<(), AllocError>
        requires kept { AreListsKept self.old }
        requires origin { origin < length self.old.origins.entries }
        ensures kept { AreListsKept self.new }
        ensures items { items_of self.new ≡ items_of self.old }
        ensures origins { self.new.origins ≡ self.old.origins }
        ensures room { OnOk result (HasSpace self.new origin) }
    {
        self.jobs.reserve(1)?;
        self.waiting.reserve(origin)?;
        self.parked.reserve(origin)?;
        self.due.reserve(0)?;
        Ok(())
    }

    /// One number more of this origin, for which nothing is left to do. Takes no memory.
    pub(crate) fn append(&mut self, origin: usize)
        requires kept { AreListsKept self.old }
        requires origin { origin < length self.old.origins.entries }
        requires room { HasSpace self.old origin }
        ensures kept { AreListsKept self.new }
        ensures items { items_of self.new ≡ items_of self.old ++ record { origin = key_at self.old.origins.entries origin; task = Task.Done } ∷ [] }
    {
        self.jobs.push_reserved(Job {
            origin,
            task: Task::Done,
        });
        self.waiting.add(origin);
        self.parked.add(origin);
        self.due.add(0);
    }
}
