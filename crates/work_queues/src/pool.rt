//! Numbers by origin: which of them are in, and which origins have one that is.
ghost use Rattle.std.specs.Prelude.{◌≡◌, ◌<◌, ◌+◌, ℕ, Bool, false, [], ◌∷◌, ◌++◌, Some, true, length, slice_get, slice_set, vec_len, OnOk, OnErr, IfOk};
ghost use Rattle.work_queues.specs.Queues.{Seat, IsPlaced, seats, queued_of, numbers_of};
ghost use Rattle.work_queues.specs.inner.Queues.{QueueHasRoom};
ghost use Rattle.work_queues.specs.Pools.{IsPool};

use crate::queues::Queues;
use std::alloc::{AllocError, Global};

/// Numbers in queues by their origins, and one queue of the origins that have a number in theirs, by the label of its first; origins of
/// equal labels are gone through by turns.
#[derive(Drop)]
pub(crate) struct Pool {
    pub(crate) numbers: Queues,
    pub(crate) origins: Queues,
    // How many turns were given to origins.
    turns: u32,
}

impl Pool {
    /// No origins and no numbers.
    pub(crate) fn new(alloc: Global) -> Result<Self, AllocError>
        ensures pool { IfOk result IsPool }
        ensures seats { IfOk result (λ pool. seats pool.numbers ≡ []) }
        ensures origins { IfOk result (λ pool. vec_len pool.numbers.queues ≡ 0) }
    {
        let mut origins = Queues::new(alloc);
        origins.open(alloc)?;
        Ok(Pool {
            numbers: Queues::new(alloc),
            origins,
            turns: 0,
        })
    }

    /// One origin more, which has no numbers yet. Fails only if memory runs out, and then changes nothing.
    pub(crate) fn open(&mut self, alloc: Global) -> Result<(), AllocError>
        requires { IsPool self.old }
        ensures pool { IsPool self.new }
        ensures seats { seats self.new.numbers ≡ seats self.old.numbers }
        ensures ok { OnOk result (vec_len self.new.numbers.queues ≡ vec_len self.old.numbers.queues + 1) }
        ensures err { OnErr result (vec_len self.new.numbers.queues ≡ vec_len self.old.numbers.queues) }
    {
        self.origins.reserve(0)?;
        self.numbers.open(alloc)?;
        self.origins.add(0);
        Ok(())
    }

    /// Makes room for one number more of this origin.
    pub(crate) fn reserve(&mut self, origin: usize) -> Result<(), AllocError>
        requires pool { IsPool self.old }
        requires origin { origin < vec_len self.old.numbers.queues }
        ensures pool { IsPool self.new }
        ensures seats { seats self.new.numbers ≡ seats self.old.numbers }
        ensures origins { vec_len self.new.numbers.queues ≡ vec_len self.old.numbers.queues }
        ensures room { OnOk result (QueueHasRoom self.new.numbers origin) }
    {
        self.numbers.reserve(origin)
    }

    /// One number more, which belongs to this origin and isn't in. Takes no memory.
    pub(crate) fn add(&mut self, origin: usize)
        requires pool { IsPool self.old }
        requires room { QueueHasRoom self.old.numbers origin }
        ensures pool { IsPool self.new }
        ensures seats { seats self.new.numbers ≡ seats self.old.numbers ++ record { queue = origin; is_queued = false } ∷ [] }
        ensures origins { vec_len self.new.numbers.queues ≡ vec_len self.old.numbers.queues }
    {
        self.numbers.add(origin);
    }

    // The turn of this origin: the last of all if a number of it goes, so that others come first, and else the one that it has.
    fn turn_of(&self, origin: usize, is_in: bool) -> u32
        requires pool { IsPool self.now }
        requires origin { origin < vec_len self.now.numbers.queues }
    {
        if is_in {
            self.origins.turn_of(origin)
        } else {
            self.turns
        }
    }

    /// The number of this origin is in from now on, at this label, or isn't. Takes no memory.
    pub(crate) fn put(&mut self, number: usize, origin: usize, is_in: bool, label: u32)
        requires pool { IsPool self.old }
        requires number { (was : Bool) × (slice_get (seats self.old.numbers) number ≡ Some (record { queue = origin; is_queued = was })) }
        requires origin { origin < vec_len self.old.numbers.queues }
        ensures pool { IsPool self.new }
        ensures seats { seats self.new.numbers ≡ slice_set (seats self.old.numbers) number (record { queue = origin; is_queued = is_in }) }
        ensures origins { vec_len self.new.numbers.queues ≡ vec_len self.old.numbers.queues }
    {
        let turn = self.turn_of(origin, is_in);
        self.turns = self.turns.wrapping_add(1);
        self.numbers.put(number, is_in, label);
        match self.numbers.first_label(origin) {
            Some(first) => self.origins.push(origin, first, turn),
            None => self.origins.remove(origin),
        }
    }

    /// How many origins have a number that is in.
    pub(crate) fn origin_count(&self) -> usize
        requires { IsPool self.now }
        ensures { result ≡ queued_of self.now.origins.queues.items 0 }
    {
        self.origins.queued(0)
    }

    /// The first number of the origin at this place among those that have one.
    pub(crate) fn first_at(&self, place: usize) -> usize
        requires pool { IsPool self.now }
        requires place { place < queued_of self.now.origins.queues.items 0 }
        ensures { (origin : ℕ) × (slice_get (numbers_of self.now.origins.queues.items 0) place ≡ Some origin)
            × (slice_get (seats self.now.numbers) result ≡ Some (record { queue = origin; is_queued = true })) }
    {
        let Some(origin) = self.origins.at(0, place) else {
            unreachable!()
        };
        let Some(number) = self.numbers.first(origin) else {
            unreachable!()
        };
        number
    }
}
