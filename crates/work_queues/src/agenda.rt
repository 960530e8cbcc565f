//! The agenda: what is left to do for each number, found without going through them.
ghost use Rattle.std.specs.Prelude.{◌≡◌, ◌<◌, ◌+◌, ◌^◌, ℕ, true, [], ◌∷◌, ◌++◌, Some, length, slice_get, slice_set, OnOk, OnErr, IfOk, IfSome, IfNone, Contains};
ghost use Rattle.work_queues.specs.Tasks.{Item, is_waiting, is_parked, is_due, out_count};
ghost use Rattle.work_queues.specs.inner.Lists.{one};

use crate::lists::{Job, Lists};
use crate::pool::Pool;
use crate::queues::Queues;
use crate::task::Task;
use address::Origin;
use indexmap::IndexMap;
use std::alloc::{AllocError, Global};
use std::marker::Model;

/// What is left to do for each number. Contracts see a list of items by their numbers, and the origins of which a number waits or is parked.
///
/// Of an origin's waiting numbers, of its parked ones and of the due ones the one of least label is found; origins are gone through by the least
/// label of theirs, and those of equal labels by turns, so that one worker needn't wait for one origin while another is free. No clause says that:
/// order is free. Each call takes a bounded number of steps for each level of a heap; only a new number, or a
/// new origin, takes memory.
#[derive(Drop)]
pub struct Agenda {
    lists: Lists,
}

impl Model for Agenda {
    ghost use Rattle.work_queues.specs.Tasks.{Listing};
    ghost use Rattle.work_queues.specs.Lists.{AreListsKept, items_of, waiting_of, parked_of};

    ghost Value = { Listing };

    ghost view = { λ agenda. record { items = items_of agenda.lists; waiting = waiting_of agenda.lists; parked = parked_of agenda.lists } };

    ghost invariant = { λ agenda. AreListsKept agenda.lists };
}

impl Agenda {
    /// No numbers. Fails only if memory runs out.
    pub fn new(alloc: Global) -> Result<Self, AllocError>
        ensures { IfOk result (λ agenda. agenda.items ≡ []) }
    {
        let mut due = Queues::new(alloc);
        due.open(alloc)?;
        let waiting = Pool::new(alloc)?;
        let parked = Pool::new(alloc)?;
        let lists = Lists {
            origins: IndexMap::new(alloc),
            jobs: Vec::new(alloc),
            waiting,
            parked,
            due,
        };
        Ok(Agenda { lists })
    }

    /// How many numbers there are.
    pub fn len(&self) -> usize
        ensures { result ≡ length self.now.items }
    {
        self.lists.jobs.len()
    }

    /// One number more, of this origin: the number of how many there were. Fails only if memory runs out, and then leaves the items as they were.
    pub fn add(
        &mut self,
        alloc: Global,
        origin: Origin,
        task: Task,
        label: u32,
    ) -> Result<(), AllocError>
        ensures ok { OnOk result (self.new.items ≡ self.old.items ++ record { origin = origin; task = task } ∷ []) }
        ensures err { OnErr result (self.new.items ≡ self.old.items) }
    {
        let number = self.lists.jobs.len();
        let place = self.lists.origin_index(alloc, origin)?;
        self.lists.reserve(place)?;
        self.lists.append(place);
        self.set(number, task, label);
        Ok(())
    }

    /// This is left to do for the number from now on, at this label. Takes no memory.
    pub fn set(&mut self, number: usize, task: Task, label: u32)
        requires { number < length self.old.items }
        ensures { (item : Item) → slice_get self.old.items number ≡ Some item → self.new.items ≡ slice_set self.old.items number (record item { task = task }) }
    {
        let Job { origin, task: was } = self.lists.jobs[number];
        self.lists.jobs[number] = Job { origin, task };
        self.lists.origins[origin] = recount(
            self.lists.origins[origin],
            was.is_out(),
            task.is_out(),
        );
        self.lists
            .waiting
            .put(number, origin, task.is_waiting(), label);
        self.lists
            .parked
            .put(number, origin, task.is_parked(), label);
        self.lists.due.put(number, task.is_due(), label);
    }

    /// A number that is due, if there is one.
    pub fn first_due(&self) -> Option<usize>
        ensures some { IfSome result (λ number. (item : Item) × (slice_get self.now.items number ≡ Some item) × (is_due item.task ≡ true)) }
        ensures none { IfNone result ((number : ℕ) (item : Item) → slice_get self.now.items number ≡ Some item → is_due item.task ≡ true → ⊥) }
    {
        self.lists.due.first(0)
    }

    /// How many permits are out of the origin of this number.
    pub fn out(&self, number: usize) -> usize
        requires { number < length self.now.items }
        ensures { (item : Item) × (slice_get self.now.items number ≡ Some item) × (result ≡ out_count self.now.items item.origin) }
    {
        self.lists.origins[self.lists.jobs[number].origin]
    }

    /// The origin of this number.
    pub fn origin(&self, number: usize) -> &Origin
        requires { number < length self.now.items }
        ensures { (item : Item) × (slice_get self.now.items number ≡ Some item) × (result.now ≡ item.origin) }
    {
        match self.lists.origins.get_index(self.lists.jobs[number].origin) {
            Some((origin, _)) => origin,
            None => unreachable!(),
        }
    }

    /// A parked number of this origin, if one is parked.
    pub fn first_parked(&self, origin: &Origin) -> Option<usize>
        ensures some { IfSome result (λ number. (item : Item) × (slice_get self.now.items number ≡ Some item) × (is_parked item.task ≡ true) × (item.origin ≡ origin.now)) }
        ensures none { IfNone result ((number : ℕ) (item : Item) → slice_get self.now.items number ≡ Some item → is_parked item.task ≡ true → item.origin ≡ origin.now → ⊥) }
    {
        match self.lists.origins.get_index_of(origin) {
            Some(place) => self.lists.parked.numbers.first(place),
            None => None,
        }
    }

    /// How many origins have a waiting number.
    pub fn waiting_len(&self) -> usize
        ensures len { result ≡ length self.now.waiting }
        ensures all { (number : ℕ) (item : Item) → slice_get self.now.items number ≡ Some item → is_waiting item.task ≡ true → Contains self.now.waiting item.origin }
    {
        self.lists.waiting.origin_count()
    }

    /// A waiting number of the origin at this place.
    pub fn waiting_at(&self, place: usize) -> usize
        requires { place < length self.now.waiting }
        ensures { (item : Item) × (slice_get self.now.items result ≡ Some item) × (is_waiting item.task ≡ true) × (slice_get self.now.waiting place ≡ Some item.origin) }
    {
        self.lists.waiting.first_at(place)
    }

    /// How many origins have a parked number.
    pub fn parked_len(&self) -> usize
        ensures len { result ≡ length self.now.parked }
        ensures all { (number : ℕ) (item : Item) → slice_get self.now.items number ≡ Some item → is_parked item.task ≡ true → Contains self.now.parked item.origin }
    {
        self.lists.parked.origin_count()
    }

    /// A parked number of the origin at this place.
    pub fn parked_at(&self, place: usize) -> usize
        requires { place < length self.now.parked }
        ensures { (item : Item) × (slice_get self.now.items result ≡ Some item) × (is_parked item.task ≡ true) × (slice_get self.now.parked place ≡ Some item.origin) }
    {
        self.lists.parked.first_at(place)
    }
}

// A count after one that was counted, or not, is counted, or not.
fn recount(count: usize, was: bool, is: bool) -> usize
    requires some { was ≡ true → 0 < count }
    requires room { count + 1 < 2 ^ 64 }
    ensures { result + one was ≡ count + one is }
{
    match (was, is) {
        (true, false) => count - 1,
        (false, true) => count + 1,
        _ => count,
    }
}
