//! Queues of numbers: each number belongs to one queue, and is in it or not. A queue gives the number of the least label first, of equal
//! labels that of the earliest turn, and of equal turns the least number.
ghost use Rattle.std.specs.Prelude.{◌≡◌, ◌≢◌, ◌<◌, ◌≤◌, ◌+◌, ◌-◌, ℕ, true, false, [], ◌∷◌, ◌++◌, Some, length, slice_get, slice_set, nat_lt, vec_len, OnOk, OnErr, IfSome, IfNone};
ghost use Rattle.work_queues.specs.Queues.{Seat, numbers_of, queued_of, seats, IsPlaced};
ghost use Rattle.work_queues.specs.inner.Queues.{IsRearranged, QueueHasRoom};

use std::alloc::{AllocError, Global};

/// A number that belongs to a queue, with its label and its turn.
#[derive(Clone, Copy)]
struct Member {
    number: usize,
    label: u32,
    turn: u32,
}

/// The numbers of one queue: the first `queued` of its members are in it, as a binary heap by label; the others aren't.
#[derive(Drop)]
pub(crate) struct Queue {
    members: Vec<Member>,
    queued: usize,
}

/// Where a number is: its queue, and its place among that queue's members.
#[derive(Clone, Copy)]
struct Position {
    queue: usize,
    place: usize,
}

/// Queues, and for each number its place in one of them. The order of a heap isn't in the contracts.
#[derive(Drop)]
pub(crate) struct Queues {
    queues: Vec<Queue>,
    places: Vec<Position>,
}

impl Queues {
    /// No queues. Takes no memory.
    pub(crate) fn new(alloc: Global) -> Self
        ensures placed { IsPlaced result }
        ensures seats { seats result ≡ [] }
        ensures queues { result.queues.items ≡ [] }
    {
        Queues {
            queues: Vec::new(alloc),
            places: Vec::new(alloc),
        }
    }

    /// The first number in the queue, if there is one.
    pub(crate) fn first(&self, queue: usize) -> Option<usize>
        requires placed { IsPlaced self.now }
        ensures some { IfSome result (λ number. slice_get (seats self.now) number ≡ Some (record { queue = queue; is_queued = true })) }
        ensures none { IfNone result (queued_of self.now.queues.items queue ≡ 0) }
    {
        self.at(queue, 0)
    }

    /// The number at this place in the queue, if so many are in it.
    pub(crate) fn at(&self, queue: usize, place: usize) -> Option<usize>
        requires placed { IsPlaced self.now }
        ensures some { IfSome result (λ number. slice_get (seats self.now) number ≡ Some (record { queue = queue; is_queued = true })) }
        ensures number { IfSome result (λ number. slice_get (numbers_of self.now.queues.items queue) place ≡ Some number) }
        ensures none { IfNone result (queued_of self.now.queues.items queue ≤ place) }
    {
        if queue >= self.queues.len() {
            return None;
        }
        if place >= self.queued(queue) {
            return None;
        }
        Some(self.queues[queue].members[place].number)
    }

    /// The label of the first number in the queue, if there is one.
    pub(crate) fn first_label(&self, queue: usize) -> Option<u32>
        requires placed { IsPlaced self.now }
        requires queue { queue < vec_len self.now.queues }
        ensures some { IfSome result (λ label. 0 < queued_of self.now.queues.items queue) }
        ensures none { IfNone result (queued_of self.now.queues.items queue ≡ 0) }
    {
        if self.queued(queue) == 0 {
            return None;
        }
        Some(self.member(queue, 0).label)
    }

    /// The turn in which a number is in its queue, or was last.
    pub(crate) fn turn_of(&self, number: usize) -> u32
        requires placed { IsPlaced self.now }
        requires number { number < vec_len self.now.places }
    {
        let Position { queue, place } = self.places[number];
        self.member(queue, place).turn
    }

    /// How many numbers are in the queue.
    pub(crate) fn queued(&self, queue: usize) -> usize
        requires placed { IsPlaced self.now }
        requires queue { queue < vec_len self.now.queues }
        ensures value { result ≡ queued_of self.now.queues.items queue }
        ensures within { result ≤ length (numbers_of self.now.queues.items queue) }
    {
        self.queues[queue].queued
    }
}

/// What takes memory.
impl Queues {
    /// One queue more, to which no number belongs yet.
    pub(crate) fn open(&mut self, alloc: Global) -> Result<(), AllocError>
        requires placed { IsPlaced self.old }
        ensures placed { IsPlaced self.new }
        ensures seats { seats self.new ≡ seats self.old }
        ensures ok { OnOk result (vec_len self.new.queues ≡ vec_len self.old.queues + 1) }
        ensures err { OnErr result (self.new.queues.items ≡ self.old.queues.items) }
        ensures queued { (queue : ℕ) → queued_of self.new.queues.items queue ≡ queued_of self.old.queues.items queue }
    {
        let queue = Queue {
            members: Vec::new(alloc),
            queued: 0,
        };
        self.queues.push(queue)?;
        Ok(())
    }

    /// Makes room for one number more of this queue.
    pub(crate) fn reserve(&mut self, queue: usize) -> Result<(), AllocError>
        requires placed { IsPlaced self.old }
        requires queue { queue < vec_len self.old.queues }
        ensures same { IsRearranged self.old self.new }
        ensures room { OnOk result (QueueHasRoom self.new queue) }
    {
        self.queues[queue].members.reserve(1)?;
        self.places.reserve(1)?;
        Ok(())
    }

    /// One number more, which belongs to this queue and isn't in it. Takes no memory.
    pub(crate) fn add(&mut self, queue: usize)
        requires placed { IsPlaced self.old }
        requires room { QueueHasRoom self.old queue }
        ensures placed { IsPlaced self.new }
        ensures seats { seats self.new ≡ seats self.old ++ record { queue = queue; is_queued = false } ∷ [] }
        ensures queues { vec_len self.new.queues ≡ vec_len self.old.queues }
        ensures queued { (other : ℕ) → queued_of self.new.queues.items other ≡ queued_of self.old.queues.items other }
    {
        let number = self.places.len();
        let place = self.queues[queue].members.len();
        self.queues[queue].members.push_reserved(Member {
            number,
            label: 0,
            turn: 0,
        });
        self.places.push_reserved(Position { queue, place });
    }
}

/// What moves numbers; nothing here takes memory.
impl Queues {
    /// The number is in its queue from now on, at this label and in this turn.
    pub(crate) fn push(&mut self, number: usize, label: u32, turn: u32)
        requires placed { IsPlaced self.old }
        requires number { number < vec_len self.old.places }
        ensures placed { IsPlaced self.new }
        ensures seats { (seat : Seat) → slice_get (seats self.old) number ≡ Some seat → seats self.new ≡ slice_set (seats self.old) number (record seat { is_queued = true }) }
        ensures elsewhere { (seat : Seat) → slice_get (seats self.old) number ≡ Some seat → (other : ℕ) → other ≢ seat.queue → queued_of self.new.queues.items other ≡ queued_of self.old.queues.items other }
        ensures queues { vec_len self.new.queues ≡ vec_len self.old.queues }
    {
        let Position { queue, place } = self.places[number];
        let queued = self.queued(queue);
        if place < queued {
            self.relabel(queue, place, label, turn);
            self.settle(queue, place);
        } else {
            self.exchange(queue, place, queued);
            self.admit(queue);
            self.relabel(queue, queued, label, turn);
            self.rise(queue, queued);
        }
    }

    /// The number isn't in its queue from now on.
    pub(crate) fn remove(&mut self, number: usize)
        requires placed { IsPlaced self.old }
        requires number { number < vec_len self.old.places }
        ensures placed { IsPlaced self.new }
        ensures seats { (seat : Seat) → slice_get (seats self.old) number ≡ Some seat → seats self.new ≡ slice_set (seats self.old) number (record seat { is_queued = false }) }
        ensures elsewhere { (seat : Seat) → slice_get (seats self.old) number ≡ Some seat → (other : ℕ) → other ≢ seat.queue → queued_of self.new.queues.items other ≡ queued_of self.old.queues.items other }
        ensures queues { vec_len self.new.queues ≡ vec_len self.old.queues }
    {
        let Position { queue, place } = self.places[number];
        let queued = self.queued(queue);
        if place < queued {
            self.exchange(queue, place, queued - 1);
            self.dismiss(queue);
            if place < queued - 1 {
                self.settle(queue, place);
            }
        }
    }

    /// The number is in its queue from now on, at this label, or isn't.
    pub(crate) fn put(&mut self, number: usize, is_queued: bool, label: u32)
        requires placed { IsPlaced self.old }
        requires number { number < vec_len self.old.places }
        ensures placed { IsPlaced self.new }
        ensures seats { (seat : Seat) → slice_get (seats self.old) number ≡ Some seat → seats self.new ≡ slice_set (seats self.old) number (record seat { is_queued = is_queued }) }
        ensures elsewhere { (seat : Seat) → slice_get (seats self.old) number ≡ Some seat → (other : ℕ) → other ≢ seat.queue → queued_of self.new.queues.items other ≡ queued_of self.old.queues.items other }
        ensures queues { vec_len self.new.queues ≡ vec_len self.old.queues }
    {
        if is_queued {
            self.push(number, label, 0);
        } else {
            self.remove(number);
        }
    }

    /// A queue takes in the first of its members that isn't in it.
    fn admit(&mut self, queue: usize)
        requires placed { IsPlaced self.old }
        requires within { queued_of self.old.queues.items queue < length (numbers_of self.old.queues.items queue) }
        ensures placed { IsPlaced self.new }
        ensures seats { (number : ℕ) → slice_get (numbers_of self.old.queues.items queue) (queued_of self.old.queues.items queue) ≡ Some number
            → seats self.new ≡ slice_set (seats self.old) number (record { queue = queue; is_queued = true }) }
        ensures queued { queued_of self.new.queues.items queue ≡ queued_of self.old.queues.items queue + 1 }
        ensures elsewhere { (other : ℕ) → other ≢ queue → queued_of self.new.queues.items other ≡ queued_of self.old.queues.items other }
        ensures queues { vec_len self.new.queues ≡ vec_len self.old.queues }
    {
        self.queues[queue].queued += 1;
    }

    /// A queue lets out the last of its members that is in it.
    fn dismiss(&mut self, queue: usize)
        requires placed { IsPlaced self.old }
        requires some { 0 < queued_of self.old.queues.items queue }
        ensures placed { IsPlaced self.new }
        ensures seats { (number : ℕ) → slice_get (numbers_of self.old.queues.items queue) (queued_of self.old.queues.items queue - 1) ≡ Some number
            → seats self.new ≡ slice_set (seats self.old) number (record { queue = queue; is_queued = false }) }
        ensures queued { queued_of self.new.queues.items queue + 1 ≡ queued_of self.old.queues.items queue }
        ensures elsewhere { (other : ℕ) → other ≢ queue → queued_of self.new.queues.items other ≡ queued_of self.old.queues.items other }
        ensures queues { vec_len self.new.queues ≡ vec_len self.old.queues }
    {
        self.queues[queue].queued -= 1;
    }
}

/// The heap of a queue.
impl Queues {
    /// The member at this place has this label and this turn.
    fn relabel(&mut self, queue: usize, place: usize, label: u32, turn: u32)
        requires placed { IsPlaced self.old }
        requires place { place < length (numbers_of self.old.queues.items queue) }
        ensures { IsRearranged self.old self.new }
    {
        let member = &mut self.queues[queue].members[place];
        member.label = label;
        member.turn = turn;
    }

    /// The member at this place.
    fn member(&self, queue: usize, place: usize) -> Member
        requires { place < length (numbers_of self.now.queues.items queue) }
    {
        self.queues[queue].members[place]
    }

    /// Whether the member at one place comes before that at another: by label, by turn and by number.
    fn precedes(&self, queue: usize, a: usize, b: usize) -> bool
        requires a { a < length (numbers_of self.now.queues.items queue) }
        requires b { b < length (numbers_of self.now.queues.items queue) }
    {
        let members = &self.queues[queue].members;
        let first = members[a];
        let second = members[b];
        if first.label != second.label {
            return first.label < second.label;
        }
        if first.turn != second.turn {
            return first.turn < second.turn;
        }
        first.number < second.number
    }

    /// Two members of a queue change places; both are in it, or neither is.
    fn exchange(&mut self, queue: usize, a: usize, b: usize)
        requires placed { IsPlaced self.old }
        requires a { a < length (numbers_of self.old.queues.items queue) }
        requires b { b < length (numbers_of self.old.queues.items queue) }
        requires side { nat_lt a (queued_of self.old.queues.items queue) ≡ nat_lt b (queued_of self.old.queues.items queue) }
        ensures same { IsRearranged self.old self.new }
        ensures moved { slice_get (numbers_of self.new.queues.items queue) b ≡ slice_get (numbers_of self.old.queues.items queue) a }
    {
        let members = &mut self.queues[queue].members;
        let first = members[a];
        let second = members[b];
        members[a] = second;
        members[b] = first;
        self.places[first.number] = Position { queue, place: b };
        self.places[second.number] = Position { queue, place: a };
    }

    /// The member at this place goes where its label belongs.
    fn settle(&mut self, queue: usize, place: usize)
        requires placed { IsPlaced self.old }
        requires inside { place < queued_of self.old.queues.items queue }
        ensures { IsRearranged self.old self.new }
    {
        self.rise(queue, place);
        self.sink(queue, place);
    }

    /// The member at this place goes up while the one above it has a greater label.
    fn rise(&mut self, queue: usize, place: usize)
        requires placed { IsPlaced self.old }
        requires inside { place < queued_of self.old.queues.items queue }
        ensures { IsRearranged self.old self.new }
    {
        let mut place = place;
        while place > 0 {
            let above = (place - 1) / 2;
            if !self.precedes(queue, place, above) {
                return;
            }
            self.exchange(queue, above, place);
            place = above;
        }
    }

    /// The member at this place goes down while one below it has a lesser label.
    fn sink(&mut self, queue: usize, place: usize)
        requires placed { IsPlaced self.old }
        requires inside { place < queued_of self.old.queues.items queue }
        ensures { IsRearranged self.old self.new }
    {
        let mut place = place;
        while let Some(below) = self.least_below(queue, place) {
            if !self.precedes(queue, below, place) {
                return;
            }
            self.exchange(queue, place, below);
            place = below;
        }
    }

    /// Of the two places below this one, that of the lesser label, if one of them is in the queue.
    fn least_below(&self, queue: usize, place: usize) -> Option<usize>
        requires placed { IsPlaced self.now }
        requires inside { place < queued_of self.now.queues.items queue }
        ensures { IfSome result (λ below. (place < below) × (below < queued_of self.now.queues.items queue)) }
    {
        let queued = self.queued(queue);
        if queued - place <= place + 1 {
            return None;
        }
        let left = place + place + 1;
        if left + 1 < queued && self.precedes(queue, left + 1, left) {
            return Some(left + 1);
        }
        Some(left)
    }
}
