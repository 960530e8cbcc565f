//! The open connections: how many to each server and in all, and which of them waits longest.
ghost use Rattle.std.specs.Prelude.{◌≡◌, ◌+◌, ◌<◌, ◌≤◌, ℕ, true, false, is_some, length, MatchOption, IfSome, IfNone, IfOk, None, Some, slice_get, slice_set, remove, ◌++◌, ◌∷◌, [], ◌↔◌, IsTrue, OnErr, Option, option_copied, string_bytes};
ghost use Rattle.tcp_connect.specs.Standing.{Stand, Pool, waits, is_to, waits_for, has_number, count_to, NonePasses, IsFirst, IsLastStand, HasStandRoom, Removes, EndsFirst, TakesStand, MakesRoom, AddsStand, PutsDown, Leaves};

use std::alloc::{AllocError, Global};
use std::marker::Model;

/// The most that are open at one time.
pub(crate) const MOST: usize = 64;

// An open connection: its number, the text of the origin that it was made for, and what waits there, if it isn't in use.
#[derive(Drop)]
pub(crate) struct OpenConnection<W> {
    number: u64,
    of: String,
    waiting: Option<W>,
}

impl<W> Model for OpenConnection<W> {
    ghost use Rattle.std.specs.Prelude.{string_bytes};
    ghost use Rattle.tcp_connect.specs.Standing.{Stand};

    ghost Value = { Stand W };

    ghost view = { λ p. record { number = p.number; of = string_bytes p.of; waiting = p.waiting } };
}

impl<W> OpenConnection<W> {
    fn number(&self) -> u64
        ensures { result ≡ self.now.number }
    {
        self.number
    }

    // This waits there from now on.
    fn put(&mut self, waiting: W)
    where
        W: Drop,
        ensures { self.new ≡ record self.old { waiting = Some waiting } }
    {
        self.waiting = Some(waiting);
    }

    // What waits there, which is in use from now on.
    fn take(&mut self) -> Option<W>
        ensures value { result ≡ self.old.waiting }
        ensures after { self.new ≡ record self.old { waiting = None } }
    {
        self.waiting.take()
    }

    // What waits there.
    fn waiting(&self) -> Option<&W>
        ensures { option_copied result ≡ self.now.waiting }
    {
        self.waiting.as_ref()
    }

    // What waits there, which isn't open any more.
    fn into_waiting(self) -> Option<W>
        ensures { result ≡ self.waiting }
    {
        let OpenConnection { waiting, .. } = self;
        waiting
    }

    fn has_number(&self, number: u64) -> bool
        ensures { result ≡ has_number number self.now }
    {
        self.number == number
    }

    fn waits(&self) -> bool
        ensures { result ≡ waits self.now }
    {
        self.waiting.is_some()
    }

    fn is_to(&self, of: &str) -> bool
        ensures { result ≡ is_to of.now self.now }
    {
        self.of.as_str() == of
    }

    fn waits_for(&self, of: &str) -> bool
        ensures { result ≡ waits_for of.now self.now }
    {
        self.waits() && self.is_to(of)
    }
}

// The first of those that wait.
fn first_waiting<W>(places: &[OpenConnection<W>]) -> Option<usize>
    ensures { MatchOption result (NonePasses waits places.now) (λ at. (stand : Stand W) × IsFirst waits places.now at stand) }
{
    places.iter().position(|it| it.waits())
}

// The first of those that wait for this origin.
fn first_waiting_for<W>(places: &[OpenConnection<W>], of: &str) -> Option<usize>
    ensures { MatchOption result (NonePasses (waits_for of.now) places.now) (λ at. (stand : Stand W) × IsFirst (waits_for of.now) places.now at stand) }
{
    places.iter().position(|it| it.waits_for(of))
}

// The last of those that wait for this origin.
fn last_waiting_for<W>(places: &[OpenConnection<W>], of: &str) -> Option<usize>
    ensures { MatchOption result (NonePasses (waits_for of.now) places.now) (λ at. (stand : Stand W) × IsLastStand (waits_for of.now) places.now at stand) }
{
    places.iter().rposition(|it| it.waits_for(of))
}

// The one of this number.
fn numbered<W>(places: &[OpenConnection<W>], number: u64) -> Option<usize>
    ensures { MatchOption result (NonePasses (has_number number) places.now) (λ at. (stand : Stand W) × IsFirst (has_number number) places.now at stand) }
{
    places.iter().position(|it| it.has_number(number))
}

// How many of these are connections to an origin.
fn count<W>(places: &[OpenConnection<W>], of: &str) -> usize
    ensures { result ≡ count_to places.now of.now }
{
    places.iter().filter(|it| it.is_to(of)).count()
}

// The result of a request for a place: the place's number, if there is room for it, and one that waited, which has to go.
#[derive(Drop)]
pub(crate) struct Entered<W> {
    pub(crate) place: Option<u64>,
    pub(crate) ended: Option<W>,
}

// The open ones. One that is put down to wait goes to the end, so those that wait are in the order of their waits.
#[derive(Drop)]
pub(crate) struct OpenConnections<W> {
    places: Vec<OpenConnection<W>>,
    entered: u64,
}

// Contracts see what is open, and how many were entered. Of every value it holds that no more are open than may be, each by a
// number of its own.
impl<W> Model for OpenConnections<W> {
    ghost use Rattle.tcp_connect.specs.Standing.{Pool, IsStandPool};

    ghost Value = { Pool W };

    ghost view = { λ s. record { stands = s.places.items; entered = s.entered } };

    ghost invariant = { λ s. IsStandPool (record { stands = s.places.items; entered = s.entered }) };
}

impl<W> OpenConnections<W> {
    // None is open. Takes no memory.
    pub(crate) fn new(alloc: Global) -> OpenConnections<W>
        ensures { result ≡ record { stands = []; entered = 0 } }
    {
        OpenConnections {
            places: Vec::new(alloc),
            entered: 0,
        }
    }

    // The one to this origin that was put down last, which is in use from now on.
    pub(crate) fn take(&mut self, of: &str) -> Option<(u64, W)>
        ensures { TakesStand of.now self.old result self.new }
    {
        let at = last_waiting_for(&self.places, of)?;
        let place = &mut self.places[at];
        let number = place.number();
        let waiting = place.take()?;
        Some((number, waiting))
    }

    // The one that waits longest.
    pub(crate) fn oldest(&self) -> Option<&W>
        ensures { MatchOption result (NonePasses waits self.now.stands) (λ waiting. (at : ℕ) × (stand : Stand W) × IsFirst waits self.now.stands at stand × (stand.waiting ≡ Some waiting.now)) }
    {
        let at = first_waiting(&self.places)?;
        self.places[at].waiting()
    }

    // Whether one more to this origin may be open, of which so many may be.
    fn has_room(&self, of: &str, most: usize) -> bool
        ensures { IsTrue result ↔ HasStandRoom of.now most self.now }
    {
        self.places.len() < MOST && count(&self.places, of) < most && self.entered < u64::MAX
    }

    // One more is open to this origin, if there is room for it, and is in use; this gives its number.
    fn add(&mut self, of: String, most: usize) -> Result<Option<u64>, AllocError>
    where
        W: Drop,
        ensures ok { IfOk result (λ place. AddsStand (string_bytes of) most self.old place self.new) }
        ensures err { OnErr result (self.new ≡ self.old) }
        ensures whole { length self.new.stands ≤ MOST }
    {
        if !self.has_room(of.as_str(), most) {
            return Ok(None);
        }
        let number = self.entered;
        let place = OpenConnection {
            number,
            of,
            waiting: None,
        };
        let Ok(()) = self.places.push(place) else {
            return Err(AllocError);
        };
        self.entered = number + 1;
        Ok(Some(number))
    }
}

impl<W: Drop> OpenConnections<W> {
    // Takes the one there away, with what waits there.
    fn remove(&mut self, at: usize) -> Option<W>
        requires { at < length self.old.stands }
        ensures { Removes at self.old result self.new }
    {
        self.places.remove(at).into_waiting()
    }

    // Takes the one that waits longest, which isn't open any more.
    pub(crate) fn take_oldest(&mut self) -> Option<W>
        ensures { EndsFirst waits self.old result self.new }
    {
        let at = first_waiting(&self.places)?;
        self.remove(at)
    }

    // Takes one away that waits, if there is no room for one more to this origin, or for one more at all.
    fn make_room(&mut self, of: &str, most: usize) -> Option<W>
        ensures { MakesRoom of.now most self.old result self.new }
    {
        if count(&self.places, of) >= most {
            let at = first_waiting_for(&self.places, of)?;
            return self.remove(at);
        }
        if self.places.len() >= MOST {
            return self.take_oldest();
        }
        None
    }

    // A place for a new one to an origin, of which so many may be open. One that waits goes for it if there is no room.
    pub(crate) fn enter(&mut self, of: String, most: usize) -> Result<Entered<W>, AllocError>
        ensures ok { IfOk result (λ entered. (left : Pool W) × MakesRoom (string_bytes of) most self.old entered.ended left × AddsStand (string_bytes of) most left entered.place self.new) }
        ensures err { OnErr result ((ended : Option W) × MakesRoom (string_bytes of) most self.old ended self.new) }
        ensures origin { IfOk result (λ entered. IfSome entered.place (λ _. count_to self.new.stands (string_bytes of) ≤ most)) }
        ensures whole { length self.new.stands ≤ MOST }
    {
        let ended = self.make_room(of.as_str(), most);
        let place = self.add(of, most)?;
        Ok(Entered { place, ended })
    }

    // Puts one down to wait. It comes back if none has this number.
    pub(crate) fn put(&mut self, number: u64, waiting: W) -> Option<W>
        ensures { PutsDown number waiting self.old result self.new }
    {
        let Some(at) = numbered(&self.places, number) else {
            return Some(waiting);
        };
        let mut place = self.places.remove(at);
        place.put(waiting);
        // There is room for the one that was removed.
        let _ = self.places.push(place);
        None
    }

    // The one of this number isn't open any more.
    pub(crate) fn leave(&mut self, number: u64)
        ensures { Leaves number self.old self.new }
    {
        if let Some(at) = numbered(&self.places, number) {
            drop(self.remove(at));
        }
    }
}
