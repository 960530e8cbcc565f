//! Whether the lines of a trace take what was noted in the order in which it was noted, worker by worker: one walk, by places
//! alone. That it doesn't find so says nothing.
ghost use Rattle.std.specs.Prelude.{◌≡◌, All, IsTrue};
ghost use Rattle.frontier_core.specs.Tables.{IsOnce};
ghost use Rattle.workers.specs.inner.Notes.{addresses, origins};
ghost use Rattle.workers.specs.inner.Takers.{IsNotedBy, AreNotedBy};

use crate::note::{Notes, PageNote, RulesNote};
use address::{Address, Origin};
use frontier_core::Event;

/// Workers are numbered below this.
const MOST: usize = 64;

// Whether the page was noted by this worker at this place.
fn is_page_at<B>(notes: &[PageNote<B>], place: usize, worker: u32, address: &Address) -> bool
    ensures { IsTrue result → IsOnce (addresses notes.now) → All (λ note. note.address ≡ address.now → note.worker ≡ worker) notes.now }
{
    if place >= notes.len() {
        return false;
    }
    if notes[place].worker != worker {
        return false;
    }
    notes[place].address == *address
}

// Whether the origin's rules were noted by this worker at this place.
fn are_rules_at(notes: &[RulesNote], place: usize, worker: u32, origin: &Origin) -> bool
    ensures { IsTrue result → IsOnce (origins notes.now) → All (λ note. note.origin ≡ origin.now → note.worker ≡ worker) notes.now }
{
    if place >= notes.len() {
        return false;
    }
    if notes[place].worker != worker {
        return false;
    }
    notes[place].origin == *origin
}

// Each worker's place in the notes, which moves on.
#[derive(Drop)]
struct Places {
    pages: [usize; MOST],
    rules: [usize; MOST],
}

impl Places {
    // Where the notes of each worker begin.
    fn first<B>(notes: &Notes<B>) -> Self {
        let mut pages = [0usize; MOST];
        for seen in 0..notes.pages.len() {
            let place = notes.pages.len() - 1 - seen;
            if let Some(first) = pages.get_mut(notes.pages[place].worker as usize) {
                *first = place;
            }
        }
        let mut rules = [0usize; MOST];
        for seen in 0..notes.rules.len() {
            let place = notes.rules.len() - 1 - seen;
            if let Some(first) = rules.get_mut(notes.rules[place].worker as usize) {
                *first = place;
            }
        }
        Places { pages, rules }
    }
}

// The worker's place, which moves on.
fn step(places: &mut [usize], worker: u32) -> Option<usize> {
    let place = places.get_mut(worker as usize)?;
    let at = *place;
    *place = at.saturating_add(1);
    Some(at)
}

// Whether the page was noted next by this worker.
fn is_page_next<B>(
    notes: &[PageNote<B>],
    places: &mut [usize],
    worker: u32,
    address: &Address,
) -> bool
    ensures { IsTrue result → IsOnce (addresses notes.now) → All (λ note. note.address ≡ address.now → note.worker ≡ worker) notes.now }
{
    match step(places, worker) {
        Some(place) => is_page_at(notes, place, worker, address),
        None => false,
    }
}

// Whether the origin's rules were noted next by this worker.
fn are_rules_next(notes: &[RulesNote], places: &mut [usize], worker: u32, origin: &Origin) -> bool
    ensures { IsTrue result → IsOnce (origins notes.now) → All (λ note. note.origin ≡ origin.now → note.worker ≡ worker) notes.now }
{
    match step(places, worker) {
        Some(place) => are_rules_at(notes, place, worker, origin),
        None => false,
    }
}

// Whether what a line says that a worker took was noted next by that worker.
fn is_next<B>(event: &Event, notes: &Notes<B>, places: &mut Places) -> bool
    ensures { IsTrue result → IsOnce (addresses notes.now.pages.items) → IsOnce (origins notes.now.rules.items) → IsNotedBy notes.now.pages.items notes.now.rules.items event.now }
{
    match event {
        Event::Page(worker, address) => {
            is_page_next(&notes.pages, &mut places.pages, *worker, address)
        }
        Event::Rules(worker, origin) => {
            are_rules_next(&notes.rules, &mut places.rules, *worker, origin)
        }
        Event::Opened(_)
        | Event::Answer(_, _)
        | Event::Ruled(_, _)
        | Event::Spread(_, _, _)
        | Event::Part(_, _, _)
        | Event::Abandon(_, _)
        | Event::AbandonRules(_, _)
        | Event::Stop(_) => true,
    }
}

/// Whether by the lines each worker took what it noted in the order of its notes, which are worker by worker. Takes no memory.
pub fn are_followed<B>(trace: &[Event], notes: &Notes<B>) -> bool
    ensures { IsTrue result → IsOnce (addresses notes.now.pages.items) → IsOnce (origins notes.now.rules.items) → AreNotedBy notes.now.pages.items notes.now.rules.items trace.now }
{
    let mut places = Places::first(notes);
    for event in trace {
        if !is_next(event, notes, &mut places) {
            return false;
        }
    }
    true
}
