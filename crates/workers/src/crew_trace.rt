//! The workers that the lines of a trace name.
ghost use Rattle.std.specs.Prelude.{◌≡◌, ◌↔◌, ◌<◌, All, IsTrue, IfSome};
ghost use Rattle.address.specs.AddressOrder.{IsAscending};
ghost use Rattle.workers.specs.inner.Apart.{AreInOrder};
ghost use Rattle.workers.specs.inner.Notes.{addresses, origins};
ghost use Rattle.workers.specs.OneWorker.{worker_of, AreByCrew};
ghost use Rattle.workers.specs.inner.Takers.{IsNotedBy, AreNotedBy};

use crate::note::{Notes, PageNote, RulesNote};
use address::{Address, Origin};
use frontier_core::Event;

// The worker that a line names.
fn worker_of(event: &Event) -> Option<u32>
    ensures { result ≡ worker_of event.now }
{
    match event {
        Event::Page(worker, _)
        | Event::Rules(worker, _)
        | Event::Answer(worker, _)
        | Event::Ruled(worker, _)
        | Event::Abandon(worker, _)
        | Event::AbandonRules(worker, _) => Some(*worker),
        Event::Opened(_) | Event::Spread(_, _, _) | Event::Part(_, _, _) | Event::Stop(_) => None,
    }
}

// Whether a line names one of the first so many workers, or none.
fn is_by_crew(event: &Event, workers: usize) -> bool
    ensures { IsTrue result ↔ IfSome (worker_of event.now) (λ worker. worker < workers) }
{
    match worker_of(event) {
        Some(worker) => (worker as usize) < workers,
        None => true,
    }
}

/// Whether the lines name no worker except the first so many, which are counted from 0.
pub fn are_by_crew(trace: &[Event], workers: usize) -> bool
    ensures { IsTrue result ↔ AreByCrew workers trace.now }
{
    for event in trace {
        if !is_by_crew(event, workers) {
            return false;
        }
    }
    true
}

// Whether the page was noted by this worker, if it was noted, in notes that are in address order.
fn is_page_by<B>(notes: &[PageNote<B>], worker: u32, address: &Address) -> bool
    requires { IsAscending (addresses notes.now) }
    ensures { IsTrue result ↔ All (λ note. note.address ≡ address.now → note.worker ≡ worker) notes.now }
{
    match notes.binary_search_by(|note| note.address.cmp(address)) {
        Ok(k) => notes[k].worker == worker,
        Err(_) => true,
    }
}

// Whether the origin's rules were noted by this worker, if they were noted, in notes that are in origin order.
fn are_rules_by(notes: &[RulesNote], worker: u32, origin: &Origin) -> bool
    requires { IsAscending (origins notes.now) }
    ensures { IsTrue result ↔ All (λ note. note.origin ≡ origin.now → note.worker ≡ worker) notes.now }
{
    match notes.binary_search_by(|note| note.origin.cmp(origin)) {
        Ok(k) => notes[k].worker == worker,
        Err(_) => true,
    }
}

// Whether what a line says that a worker took was noted by that worker, if it was noted.
fn is_noted_by<B>(event: &Event, notes: &Notes<B>) -> bool
    requires { AreInOrder notes.now }
    ensures { IsTrue result ↔ IsNotedBy notes.now.pages.items notes.now.rules.items event.now }
{
    match event {
        Event::Page(worker, address) => is_page_by(&notes.pages, *worker, address),
        Event::Rules(worker, origin) => are_rules_by(&notes.rules, *worker, origin),
        Event::Opened(_)
        | Event::Answer(_, _)
        | Event::Ruled(_, _)
        | Event::Spread(_, _, _)
        | Event::Part(_, _, _)
        | Event::Abandon(_, _)
        | Event::AbandonRules(_, _)
        | Event::Stop(_) => true,
    }
}

// Whether by the lines each thing was noted by who took it, in notes that are in the order of addresses and origins.
fn are_noted_by<B>(trace: &[Event], notes: &Notes<B>) -> bool
    requires { AreInOrder notes.now }
    ensures { IsTrue result ↔ AreNotedBy notes.now.pages.items notes.now.rules.items trace.now }
{
    for event in trace {
        if !is_noted_by(event, notes) {
            return false;
        }
    }
    true
}

/// Whether by the lines each thing was noted by who took it, in notes that are in the order of addresses and origins. If it
/// is known already that it is so, nothing is looked for. Takes no memory.
pub fn are_taken_by<B>(is_followed: bool, trace: &[Event], notes: &Notes<B>) -> bool
    requires order { AreInOrder notes.now }
    requires followed { IsTrue is_followed → AreNotedBy notes.now.pages.items notes.now.rules.items trace.now }
    ensures { IsTrue result ↔ AreNotedBy notes.now.pages.items notes.now.rules.items trace.now }
{
    if is_followed {
        return true;
    }
    are_noted_by(trace, notes)
}
