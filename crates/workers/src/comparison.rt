//! The comparison of what the workers noted with what is in the table.
ghost use Rattle.std.specs.Prelude.{◌≡◌, ◌↔◌, ◌≤◌, ℕ, false, List, All, Contains, IsSome, IsTrue, IsPermutation, length, map};
ghost use Rattle.std.specs.List.{filter_map};
ghost use Rattle.frontier_core.specs.Readers.{record_of};
ghost use Rattle.frontier_core.specs.Machine.{answers};
ghost use Rattle.frontier_core.specs.Tables.{Text, IsOnce};
ghost use Rattle.workers.specs.inner.Apart.{AreInOrder};
ghost use Rattle.workers.specs.inner.Notes.{addresses, origins};
ghost use Rattle.workers.specs.inner.Noted.{StandsPage, StandsRules, Agrees};
ghost use Rattle.address.specs.AddressOrder.{IsAscending};

use crate::note::{Notes, PageNote, RulesNote};
use address::{Address, Origin};
use frontier_core::Frontier;
use harvest::{Named, order_nearly};

/// Sorts things by their names' bytes, and says whether no two are named alike.
pub fn sort_and_ascend<T: Named>(things: &mut Vec<T>) -> bool
    ensures permutation { IsPermutation things.old.items things.new.items }
    ensures ascending { IsTrue result → IsAscending (map T.text_of things.new.items) }
    ensures once { IsTrue result ↔ IsOnce (map T.text_of things.new.items) }
{
    things.sort_unstable_by(|thing, other| thing.name().cmp(other.name()));
    ascend(things)
}

/// The same, if there is memory by a few bytes of each name first, and then by the sort that keeps runs, so that few names
/// are compared.
pub fn order_and_ascend<T: Named>(things: &mut Vec<T>) -> bool
    ensures permutation { IsPermutation things.old.items things.new.items }
    ensures ascending { IsTrue result → IsAscending (map T.text_of things.new.items) }
    ensures once { IsTrue result ↔ IsOnce (map T.text_of things.new.items) }
{
    order_nearly(things);
    match things.sort_by(|thing, other| thing.name().cmp(other.name())) {
        Ok(()) => ascend(things),
        Err(_) => sort_and_ascend(things),
    }
}

// Whether each name is before the next one.
fn ascend<T: Named>(things: &[T]) -> bool
    ensures { IsTrue result ↔ IsAscending (map T.text_of things.now) }
{
    for k in 1..things.len() {
        let (thing, next) = (&things[k - 1], &things[k]);
        if !thing.name().cmp(next.name()).is_lt() {
            return false;
        }
    }
    true
}

// Whether what was noted of a page is in the table.
fn page_stands<B>(frontier: &Frontier, note: &PageNote<B>) -> bool
    ensures { IsTrue result ↔ StandsPage frontier.now.state note.now }
{
    match &note.outcome {
        Some(outcome) => match frontier.outcome_of(&note.address) {
            Some(recorded) => outcome.same(recorded),
            None => false,
        },
        None => frontier.is_given_up(&note.address),
    }
}

// Whether what was noted of an origin is in the table.
fn rules_stand(frontier: &Frontier, note: &RulesNote) -> bool
    ensures { IsTrue result ↔ StandsRules frontier.now.state note.now }
{
    match &note.rules {
        Some(rules) => match frontier.rules_of(&note.origin) {
            Some(known) => rules.same(known),
            None => false,
        },
        None => frontier.are_rules_given_up(&note.origin),
    }
}

// Whether all that was noted of pages is in the table.
fn pages_stand<B>(frontier: &Frontier, notes: &[PageNote<B>]) -> bool
    ensures { IsTrue result ↔ All (StandsPage frontier.now.state) notes.now }
{
    for note in notes {
        if !page_stands(frontier, note) {
            return false;
        }
    }
    true
}

// Whether all that was noted of origins is in the table.
fn all_rules_stand(frontier: &Frontier, notes: &[RulesNote]) -> bool
    ensures { IsTrue result ↔ All (StandsRules frontier.now.state) notes.now }
{
    for note in notes {
        if !rules_stand(frontier, note) {
            return false;
        }
    }
    true
}

/// Whether an address was noted, in notes that are in address order.
pub fn is_noted<B>(notes: &[PageNote<B>], address: &Address) -> bool
    ensures found { IsTrue result → Contains (addresses notes.now) address.now }
    ensures absent { IsAscending (addresses notes.now) → result ≡ false → ¬ Contains (addresses notes.now) address.now }
{
    notes
        .binary_search_by(|note| note.address.cmp(address))
        .is_ok()
}

/// Whether an origin was noted, in notes that are in origin order.
pub fn is_origin_noted(notes: &[RulesNote], origin: &Origin) -> bool
    ensures found { IsTrue result → Contains (origins notes.now) origin.now }
    ensures absent { IsAscending (origins notes.now) → result ≡ false → ¬ Contains (origins notes.now) origin.now }
{
    notes
        .binary_search_by(|note| note.origin.cmp(origin))
        .is_ok()
}

// Whether what is recorded was noted, in notes that are in address order.
fn records_are_noted<B>(frontier: &Frontier, notes: &[PageNote<B>]) -> bool
    ensures noted { IsTrue result → (u : Text) → IsSome ((answers frontier.now.state).outcome u) → Contains (addresses notes.now) u }
    ensures missing { IsAscending (addresses notes.now) → ((u : Text) → IsSome ((answers frontier.now.state).outcome u) → Contains (addresses notes.now) u) → IsTrue result }
{
    let mut records = frontier.records();
    'records: while let Some((address, _outcome)) = records.next() {
        if !is_noted(notes, address) {
            return false;
        }
    }
    true
}

// Whether something was received of each page.
fn are_answered<B>(notes: &[PageNote<B>]) -> bool
    ensures { IsTrue result → All (λ note. IsSome note.outcome) notes.now }
{
    for note in notes {
        if note.outcome.is_none() {
            return false;
        }
    }
    true
}

// Whether no more pages are recorded than were noted.
fn are_no_more<B>(frontier: &Frontier, notes: &[PageNote<B>]) -> bool
    ensures { IsTrue result → length (filter_map record_of frontier.now.state.entries) ≤ length notes.now }
{
    let mut left = notes.len();
    let mut records = frontier.records();
    'records: while let Some((_address, _outcome)) = records.next() {
        if left == 0 {
            return false;
        }
        left -= 1;
    }
    true
}

// Whether what is recorded was noted, in notes that are in address order and are in the table. If each note is for
// a record of its own, and there are no more records than notes, each record has its note, and none is looked for.
fn all_are_noted<B>(frontier: &Frontier, notes: &[PageNote<B>]) -> bool
    requires once { IsOnce (addresses notes.now) }
    requires stand { All (StandsPage frontier.now.state) notes.now }
    ensures noted { IsTrue result → (u : Text) → IsSome ((answers frontier.now.state).outcome u) → Contains (addresses notes.now) u }
    ensures missing { IsAscending (addresses notes.now) → ((u : Text) → IsSome ((answers frontier.now.state).outcome u) → Contains (addresses notes.now) u) → IsTrue result }
{
    if are_answered(notes) {
        if are_no_more(frontier, notes) {
            return true;
        }
    }
    records_are_noted(frontier, notes)
}

// Whether what is known of origins was noted, in notes that are in origin order.
fn known_rules_are_noted(frontier: &Frontier, notes: &[RulesNote]) -> bool
    ensures noted { IsTrue result → (o : Text) → IsSome ((answers frontier.now.state).rules o) → Contains (origins notes.now) o }
    ensures missing { IsAscending (origins notes.now) → ((o : Text) → IsSome ((answers frontier.now.state).rules o) → Contains (origins notes.now) o) → IsTrue result }
{
    let mut rules = frontier.rules();
    'rules: while let Some((origin, _set)) = rules.next() {
        if !is_origin_noted(notes, origin) {
            return false;
        }
    }
    true
}

/// Whether notes agree with the table. If they do they are left in the order of addresses and origins. Takes memory for a while, and does without if there is none.
pub fn agree<B>(frontier: &Frontier, notes: &mut Notes<B>) -> bool
    ensures pages { IsPermutation notes.old.pages.items notes.new.pages.items }
    ensures rules { IsPermutation notes.old.rules.items notes.new.rules.items }
    ensures order { IsTrue result → AreInOrder notes.new }
    ensures agrees { IsTrue result ↔ Agrees frontier.now.state notes.new.pages.items notes.new.rules.items }
{
    // In the order in which they were noted, so that the table is walked nearly in its own.
    if !pages_stand(frontier, &notes.pages) {
        return false;
    }
    if !all_rules_stand(frontier, &notes.rules) {
        return false;
    }
    let is_once = order_and_ascend(&mut notes.pages);
    let is_once_asked = order_and_ascend(&mut notes.rules);
    if !is_once {
        return false;
    }
    if !is_once_asked {
        return false;
    }
    if !all_are_noted(frontier, &notes.pages) {
        return false;
    }
    known_rules_are_noted(frontier, &notes.rules)
}
