//! Whether several workers requested nothing twice, found without memory: each worker's notes are put in order in
//! place, and what one noted is looked for among what each later one noted.
ghost use Rattle.std.specs.Prelude.{◌≡◌, IsTrue, All, IsPermutation};
ghost use Rattle.std.specs.List.{AllZip};
ghost use Rattle.frontier_core.specs.Tables.{IsOnce};
ghost use Rattle.workers.specs.inner.Apart.{AreInOrder, IsOrdered, AreNotedApart};
ghost use Rattle.workers.specs.inner.Notes.{addresses, origins};
ghost use Rattle.address.specs.AddressOrder.{IsAscending};
ghost use Rattle.workers.specs.inner.Seats.{page_notes, rules_notes};

use crate::comparison::{is_noted, is_origin_noted, sort_and_ascend};
use crate::note::{Notes, PageNote, RulesNote};
use crate::worker::Seat;

// Puts notes in order, and says whether nothing was noted twice.
fn sort_notes<B>(notes: &mut Notes<B>) -> bool
    ensures pages { IsPermutation notes.old.pages.items notes.new.pages.items }
    ensures rules { IsPermutation notes.old.rules.items notes.new.rules.items }
    ensures order { IsTrue result → AreInOrder notes.new }
{
    let are_pages_once = sort_and_ascend(&mut notes.pages);
    let are_rules_once = sort_and_ascend(&mut notes.rules);
    if !are_pages_once {
        return false;
    }
    are_rules_once
}

// Puts the notes of a seat in order, and says whether nothing was noted there twice.
fn sort_seat<F, B>(seat: &mut Seat<F, B>) -> bool
    ensures ordered { IsOrdered seat.old seat.new }
    ensures order { IsTrue result → AreInOrder seat.new.notes }
{
    sort_notes(&mut seat.notes)
}

// Puts the notes of each seat in order, and says whether nothing was noted twice at one.
fn sort_all<F, B>(seats: &mut [Seat<F, B>]) -> bool
    ensures ordered { AllZip IsOrdered seats.old seats.new }
    ensures order { IsTrue result → All (λ seat. AreInOrder seat.notes) seats.new }
{
    let Some((seat, others)) = seats.split_first_mut() else {
        return true;
    };
    let is_seat_once = sort_seat(seat);
    let are_others_once = sort_all(others);
    if !is_seat_once {
        return false;
    }
    are_others_once
}

// Whether none of these pages was noted among the others, which are in order.
fn are_pages_apart<B>(notes: &[PageNote<B>], others: &[PageNote<B>]) -> bool
    requires { IsAscending (addresses others.now) }
    ensures { IsTrue result → AreNotedApart (addresses notes.now) (addresses others.now) }
{
    for note in notes {
        if is_noted(others, &note.address) {
            return false;
        }
    }
    true
}

// Whether none of these origins was noted among the others, which are in order.
fn are_rules_apart(notes: &[RulesNote], others: &[RulesNote]) -> bool
    requires { IsAscending (origins others.now) }
    ensures { IsTrue result → AreNotedApart (origins notes.now) (origins others.now) }
{
    for note in notes {
        if is_origin_noted(others, &note.origin) {
            return false;
        }
    }
    true
}

// Whether nothing of these notes was noted among the others, which are in order.
fn are_notes_apart<B>(notes: &Notes<B>, others: &Notes<B>) -> bool
    requires { AreInOrder others.now }
    ensures pages { IsTrue result → AreNotedApart (addresses notes.now.pages.items) (addresses others.now.pages.items) }
    ensures rules { IsTrue result → AreNotedApart (origins notes.now.rules.items) (origins others.now.rules.items) }
{
    if !are_pages_apart(&notes.pages, &others.pages) {
        return false;
    }
    are_rules_apart(&notes.rules, &others.rules)
}

// Whether nothing of these notes was noted at the seats, whose notes are in order.
fn is_apart<F, B>(notes: &Notes<B>, seats: &[Seat<F, B>]) -> bool
    requires { All (λ seat. AreInOrder seat.notes) seats.now }
    ensures pages { IsTrue result → AreNotedApart (addresses notes.now.pages.items) (addresses (page_notes seats.now)) }
    ensures rules { IsTrue result → AreNotedApart (origins notes.now.rules.items) (origins (rules_notes seats.now)) }
{
    for seat in seats {
        if !are_notes_apart(notes, &seat.notes) {
            return false;
        }
    }
    true
}

// Whether nothing was noted at two of the seats, whose notes are in order.
fn are_apart<F, B>(seats: &[Seat<F, B>]) -> bool
    requires { All (λ seat. AreInOrder seat.notes) seats.now }
    ensures pages { IsTrue result → IsOnce (addresses (page_notes seats.now)) }
    ensures rules { IsTrue result → IsOnce (origins (rules_notes seats.now)) }
{
    let Some((seat, others)) = seats.split_first() else {
        return true;
    };
    if !is_apart(&seat.notes, others) {
        return false;
    }
    are_apart(others)
}

/// Whether nothing was noted twice. The notes of each seat are left in order. Takes no memory.
pub fn is_once_in_place<F, B>(seats: &mut [Seat<F, B>]) -> bool
    ensures ordered { AllZip IsOrdered seats.old seats.new }
    ensures pages { IsTrue result → IsOnce (addresses (page_notes seats.old)) }
    ensures rules { IsTrue result → IsOnce (origins (rules_notes seats.old)) }
{
    if !sort_all(seats) {
        return false;
    }
    are_apart(seats)
}
