//! The table of labels: addresses with the least depth offered, numbered in order of discovery.
ghost use Rattle.std.specs.Prelude.{◌≡◌, ◌↔◌, ◌<◌, ◌≤◌, ◌^◌, ℕ, false, [], ◌∷◌, ◌++◌, Some, None, length, slice_get, position, map, bytes_eq, IfOk, OnOk, OnErr, IsOk, IsSome, IsTrue};
ghost use Rattle.address.specs.Address.{AddressText};
ghost use Rattle.depth_labels.specs.Depths.{depth_at, after_offer, lowered_at, lesser};
ghost use Rattle.depth_labels.specs.Offers.{offer_of};

use address::Address;
use indexmap::IndexMap;
use indexmap::map::Iter;
use std::alloc::{AllocError, Global};
use std::marker::Model;

/// What became of an offer.
#[derive(Clone, Copy, Debug, PartialEq, Eq)]
pub enum Offer {
    /// The address wasn't held; it is now, at the offered depth.
    New,
    /// The offered depth is less than the one that was held, and has taken its place.
    Lowered,
    /// The depth that was held is no greater, and stays.
    Kept,
}

/// Why an offer was refused. The table is as it was.
#[derive(Clone, Copy, Debug, PartialEq, Eq)]
pub enum LabelFault {
    /// The address is new, and as many are held as may be.
    Full,
    /// The address is new, and no memory was found for it.
    Memory,
}

/// Addresses in order of discovery, each with the least depth that was offered. Contracts see the list of pairs, the most that may be held, and for
/// how many new ones there is memory already.
#[derive(Drop)]
pub struct Labels {
    table: IndexMap<Address, u32>,
    max: u32,
}

impl Model for Labels {
    ghost use Rattle.std.specs.Prelude.{◌≤◌, ◌<◌, ◌^◌, length};
    ghost use Rattle.indexmap.specs.IndexMap.{spare};
    ghost use Rattle.depth_labels.specs.Depths.{Table};

    ghost Value = { Table };

    ghost view = { λ labels. record { most = labels.max; depths = labels.table.entries; room = spare labels.table } };

    ghost invariant = { λ labels. (length labels.table.entries ≤ labels.max) × (labels.max < 2 ^ 32) };
}

impl Labels {
    /// An empty table for at most `max` addresses. Takes no memory.
    pub fn new(alloc: Global, max: u32) -> Self
        ensures most { result.most ≡ max }
        ensures empty { result.depths ≡ [] }
    {
        Labels {
            table: IndexMap::new(alloc),
            max,
        }
    }

    /// Offers a depth for an address: a new address is held at it, a lesser depth lowers a held one, and any other changes nothing.
    ///
    /// The refusals are `Full`, if the address is new and as many are held as may be, and `Memory`; an address that is held is never refused. A
    /// refused offer changes nothing.
    pub fn offer(&mut self, address: &Address, depth: u32) -> Result<Offer, LabelFault>
        ensures ok { IfOk result (λ offer. offer ≡ offer_of (depth_at self.old.depths address.now) depth) }
        ensures table { OnOk result (self.new ≡ record self.old { depths = after_offer self.old.depths address.now depth (depth_at self.old.depths address.now); room = self.new.room }) }

        // The address is then held at the lesser depth, and each other one as before.
        ensures least { OnOk result (depth_at self.new.depths address.now ≡ Some (lesser (depth_at self.old.depths address.now) depth)) }
        ensures others { (other : AddressText) → bytes_eq other address.now ≡ false → depth_at self.new.depths other ≡ depth_at self.old.depths other }

        ensures full { (result ≡ Err LabelFault.Full) ↔ ((depth_at self.old.depths address.now ≡ None) × (length self.old.depths ≡ self.old.most)) }
        ensures held { IsSome (depth_at self.old.depths address.now) → IsOk result }
        ensures err { OnErr result (self.new ≡ record self.old { room = self.new.room }) }
    {
        if let Some(number) = self.find(address) {
            return Ok(self.offer_at(number, depth));
        }
        let max = self.max;
        if let Err(fault) = self.reserve(max) {
            return Err(fault);
        }
        match address.try_clone() {
            Ok(key) => {
                self.add(key, depth);
                Ok(Offer::New)
            }
            Err(AllocError) => Err(LabelFault::Memory),
        }
    }

    /// Offers a depth for the address of this number: a lesser depth lowers the held one, and any other changes nothing. Takes no memory.
    pub fn offer_at(&mut self, number: u32, depth: u32) -> Offer
        requires { number < length self.old.depths }
        ensures offer { (held : ℕ) → slice_get (map (λ entry. entry.1) self.old.depths) number ≡ Some held → result ≡ offer_of (Some held) depth }
        ensures depths { (held : ℕ) → slice_get (map (λ entry. entry.1) self.old.depths) number ≡ Some held → self.new.depths ≡ lowered_at self.old.depths number depth held }
        ensures most { self.new.most ≡ self.old.most }
    {
        lower(&mut self.table, number as usize, depth)
    }

    /// Makes room for one new address among at most `max`, which is the most that may be held from then on.
    ///
    /// The refusals are `Full`, if `max` are held, and `Memory`. No address and no depth changes.
    pub fn reserve(&mut self, max: u32) -> Result<(), LabelFault>
        requires { length self.old.depths ≤ max }
        ensures ok { OnOk result (0 < self.new.room) }
        ensures full { (result ≡ Err LabelFault.Full) ↔ (length self.old.depths ≡ max) }
        ensures most { self.new.most ≡ max }
        ensures depths { self.new.depths ≡ self.old.depths }
    {
        self.max = max;
        if self.table.len() == max as usize {
            return Err(LabelFault::Full);
        }
        match self.table.reserve(1) {
            Ok(()) => Ok(()),
            Err(AllocError) => Err(LabelFault::Memory),
        }
    }

    /// Holds a new address at this depth, if there is room. Takes no memory.
    pub fn add(&mut self, address: Address, depth: u32)
        requires new { depth_at self.old.depths address ≡ None }
        requires few { length self.old.depths < self.old.most }
        requires room { 0 < self.old.room }
        ensures depths { self.new.depths ≡ self.old.depths ++ (address, depth) ∷ [] }
        ensures most { self.new.most ≡ self.old.most }
        ensures small { length self.new.depths < 2 ^ 32 }
    {
        let Ok(_) = self.table.insert(address, depth) else {
            unreachable!()
        };
    }

    /// The number of an address: how many were discovered before it.
    pub fn find(&self, address: &Address) -> Option<u32>
        ensures { result ≡ position (bytes_eq address.now) (map (λ entry. entry.0) self.now.depths) }
    {
        match self.table.get_index_of(address) {
            Some(number) => Some(number as u32),
            None => None,
        }
    }

    /// The depth of the address of this number.
    pub fn depth(&self, number: u32) -> u32
        requires { number < length self.now.depths }
        ensures { Some result ≡ slice_get (map (λ entry. entry.1) self.now.depths) number }
    {
        self.table[number as usize]
    }

    /// The address of this number.
    pub fn address(&self, number: u32) -> &Address
        requires { number < length self.now.depths }
        ensures { Some result.now ≡ slice_get (map (λ entry. entry.0) self.now.depths) number }
    {
        match self.table.get_index(number as usize) {
            Some((address, _)) => address,
            None => unreachable!(),
        }
    }

    /// The addresses in order of discovery, each with its depth.
    pub fn iter(&self) -> Iter<'_, Address, u32>
        ensures { result ≡ self.now.depths }
    {
        self.table.iter()
    }

    /// How many addresses are held.
    pub fn len(&self) -> u32
        ensures { result ≡ length self.now.depths }
    {
        self.table.len() as u32
    }

    /// Whether no address is held.
    pub fn is_empty(&self) -> bool
        ensures { IsTrue result ↔ (self.now.depths ≡ []) }
    {
        self.table.is_empty()
    }
}

// Lowers the depth of the address of this number to the offered one, if that is less.
fn lower(table: &mut IndexMap<Address, u32>, number: usize, depth: u32) -> Offer
    requires { number < length table.old.entries }
    ensures offer { (held : ℕ) → slice_get (map (λ entry. entry.1) table.old.entries) number ≡ Some held → result ≡ offer_of (Some held) depth }
    ensures depths { (held : ℕ) → slice_get (map (λ entry. entry.1) table.old.entries) number ≡ Some held → table.new.entries ≡ lowered_at table.old.entries number depth held }
    ensures len { length table.new.entries ≡ length table.old.entries }
{
    if depth < table[number] {
        table[number] = depth;
        Offer::Lowered
    } else {
        Offer::Kept
    }
}
