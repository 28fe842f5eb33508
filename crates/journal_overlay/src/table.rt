//! An open-addressed table: of each key the last place in a list where it stands, and the place of the journal there.
//!
//! A key has a home, and stands in the first slot from there on that was free when it came. No key ever leaves, so a
//! slot whose key stands nowhere any more is passed over and not taken for free. There are more slots than homes, so a
//! search never turns round.
//!
//! A home has a byte of bits: of each key that came from there one of them is set. So a search for a key that never
//! came looks at hardly any slot, and these bytes stay in the processor's cache where the slots do not.
ghost use Rattle.std.specs.Prelude.{◌≡◌, ◌+◌, ◌^◌, ◌<◌, ◌≤◌, length, replicate, get_or, set, IfOk};
ghost use Rattle.std.specs.List.{position_or_len};
ghost use Rattle.journal_overlay.specs.Slots.{bit_of, HasBits, home_of, slot_of, slot_with, last_at, last_in, place_at, place_in, stops};

use image_model::EntryPlace;
use std::alloc::{AllocError, Global};
use std::mem::size_of;

/// What keys are multiplied by, so that near ones get homes apart.
///
/// Own: 2^64 divided by the golden ratio, made odd.
const SPREAD: u64 = 0x9e37_79b9_7f4a_7c15;

/// Where a key stands last, and the place of the journal there.
#[derive(Clone, Copy)]
pub(crate) struct Last {
    pub(crate) at: u32,
    pub(crate) place: EntryPlace,
}

/// A slot of the table. Its parts stand in an order in which it takes 32 bytes.
#[derive(Clone, Copy)]
pub(crate) enum Slot {
    /// No key came here.
    Free,
    /// This key came here, and stands nowhere.
    Gone {
        key: u64,
    },
    /// This key came here, and stands last here, where this place is.
    Told {
        at: u32,
        key: u64,
        place: EntryPlace,
    },
}

const _: () = prove!(size_of::<Slot>() == 32);

impl Slot {
    /// The slot of a key that stands last here, if it does.
    fn with(key: u64, last: Option<Last>) -> Slot
        ensures { result ≡ slot_with key last }
    {
        match last {
            Some(Last { at, place }) => Slot::Told { at, key, place },
            None => Slot::Gone { key },
        }
    }

    /// Whether a search for the key ends here.
    fn stops(&self, key: u64) -> bool
        ensures { result ≡ stops key self.now }
    {
        match self {
            Slot::Free => true,
            Slot::Gone { key: own } => *own == key,
            Slot::Told { key: own, .. } => *own == key,
        }
    }

    /// Where its key stands last, if it does.
    fn last(self) -> Option<u32>
        ensures { result ≡ last_in self }
    {
        match self {
            Slot::Told { at, .. } => Some(at),
            _ => None,
        }
    }

    /// The place where its key stands last, if it does.
    fn place(self) -> Option<EntryPlace>
        ensures { result ≡ place_in self }
    {
        match self {
            Slot::Told { place, .. } => Some(place),
            _ => None,
        }
    }
}

/// The slots, and how many of them are homes.
#[derive(Drop)]
pub(crate) struct Table {
    pub(crate) slots: Vec<Slot>,
    /// Of each home the bits of the keys that came from there.
    pub(crate) bits: Vec<u8>,
    pub(crate) homes: usize,
    ghost has_bits: { HasBits homes bits.items slots.items },
    ghost of_homes: { length bits.items ≡ homes },
}

impl Table {
    /// A table of this many homes, with room for this many keys.
    pub(crate) fn new(alloc: Global, homes: usize, keys: usize) -> Result<Table, AllocError>
        requires { homes + keys < 2 ^ 64 }

        ensures slots { IfOk result (λ table. table.slots.items ≡ replicate (homes + keys) Slot.Free) }
        ensures homes { IfOk result (λ table. table.homes ≡ homes) }
    {
        let slots = Vec::from_elem(alloc, Slot::Free, homes + keys)?;
        let bits = Vec::from_elem(alloc, 0, homes)?;
        Ok(Table { slots, bits, homes })
    }

    /// The slot of the key, or the one that it would take: the first from its home on that ends the search.
    fn slot_of(&self, key: u64) -> usize
        requires homes { 0 < self.now.homes }
        requires slots { self.now.homes ≤ length self.now.slots.items }

        ensures { result ≡ slot_of self.now.homes self.now.slots.items key }
    {
        let home = home_of(key, self.homes);
        home + first_stop(&self.slots[home..], key)
    }

    /// The slot of the key, a free one if it never came. Mostly it looks at no slot then.
    fn found(&self, key: u64) -> Slot
        requires homes { 0 < self.now.homes }
        requires slots { self.now.homes ≤ length self.now.slots.items }

        ensures { result ≡ get_or self.now.slots.items
            (slot_of self.now.homes self.now.slots.items key) Slot.Free }
    {
        let bit = bit_of(key);
        if self.bits[home_of(key, self.homes)] & bit != bit {
            return Slot::Free;
        }
        match self.slots.get(self.slot_of(key)) {
            Some(slot) => *slot,
            None => Slot::Free,
        }
    }

    /// Where the key stands last, if it does.
    pub(crate) fn last(&self, key: u64) -> Option<u32>
        requires homes { 0 < self.now.homes }
        requires slots { self.now.homes ≤ length self.now.slots.items }

        ensures { result ≡ last_at self.now.homes self.now.slots.items key }
    {
        self.found(key).last()
    }

    /// The place where the key stands last, if it does.
    pub(crate) fn place(&self, key: u64) -> Option<EntryPlace>
        requires homes { 0 < self.now.homes }
        requires slots { self.now.homes ≤ length self.now.slots.items }

        ensures { result ≡ place_at self.now.homes self.now.slots.items key }
    {
        self.found(key).place()
    }

    /// Makes this the place where the key stands last, or makes it stand nowhere.
    pub(crate) fn set_last(&mut self, key: u64, last: Option<Last>)
        requires homes { 0 < self.old.homes }
        requires slots { self.old.homes ≤ length self.old.slots.items }
        requires room { slot_of self.old.homes self.old.slots.items key < length self.old.slots.items }

        ensures slots { self.new.slots.items ≡ set self.old.slots.items
            (slot_of self.old.homes self.old.slots.items key) (slot_with key last) }
        ensures homes { self.new.homes ≡ self.old.homes }
    {
        let home = home_of(key, self.homes);
        let slot = self.slot_of(key);
        self.bits[home] = self.bits[home] | bit_of(key);
        self.slots[slot] = Slot::with(key, last);
    }

    /// Frees all slots.
    pub(crate) fn clear(&mut self)
        ensures slots { self.new.slots.items ≡ replicate (length self.old.slots.items) Slot.Free }
        ensures homes { self.new.homes ≡ self.old.homes }
    {
        self.slots.fill(Slot::Free);
        self.bits.fill(0);
    }
}

/// Where the search for a key begins, among so many homes.
fn home_of(key: u64, homes: usize) -> usize
    requires { 0 < homes }

    ensures home { result ≡ home_of homes key }
    ensures below { result < homes }
{
    ((key.wrapping_mul(SPREAD) >> 32).wrapping_mul(homes as u64) >> 32) as usize
}

/// One of eight bits, which differs between most keys of a home.
fn bit_of(key: u64) -> u8
    ensures { result ≡ bit_of key }
{
    1 << (key.wrapping_mul(SPREAD) >> 29) % 8
}

/// The first of the slots that ends a search for the key, or how many slots there are.
fn first_stop(slots: &[Slot], key: u64) -> usize
    ensures first { result ≡ position_or_len (λ slot. stops key slot) slots.now }
    ensures bound { result ≤ length slots.now }
{
    for (n, slot) in slots.iter().enumerate() {
        if slot.stops(key) {
            return n;
        }
    }
    slots.len()
}
