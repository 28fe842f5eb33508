//! The requests that are asked for and not released.
ghost use Rattle.std.specs.Prelude.{◌≡◌, ◌↔◌, ◌<◌, ◌++◌, [], ◌∷◌, length, filter, not, IfOk, IsTrue};
ghost use Rattle.device_model.specs.Request.{Read};

use crate::ask::{Ask, Asked, place_of};
use disk_model::Memory;
use std::alloc::Global;
use std::marker::Model;

/// What was asked and is not released, in order of asking.
#[derive(Drop)]
pub struct Ranges {
    slots: u64,
    asks: Vec<Ask>,
}

impl Model for Ranges {
    ghost use Rattle.range_lock.specs.Asks.{Slots, AreInSlots};
    ghost use Rattle.std.specs.Prelude.{vec_capacity};

    ghost Value = { Slots };

    ghost view = { λ ranges. record { count = ranges.slots; asks = ranges.asks.items } };

    ghost invariant = { λ ranges. AreInSlots ranges.slots (vec_capacity ranges.asks) ranges.asks.items };
}

impl Ranges {
    ghost use Rattle.range_lock.specs.Asks.{answer_by, ask_for, holder_among, holder_of, has_ticket};

    /// Room for this many asks. It takes all memory that they need.
    ///
    /// # Errors
    ///
    /// - `Memory`: there is none for so many.
    pub fn new(alloc: Global, slots: u64) -> Result<Ranges, Memory>
        ensures { IfOk result (λ ranges. ranges ≡ record { count = slots; asks = [] }) }
    {
        let asks = Vec::with_capacity(alloc, slots as usize)?;
        Ok(Ranges { slots, asks })
    }

    /// Whether one more may ask: the condition of `ask`.
    pub fn has_room(&self) -> bool
        ensures { IsTrue result ↔ (length self.now.asks < self.now.count) }
    {
        (self.asks.len() as u64) < self.slots
    }

    /// Asks for `count` blocks from block `first` on, for the request of this ticket, which has not asked before. It is
    /// held until every ask before it that has a block in common with it is released. A flush, which asks for no block
    /// from block 0 on, is held by none and holds none.
    pub fn ask(&mut self, ticket: u64, first: u64, count: u64) -> Asked
        requires room { length self.old.asks < self.old.count }

        ensures answer { result ≡ answer_by (holder_among self.old.asks (Read first count)) }
        ensures asked { self.new ≡
            record self.old { asks = self.old.asks ++ ask_for ticket first count ∷ [] } }
    {
        let ask = Ask {
            ticket,
            first,
            count,
        };
        let answer = ask.answer_behind(&self.asks);
        self.asks.push_reserved(ask);
        answer
    }

    /// Whether the request of this ticket may be served now, as one may that has not asked.
    pub fn check(&self, ticket: u64) -> Asked
        ensures { result ≡ answer_by (holder_of ticket self.now.asks) }
    {
        match place_of(&self.asks, ticket) {
            Some(place) => self.asks[place].answer_behind(&self.asks[..place]),
            None => Asked::Granted,
        }
    }

    /// Lets go of what the request of this ticket asked for: it holds no other any more.
    pub fn release(&mut self, ticket: u64)
        ensures { self.new ≡
            record self.old { asks = filter (λ ask. not (has_ticket ticket ask)) self.old.asks } }
    {
        self.asks.retain(|ask| ask.ticket != ticket);
    }
}
