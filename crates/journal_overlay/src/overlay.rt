//! The places that are kept, and the newest of each block.
//!
//! Places stand in a list in order of adding. A place that is dropped stays in it, marked, until the list is full; then
//! the kept ones are moved together, which happens once in as many adds as a half of the places that can be kept.
ghost use Rattle.std.specs.Prelude.{◌≡◌, ◌-◌, ◌<◌, ◌++◌, [], ◌∷◌, length, filter, not, IfOk};

use crate::place::Added;
use crate::place_log::{PlaceLog, append, drop_section, sweep};
use crate::table::Table;
use disk_model::Memory;
use image_model::EntryPlace;
use std::alloc::{AllocError, Global};
use std::marker::Model;

/// How many places can be kept at most, so that a node is named by 32 bits.
///
/// Own: 2^31. A journal has at most 2^20 sectors.
const MOST_PLACES: u64 = 1 << 31;

/// The places of journaled blocks, in order of adding.
#[derive(Drop)]
pub struct Overlay {
    capacity: usize,
    log: PlaceLog,
    /// Where kept places stand while they are moved together.
    moved: Vec<Added>,
}

impl Model for Overlay {
    ghost use Rattle.std.specs.Prelude.{vec_capacity};
    ghost use Rattle.journal_overlay.specs.Kept.{Places};
    ghost use Rattle.journal_overlay.specs.Index.{IsOverlay};
    ghost use Rattle.journal_overlay.specs.Nodes.{kept_places};

    ghost Value = { Places };

    ghost view = { λ o. record { capacity = o.capacity; kept = kept_places o.log.nodes.items } };

    ghost invariant = { λ o. IsOverlay o.capacity o.log (vec_capacity o.moved) };
}

impl Overlay {
    ghost use Rattle.journal_overlay.specs.Kept.{added, newest_of, is_in};

    /// Room for this many places. It takes all memory that they need.
    ///
    /// # Errors
    ///
    /// - `Memory`: there is none for so many.
    pub fn with_capacity(alloc: Global, entries: u64) -> Result<Overlay, Memory>
        ensures { IfOk result (λ overlay. overlay ≡ record { capacity = entries; kept = [] }) }
    {
        if entries > MOST_PLACES {
            return Err(Memory);
        }
        let capacity = entries as usize;
        let log = PlaceLog::with_room(alloc, capacity + capacity / 2 + 1)?;
        let moved = Vec::with_capacity(alloc, capacity)?;
        Ok(Overlay {
            capacity,
            log,
            moved,
        })
    }

    /// The place that was added last for a block, of those whose section was not dropped since, if there is one.
    pub fn newest(&self, block: u64) -> Option<EntryPlace>
        ensures { result ≡ newest_of block self.now.kept }
    {
        self.log.newest(block)
    }

    /// How many places more can be kept: the condition of `add` is that it is at least 1.
    pub fn spare(&self) -> u64
        ensures { result ≡ self.now.capacity - length self.now.kept }
    {
        (self.capacity - self.log.kept) as u64
    }

    /// Adds a place for a block, behind all others.
    pub fn add(&mut self, block: u64, place: EntryPlace)
        requires room { length self.old.kept < self.old.capacity }

        ensures { self.new ≡ record self.old { kept = self.old.kept ++ added block place ∷ [] } }
    {
        if self.log.nodes.len() == self.log.room {
            sweep(&mut self.log, &mut self.moved);
        }
        append(&mut self.log, Added { block, place });
    }

    /// Drops the places of a section. An older place of a block is then its newest again.
    pub fn drop_section(&mut self, section: u64)
        ensures { self.new ≡
            record self.old { kept = filter (λ a. not (is_in section a)) self.old.kept } }
    {
        drop_section(&mut self.log, section);
    }
}
