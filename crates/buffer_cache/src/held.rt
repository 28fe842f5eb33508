//! The sectors that a cache holds.
ghost use Rattle.std.specs.Bool.{OnFalse};
ghost use Rattle.std.specs.Prelude.{◌≡◌, None, ◌+◌, ◌<◌, ◌≤◌, ◌↔◌, nat_eq, IsTrue, IsSome, length, option_copied};
ghost use Rattle.lru.specs.LruCache.{lru_cache};

use crate::scratch::{
    find_scratch, put_recent_piece, put_scratch_piece, unmark_recent, unmark_scratch,
};
use lru::LruCache;
use sector_disk::SECTOR_SIZE;

/// A sector that is held.
#[derive(Drop)]
pub struct Held {
    pub(crate) bytes: [u8; SECTOR_SIZE],
    // Whether they are still to be written.
    pub(crate) marked: bool,
}

/// The sector that is held where there is no memory for another one.
#[derive(Drop)]
pub struct Scratch {
    pub(crate) at: u64,
    pub(crate) held: Held,
}

/// The sectors that are held: in the order of their last use, and the one for which there was no memory.
#[derive(Drop)]
pub struct HeldSectors {
    pub(crate) recent: LruCache<u64, Held>,
    pub(crate) scratch: Option<Scratch>,
}

impl HeldSectors {
    ghost use Rattle.buffer_cache.specs.HeldSectors.{held_in, in_front, unmarked, with_change, with_held_piece};

    /// What is held of a sector.
    pub(crate) fn find(&self, at: u64) -> Option<&Held>
        ensures { option_copied result ≡ held_in self.now at }
    {
        match self.recent.peek(&at) {
            Some(held) => Some(held),
            None => find_scratch(&self.scratch, at),
        }
    }

    /// Makes a sector the most recently used one. Tells whether it is held.
    pub(crate) fn touch(&mut self, at: u64) -> bool
        ensures held { IsTrue result ↔ IsSome (held_in self.old at) }
        ensures front { self.new ≡ in_front at self.old }
        ensures missed { OnFalse result (held_in self.old at ≡ None) }
        ensures kept { OnFalse result (self.new ≡ self.old) }
    {
        let found = self.recent.promote(&at);
        found || find_scratch(&self.scratch, at).is_some()
    }

    /// Clears the mark of a sector.
    pub(crate) fn unmark(&mut self, at: u64)
        ensures { self.new ≡ with_change at unmarked self.old }
    {
        unmark_recent(&mut self.recent, at);
        unmark_scratch(&mut self.scratch, at);
    }

    /// Changes a piece of a sector, and marks it.
    pub(crate) fn put_piece(&mut self, at: u64, from: usize, piece: &[u8])
        requires { from + length piece.now ≤ 512 }

        ensures { self.new ≡ with_change at (with_held_piece from piece.now) self.old }
    {
        put_recent_piece(&mut self.recent, at, from, piece);
        put_scratch_piece(&mut self.scratch, at, from, piece);
    }
}
