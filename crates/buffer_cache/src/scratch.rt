//! The parts of what is held: a look-up and a change in each.
ghost use Rattle.std.specs.Prelude.{◌≡◌, ◌+◌, ◌≤◌, length, option_copied};
ghost use Rattle.lru.specs.LruCache.{lru_cache};
ghost use Rattle.buffer_cache.specs.HeldSectors.{changed_at, changed_scratch, in_scratch, unmarked, with_held_piece};

use crate::{Held, Scratch};
use lru::LruCache;

/// What the scratch buffer holds of a sector.
pub(crate) fn find_scratch(scratch: &Option<Scratch>, at: u64) -> Option<&Held>
    ensures { option_copied result ≡ in_scratch scratch.now at }
{
    match scratch {
        Some(scratch) if scratch.at == at => Some(&scratch.held),
        _ => None,
    }
}

/// Clears the mark of a recent sector.
pub(crate) fn unmark_recent(recent: &mut LruCache<u64, Held>, at: u64)
    ensures { recent.new ≡ lru_cache (changed_at at unmarked recent.old.entries) recent.old.cap }
{
    if let Some(held) = recent.peek_mut(&at) {
        held.marked = false;
    }
}

/// Clears the mark of the sector in the scratch buffer, where it is this one.
pub(crate) fn unmark_scratch(scratch: &mut Option<Scratch>, at: u64)
    ensures { scratch.new ≡ changed_scratch at unmarked scratch.old }
{
    if let Some(scratch) = scratch
        && scratch.at == at
    {
        scratch.held.marked = false;
    }
}

/// Changes a piece of a recent sector, and marks it.
pub(crate) fn put_recent_piece(recent: &mut LruCache<u64, Held>, at: u64, from: usize, piece: &[u8])
    requires { from + length piece.now ≤ 512 }

    ensures { recent.new ≡ lru_cache (changed_at at (with_held_piece from piece.now)
        recent.old.entries) recent.old.cap }
{
    if let Some(held) = recent.peek_mut(&at) {
        held.bytes[from..from + piece.len()].copy_from_slice(piece);
        held.marked = true;
    }
}

/// Changes a piece of the sector in the scratch buffer, where it is this one, and marks it.
pub(crate) fn put_scratch_piece(scratch: &mut Option<Scratch>, at: u64, from: usize, piece: &[u8])
    requires { from + length piece.now ≤ 512 }

    ensures { scratch.new ≡ changed_scratch at (with_held_piece from piece.now) scratch.old }
{
    if let Some(scratch) = scratch
        && scratch.at == at
    {
        scratch.held.bytes[from..from + piece.len()].copy_from_slice(piece);
        scratch.held.marked = true;
    }
}
