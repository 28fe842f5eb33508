//! Writing what is held of a sector, and making room for another one.
ghost use Rattle.std.specs.Prelude.{◌≡◌, ◌<◌, ◌≤◌, false, Some, OnOk, OnErr, IfSome, IfNone, nat_eq, length};
ghost use Rattle.disk_model.specs.Causes.{HasCause};
ghost use Rattle.disk_model.specs.Disk.{OnlyAdds};
ghost use Rattle.disk_model.specs.Identity.{IsBound};
ghost use Rattle.disk_model.specs.Moments.{EachSince, IsChangedBy};
ghost use Rattle.lru.specs.LruCache.{IsValid, last_entry};
ghost use Rattle.buffer_cache.specs.Cached.{HasNoMark, IsAmidMarked, IsLeastRecent, is_marked, with_marked};
ghost use Rattle.buffer_cache.specs.HeldSectors.{CanPutOut, HoldsNoMore, IsLast, held_in, unmarked, with_change};
ghost use Rattle.buffer_cache.specs.Steps.{GivesSame, IsOverDisk};

use crate::{Held, HeldSectors};
use lru::LruCache;
use sector_disk::{Disk, Failed};

/// Writes what is held of a sector, where it is marked, and clears its mark.
pub(crate) fn write_held<D: Disk>(
    disk: &mut D,
    held: &mut HeldSectors,
    at: u64,
) -> Result<(), Failed>
    requires over { IsOverDisk held.old (D.identity disk.old) (D.moments disk.old) }
    requires at { at < (D.identity disk.old).sectors }

    ensures written { OnOk result (held.new ≡ with_change at unmarked held.old) }
    ensures changed { OnOk result (IsChangedBy (with_marked at (held_in held.old at))
        (D.moments disk.old) (D.moments disk.new)) }

    ensures cause { HasCause (D.faults disk.old) (D.faults disk.new) result }
    ensures err { OnErr result (held.new ≡ held.old) }

    ensures same { GivesSame held.old held.new (D.identity disk.old) (D.identity disk.new)
        (D.moments disk.old) (D.moments disk.new) }
    ensures held { HoldsNoMore held.old held.new }
    ensures unread { D.reads disk.new ≡ D.reads disk.old }

    ensures moments { EachSince (IsAmidMarked at (held_in held.old at))
        (D.moments disk.old) (D.moments disk.new) }
    ensures unwritten { is_marked held.old at ≡ false → D.moments disk.new ≡ D.moments disk.old }
{
    write_marked(disk, held, at)?;
    held.unmark(at);
    Ok(())
}

// Writes what is held of a sector, where it is marked.
fn write_marked<D: Disk>(disk: &mut D, held: &HeldSectors, at: u64) -> Result<(), Failed>
    requires bound { IsBound (D.identity disk.old).name }
    requires at { at < (D.identity disk.old).sectors }

    ensures written { OnOk result (IsChangedBy (with_marked at (held_in held.now at))
        (D.moments disk.old) (D.moments disk.new)) }

    ensures cause { HasCause (D.faults disk.old) (D.faults disk.new) result }

    ensures identity { D.identity disk.new ≡ D.identity disk.old }
    ensures unread { D.reads disk.new ≡ D.reads disk.old }

    ensures moments { EachSince (IsAmidMarked at (held_in held.now at))
        (D.moments disk.old) (D.moments disk.new) }
    ensures unwritten { is_marked held.now at ≡ false → D.moments disk.new ≡ D.moments disk.old }
{
    match held.find(at) {
        Some(sector) if sector.marked => disk.write_run(at, &sector.bytes),
        _ => Ok(()),
    }
}

/// Sees to it that the next sector to go out is not marked, where one has to.
pub(crate) fn make_room<D: Disk>(disk: &mut D, held: &mut HeldSectors) -> Result<(), Failed>
    requires over { IsOverDisk held.old (D.identity disk.old) (D.moments disk.old) }

    ensures room { OnOk result (CanPutOut held.new) }
    ensures scratch { OnOk result (held.new.scratch ≡ held.old.scratch) }

    ensures cause { HasCause (D.faults disk.old) (D.faults disk.new) result }

    ensures same { GivesSame held.old held.new (D.identity disk.old) (D.identity disk.new)
        (D.moments disk.old) (D.moments disk.new) }
    ensures held { HoldsNoMore held.old held.new }
    ensures unread { D.reads disk.new ≡ D.reads disk.old }

    ensures moments { EachSince (OnlyAdds (IsLeastRecent held.old))
        (D.moments disk.old) (D.moments disk.new) }
    ensures unwritten { HasNoMark held.old → D.moments disk.new ≡ D.moments disk.old }
{
    match next_out(&held.recent) {
        Some(at) => write_held(disk, held, at),
        None => Ok(()),
    }
}

// The sector that goes out where another one comes in, if there is no room for both.
fn next_out(recent: &LruCache<u64, Held>) -> Option<u64>
    ensures last { IfSome result (IsLast recent.now) }
    ensures none { IfNone result (length recent.now.entries < recent.now.cap) }
    ensures valid { IsValid nat_eq recent.now }
{
    if recent.len() < recent.cap().get() {
        return None;
    }
    let (at, _) = recent.peek_lru()?;
    Some(*at)
}
