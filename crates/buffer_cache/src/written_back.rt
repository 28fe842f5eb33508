//! The marked sectors, listed and written in ascending order.
ghost use Rattle.std.specs.Prelude.{◌≡◌, ◌+◌, ◌<◌, ◌≤◌, ◌++◌, [], ℕ, true, false, vec_capacity, vec_len, IsSome, OnOk};
ghost use Rattle.std.specs.List.{All, Contains};
ghost use Rattle.std.specs.List.Sorted.{IsSorted};
ghost use Rattle.std.specs.Ordering.{nat_cmp};
ghost use Rattle.disk_model.specs.Causes.{HasCause};
ghost use Rattle.disk_model.specs.Moments.{EachSince, IsChangedBy};
ghost use Rattle.buffer_cache.specs.Cached.{HasNoMark, IsAmidWriteBack, is_marked, written_back};
ghost use Rattle.buffer_cache.specs.HeldSectors.{HoldsNoMore, held_in, marked_keys, marked_scratch};
ghost use Rattle.buffer_cache.specs.Steps.{GivesSame, IsOverDisk};

use crate::write_out::write_held;
use crate::{Held, HeldSectors, Scratch};
use lru::LruCache;
use sector_disk::{Disk, Failed};

/// Lists the marked sectors, in ascending order.
pub(crate) fn list_marked(held: &HeldSectors, ascending: &mut Vec<u64>)
    requires { held.now.recent.cap + 1 ≤ vec_capacity ascending.old }

    ensures each { (sector : ℕ) → is_marked held.now sector ≡ true → Contains ascending.new.items sector }
    ensures held { All (λ sector. IsSome (held_in held.now sector)) ascending.new.items }
    ensures sorted { IsSorted nat_cmp ascending.new.items }
    ensures capacity { vec_capacity ascending.new ≡ vec_capacity ascending.old }
{
    ascending.clear();
    list_recent(&held.recent, ascending);
    list_scratch(&held.scratch, ascending);
    ascending.sort_unstable();
}

// Lists the marked ones of the recent sectors.
fn list_recent(recent: &LruCache<u64, Held>, ascending: &mut Vec<u64>)
    requires empty { ascending.old.items ≡ [] }
    requires room { recent.now.cap + 1 ≤ vec_capacity ascending.old }

    ensures listed { ascending.new.items ≡ marked_keys recent.now.entries }
    ensures room { vec_len ascending.new < vec_capacity ascending.new }
    ensures capacity { vec_capacity ascending.new ≡ vec_capacity ascending.old }
{
    let held = recent.len();
    prove!(held < ascending.capacity());
    for (at, sector) in recent.iter() {
        if sector.marked {
            ascending.push_reserved(*at);
        }
    }
}

// Lists the sector in the scratch buffer, where it is marked.
fn list_scratch(scratch: &Option<Scratch>, ascending: &mut Vec<u64>)
    requires { vec_len ascending.old < vec_capacity ascending.old }

    ensures listed { ascending.new.items ≡ ascending.old.items ++ marked_scratch scratch.now }
    ensures capacity { vec_capacity ascending.new ≡ vec_capacity ascending.old }
{
    if let Some(scratch) = scratch
        && scratch.held.marked
    {
        ascending.push_reserved(scratch.at);
    }
}

/// Writes the marked ones of these sectors, the lowest first.
pub(crate) fn write_each<D: Disk>(
    disk: &mut D,
    held: &mut HeldSectors,
    sectors: &[u64],
) -> Result<(), Failed>
    requires over { IsOverDisk held.old (D.identity disk.old) (D.moments disk.old) }
    requires sectors { All (λ sector. sector < (D.identity disk.old).sectors) sectors.now }
    requires each { (sector : ℕ) → is_marked held.old sector ≡ true → Contains sectors.now sector }
    requires sorted { IsSorted nat_cmp sectors.now }

    ensures written { OnOk result (IsChangedBy (written_back held.old)
        (D.moments disk.old) (D.moments disk.new)) }
    ensures unmarked { OnOk result (HasNoMark held.new) }

    ensures cause { HasCause (D.faults disk.old) (D.faults disk.new) result }

    ensures same { GivesSame held.old held.new (D.identity disk.old) (D.identity disk.new)
        (D.moments disk.old) (D.moments disk.new) }
    ensures held { HoldsNoMore held.old held.new }
    ensures unread { D.reads disk.new ≡ D.reads disk.old }

    ensures moments { EachSince (IsAmidWriteBack held.old) (D.moments disk.old) (D.moments disk.new) }
    ensures unwritten { HasNoMark held.old → D.moments disk.new ≡ D.moments disk.old }
{
    for at in sectors {
        write_held(disk, held, *at)?;
    }
    Ok(())
}
