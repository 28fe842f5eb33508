//! Bringing a sector into a cache.
//!
//! It is read first. Then the one that goes out for it is written, where it is marked, so that a fault of the disk
//! leaves all that was held.
ghost use Rattle.std.specs.Prelude.{◌≡◌, ◌<◌, None, IfErr, OnErr, OnOk, IsSome, option_map, length};
ghost use Rattle.disk_model.specs.Causes.{HasCause};
ghost use Rattle.disk_model.specs.Disk.{OnlyAdds, last_image};
ghost use Rattle.disk_model.specs.Moments.{EachSince, HasNow};
ghost use Rattle.buffer_cache.specs.Cached.{HasNoMark, IsPutOut, IsRead, IsScratch};
ghost use Rattle.buffer_cache.specs.HeldSectors.{CanPutOut, HoldsAlso, HoldsNoMore, IsFree, held_in, with_recent};
ghost use Rattle.buffer_cache.specs.Steps.{GivesSame, IsOverDisk};

use crate::write_out::{make_room, write_held};
use crate::{Held, HeldSectors, Scratch};
use sector_disk::{Disk, Failed, SECTOR_SIZE};

/// Makes a sector the most recently used one, and reads it where it is not held.
pub(crate) fn bring<D: Disk>(disk: &mut D, held: &mut HeldSectors, at: u64) -> Result<(), Failed>
    requires over { IsOverDisk held.old (D.identity disk.old) (D.moments disk.old) }
    requires at { at < (D.identity disk.old).sectors }

    ensures found { OnOk result (IsSome (held_in held.new at)) }

    ensures cause { HasCause (D.faults disk.old) (D.faults disk.new) result }

    ensures same { GivesSame held.old held.new (D.identity disk.old) (D.identity disk.new)
        (D.moments disk.old) (D.moments disk.new) }
    ensures held { HoldsAlso at held.old held.new }

    ensures moments { EachSince (OnlyAdds (IsPutOut at held.old))
        (D.moments disk.old) (D.moments disk.new) }
    ensures unwritten { HasNoMark held.old → D.moments disk.new ≡ D.moments disk.old }
{
    if held.touch(at) {
        return Ok(());
    }
    fetch(disk, held, at)
}

// Reads a sector that is not held, and holds it.
fn fetch<D: Disk>(disk: &mut D, held: &mut HeldSectors, at: u64) -> Result<(), Failed>
    requires over { IsOverDisk held.old (D.identity disk.old) (D.moments disk.old) }
    requires at { at < (D.identity disk.old).sectors }
    requires missed { held_in held.old at ≡ None }

    ensures found { OnOk result (IsSome (held_in held.new at)) }

    ensures cause { HasCause (D.faults disk.old) (D.faults disk.new) result }

    ensures same { GivesSame held.old held.new (D.identity disk.old) (D.identity disk.new)
        (D.moments disk.old) (D.moments disk.new) }
    ensures held { HoldsAlso at held.old held.new }

    ensures moments { EachSince (OnlyAdds (IsPutOut at held.old))
        (D.moments disk.old) (D.moments disk.new) }
    ensures unwritten { HasNoMark held.old → D.moments disk.new ≡ D.moments disk.old }
{
    let mut bytes = [0; SECTOR_SIZE];
    disk.read_run(at, &mut bytes)?;
    make_room(disk, held)?;
    hold(disk, held, at, bytes)
}

// Holds a sector that was read: among the recent ones, and where there is no memory for it in the scratch buffer.
fn hold<D: Disk>(
    disk: &mut D,
    held: &mut HeldSectors,
    at: u64,
    bytes: [u8; SECTOR_SIZE],
) -> Result<(), Failed>
    requires over { IsOverDisk held.old (D.identity disk.old) (D.moments disk.old) }
    requires at { at < (D.identity disk.old).sectors }
    requires missed { held_in held.old at ≡ None }
    requires room { CanPutOut held.old }
    requires read { HasNow (λ c. bytes ≡ last_image c at) (D.moments disk.old) }

    ensures found { OnOk result (IsSome (held_in held.new at)) }

    ensures cause { HasCause (D.faults disk.old) (D.faults disk.new) result }

    ensures same { GivesSame held.old held.new (D.identity disk.old) (D.identity disk.new)
        (D.moments disk.old) (D.moments disk.new) }
    ensures held { HoldsAlso at held.old held.new }

    ensures moments { EachSince (OnlyAdds (IsScratch held.old))
        (D.moments disk.old) (D.moments disk.new) }
    ensures unwritten { HasNoMark held.old → D.moments disk.new ≡ D.moments disk.old }
{
    match put_recent(
        held,
        at,
        Held {
            bytes,
            marked: false,
        },
    ) {
        Ok(()) => Ok(()),
        Err(sector) => hold_in_scratch(disk, held, at, sector),
    }
}

// Puts a sector among the recent ones. Where there is no memory for it, it comes back.
fn put_recent(held: &mut HeldSectors, at: u64, sector: Held) -> Result<(), Held>
    ensures put { OnOk result (held.new ≡ with_recent at sector held.old) }

    ensures refused { IfErr result (λ back. back ≡ sector) }
    ensures err { OnErr result (held.new ≡ held.old) }
{
    match held.recent.put(at, sector) {
        Ok(_) => Ok(()),
        Err(refused) => Err(refused.value.1),
    }
}

// Holds a sector in the scratch buffer. What that holds marked is written before.
fn hold_in_scratch<D: Disk>(
    disk: &mut D,
    held: &mut HeldSectors,
    at: u64,
    sector: Held,
) -> Result<(), Failed>
    requires over { IsOverDisk held.old (D.identity disk.old) (D.moments disk.old) }
    requires at { at < (D.identity disk.old).sectors }
    requires missed { held_in held.old at ≡ None }
    requires read { IsRead at sector (D.moments disk.old) }

    ensures found { OnOk result (IsSome (held_in held.new at)) }

    ensures cause { HasCause (D.faults disk.old) (D.faults disk.new) result }

    ensures same { GivesSame held.old held.new (D.identity disk.old) (D.identity disk.new)
        (D.moments disk.old) (D.moments disk.new) }
    ensures held { HoldsAlso at held.old held.new }

    ensures moments { EachSince (OnlyAdds (IsScratch held.old))
        (D.moments disk.old) (D.moments disk.new) }
    ensures unwritten { HasNoMark held.old → D.moments disk.new ≡ D.moments disk.old }
{
    free_scratch(disk, held)?;
    held.scratch = Some(Scratch { at, held: sector });
    Ok(())
}

// Writes what the scratch buffer holds, where it is marked.
fn free_scratch<D: Disk>(disk: &mut D, held: &mut HeldSectors) -> Result<(), Failed>
    requires over { IsOverDisk held.old (D.identity disk.old) (D.moments disk.old) }

    ensures free { OnOk result (IsFree held.new) }

    ensures cause { HasCause (D.faults disk.old) (D.faults disk.new) result }

    ensures same { GivesSame held.old held.new (D.identity disk.old) (D.identity disk.new)
        (D.moments disk.old) (D.moments disk.new) }
    ensures held { HoldsNoMore held.old held.new }

    ensures moments { EachSince (OnlyAdds (IsScratch held.old))
        (D.moments disk.old) (D.moments disk.new) }
    ensures unwritten { HasNoMark held.old → D.moments disk.new ≡ D.moments disk.old }
{
    match scratch_at(&held.scratch) {
        Some(at) => write_held(disk, held, at),
        None => Ok(()),
    }
}

// Which sector the scratch buffer holds, if it holds one.
fn scratch_at(scratch: &Option<Scratch>) -> Option<u64>
    ensures { result ≡ option_map (λ s. s.at) scratch.now }
{
    match scratch {
        Some(scratch) => Some(scratch.at),
        None => None,
    }
}
