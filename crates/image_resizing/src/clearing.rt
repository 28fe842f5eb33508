//! The bits of new regions, which are cleared where there is a bitmap.
ghost use Rattle.std.specs.Prelude.{◌≡◌, ◌<◌, ◌/◌, ◌+◌, ◌*◌, ◌%◌, true, OnOk};
ghost use Rattle.disk_model.specs.Causes.{HasCause};
ghost use Rattle.disk_model.specs.Identity.{IsBound};
ghost use Rattle.image_model.specs.declared.flags.TheConstants.{DIRTY_BITMAP as BITMAP};
ghost use Rattle.image_model.specs.Geometry.{regions};
ghost use Rattle.image_model.specs.Superblock.{has_flag};
ghost use Rattle.image_resizing.specs.Cleared.{ClearsSectors, IsNewRun, StandsClearing, bits_begin, bits_end};
ghost use Rattle.image_resizing.specs.Plan.{IsPlan};
ghost use Rattle.image_resizing.specs.Room.{zeros_at_once};

use crate::planning::Plan;
use crate::room::RUN_SECTORS;
use dirty_bitmap::clear_from;
use image_model::{DIRTY_BITMAP, SECTOR_BITS, SECTOR_SIZE, SUPERBLOCK_SECTORS};
use sector_disk::{Disk, Failed};

/// Clears the bits of new regions, where there is a bitmap. Bits of no region are cleared in the sectors that have
/// one of these, and no other sector is written. Nothing is synced.
///
/// # Errors
///
/// - `Failed`: the disk failed. The bits of old regions are as they were.
pub(crate) fn clear_bits<D: Disk>(disk: &mut D, plan: &Plan, zeros: &[u8]) -> Result<(), Failed>
    requires bound { IsBound (D.identity disk.old).name }
    requires plan { IsPlan (D.identity disk.old).sectors plan.now }
    requires zeros { zeros.now ≡ zeros_at_once }

    ensures cleared { OnOk result (ClearsSectors (D.identity disk.old).sectors
        plan.now (bits_begin plan.now) (bits_end plan.now) (D.moments disk.old) (D.moments disk.new)) }

    ensures cause { HasCause (D.faults disk.old) (D.faults disk.new) result }

    ensures identity { D.identity disk.new ≡ D.identity disk.old }

    ensures stands { StandsClearing (D.identity disk.old).sectors plan.now (bits_begin plan.now)
        (D.moments disk.old) (D.moments disk.new) }
{
    let first = plan.present.geometry.regions();
    let end = plan.grown.geometry.regions();
    if plan.present.fields.flags & DIRTY_BITMAP == 0 || first == end {
        return Ok(());
    }
    clear_first(disk, plan)?;
    clear_behind(disk, plan, zeros)
}

/// Clears the bits of new regions in the first sector that has one.
///
/// # Errors
///
/// - `Failed`: the disk failed. The sector may have got its bytes as a candidate.
fn clear_first<D: Disk>(disk: &mut D, plan: &Plan) -> Result<(), Failed>
    requires bound { IsBound (D.identity disk.old).name }
    requires plan { IsPlan (D.identity disk.old).sectors plan.now }
    requires bitmap { has_flag BITMAP plan.now.present.fields.flags ≡ true }
    requires some { regions plan.now.present.geometry < regions plan.now.grown.geometry }

    ensures cleared { OnOk result (ClearsSectors (D.identity disk.old).sectors
        plan.now (bits_begin plan.now) (bits_begin plan.now + 1) (D.moments disk.old) (D.moments disk.new)) }

    ensures cause { HasCause (D.faults disk.old) (D.faults disk.new) result }

    ensures identity { D.identity disk.new ≡ D.identity disk.old }

    ensures stands { StandsClearing (D.identity disk.old).sectors plan.now (bits_begin plan.now)
        (D.moments disk.old) (D.moments disk.new) }
{
    let first = plan.present.geometry.regions();
    // The bitmap stands in the place of the journal.
    let at = SUPERBLOCK_SECTORS + first / SECTOR_BITS;
    let mut bytes = [0; SECTOR_SIZE];
    disk.read_run(at, &mut bytes)?;
    clear_from(&mut bytes, (first % SECTOR_BITS) as usize);
    disk.write_run(at, &bytes)
}

/// Clears the bits in all sectors behind that one, by as many zeros at once as there are.
///
/// # Errors
///
/// - `Failed`: the disk failed. Any of the sectors may have got zeros as a candidate.
fn clear_behind<D: Disk>(disk: &mut D, plan: &Plan, zeros: &[u8]) -> Result<(), Failed>
    requires bound { IsBound (D.identity disk.old).name }
    requires plan { IsPlan (D.identity disk.old).sectors plan.now }
    requires zeros { zeros.now ≡ zeros_at_once }
    requires bitmap { has_flag BITMAP plan.now.present.fields.flags ≡ true }
    requires some { regions plan.now.present.geometry < regions plan.now.grown.geometry }

    ensures cleared { OnOk result (ClearsSectors (D.identity disk.old).sectors
        plan.now (bits_begin plan.now + 1) (bits_end plan.now) (D.moments disk.old) (D.moments disk.new)) }

    ensures cause { HasCause (D.faults disk.old) (D.faults disk.new) result }

    ensures identity { D.identity disk.new ≡ D.identity disk.old }

    ensures stands { StandsClearing (D.identity disk.old).sectors plan.now (bits_begin plan.now + 1)
        (D.moments disk.old) (D.moments disk.new) }
{
    let end = plan.grown.geometry.regions().div_ceil(SECTOR_BITS);
    let mut next = plan.present.geometry.regions() / SECTOR_BITS + 1;
    while next < end {
        let count = RUN_SECTORS.min(end - next);
        clear_run(disk, plan, zeros, next, count)?;
        next += count;
    }
    Ok(())
}

/// Clears all bits in `count` sectors of the bitmap from sector `next` of it on. They have bits of new regions, and
/// none of an old one.
///
/// # Errors
///
/// - `Failed`: the disk failed. Any of the sectors may have got zeros as a candidate.
fn clear_run<D: Disk>(
    disk: &mut D,
    plan: &Plan,
    zeros: &[u8],
    next: u64,
    count: u64,
) -> Result<(), Failed>
    requires bound { IsBound (D.identity disk.old).name }
    requires plan { IsPlan (D.identity disk.old).sectors plan.now }
    requires zeros { zeros.now ≡ zeros_at_once }
    requires bitmap { has_flag BITMAP plan.now.present.fields.flags ≡ true }
    requires run { IsNewRun plan.now next count }

    ensures cleared { OnOk result (ClearsSectors (D.identity disk.old).sectors plan.now next (next + count)
        (D.moments disk.old) (D.moments disk.new)) }

    ensures cause { HasCause (D.faults disk.old) (D.faults disk.new) result }

    ensures identity { D.identity disk.new ≡ D.identity disk.old }

    ensures stands { StandsClearing (D.identity disk.old).sectors plan.now next
        (D.moments disk.old) (D.moments disk.new) }
{
    disk.write_run(
        SUPERBLOCK_SECTORS + next,
        &zeros[..SECTOR_SIZE * count as usize],
    )
}
