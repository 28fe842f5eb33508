//! The growth of an image that is settled: new blocks are written, and then the first sector.
ghost use Rattle.std.specs.Prelude.{◌≡◌, OnOk};
ghost use Rattle.disk_model.specs.Causes.{HasCause};
ghost use Rattle.disk_model.specs.Identity.{IsBound};
ghost use Rattle.image_resizing.specs.Grown.{GrowsImage, GrowsSettled, HasPrepared, LeavesGrowth, LeavesResizing};
ghost use Rattle.image_resizing.specs.Grown.{StandsGrowing};
ghost use Rattle.image_resizing.specs.Plan.{IsPlan};
ghost use Rattle.image_resizing.specs.Room.{HasGrowthRoom};
ghost use Rattle.image_resizing.specs.Writing.{WritesGrowth, WritesSettled};

use crate::clearing::clear_bits;
use crate::filling::fill_blocks;
use crate::founding::found;
use crate::planning::Plan;
use crate::room::GrowthRoom;
use crate::tagging::tag_blocks;
use sector_disk::{Disk, Failed};

/// Grows the image of a disk on which nothing is pending, where it is to provide more. Where it is not, no call is
/// made.
///
/// # Errors
///
/// - `Failed`: the disk failed. Each image has the old blocks, or the new ones too.
pub(crate) fn grow_settled<D: Disk>(
    disk: &mut D,
    plan: &Plan,
    room: GrowthRoom,
) -> Result<(), Failed>
    requires bound { IsBound (D.identity disk.old).name }
    requires plan { IsPlan (D.identity disk.old).sectors plan.now }
    requires room { HasGrowthRoom room }

    ensures resized { OnOk result (GrowsSettled (D.identity disk.old).sectors plan.now
        (D.moments disk.old) (D.moments disk.new)) }

    ensures cause { HasCause (D.faults disk.old) (D.faults disk.new) result }

    ensures identity { D.identity disk.new ≡ D.identity disk.old }

    ensures moments { LeavesResizing (D.identity disk.old).sectors plan.now (D.moments disk.old) (D.moments disk.new) }
    ensures writes { WritesSettled (D.identity disk.old).sectors plan.now (D.moments disk.old) (D.moments disk.new) }
{
    if plan.grown.fields.provided == plan.present.fields.provided {
        return Ok(());
    }
    grow(disk, plan, room)
}

/// Grows it.
///
/// # Errors
///
/// - `Failed`: the disk failed. Each image has the old blocks, or the new ones too.
fn grow<D: Disk>(disk: &mut D, plan: &Plan, room: GrowthRoom) -> Result<(), Failed>
    requires bound { IsBound (D.identity disk.old).name }
    requires plan { IsPlan (D.identity disk.old).sectors plan.now }
    requires room { HasGrowthRoom room }

    ensures grown { OnOk result (GrowsImage (D.identity disk.old).sectors plan.now
        (D.moments disk.old) (D.moments disk.new)) }

    ensures cause { HasCause (D.faults disk.old) (D.faults disk.new) result }

    ensures identity { D.identity disk.new ≡ D.identity disk.old }

    ensures moments { LeavesGrowth (D.identity disk.old).sectors plan.now (D.moments disk.old) (D.moments disk.new) }
    ensures writes { WritesGrowth (D.identity disk.old).sectors plan.now (D.moments disk.old) (D.moments disk.new) }
{
    prepare(disk, plan, room)?;
    found(disk, plan)
}

/// Writes all that is new but the first sector, and syncs: zeros with their tags, and clear bits.
///
/// # Errors
///
/// - `Failed`: the disk failed. Each image is as it was, for who reads the old blocks.
fn prepare<D: Disk>(disk: &mut D, plan: &Plan, room: GrowthRoom) -> Result<(), Failed>
    requires bound { IsBound (D.identity disk.old).name }
    requires plan { IsPlan (D.identity disk.old).sectors plan.now }
    requires room { HasGrowthRoom room }

    ensures prepared { OnOk result (HasPrepared (D.identity disk.old).sectors plan.now
        (D.moments disk.old) (D.moments disk.new)) }

    ensures cause { HasCause (D.faults disk.old) (D.faults disk.new) result }

    ensures identity { D.identity disk.new ≡ D.identity disk.old }

    ensures stands { StandsGrowing (D.identity disk.old).sectors plan.now (D.moments disk.old) (D.moments disk.new) }
{
    let mut room = room;
    let zeros = room.zeros.as_slice();
    let tags = room.tags.as_mut_slice();
    fill_blocks(disk, plan, zeros)?;
    tag_blocks(disk, plan, zeros, tags)?;
    clear_bits(disk, plan, zeros)?;
    disk.sync()
}
