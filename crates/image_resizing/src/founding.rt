//! The first sector, which tells of the new blocks.
ghost use Rattle.std.specs.Prelude.{◌≡◌, OnOk};
ghost use Rattle.disk_model.specs.Causes.{HasCause};
ghost use Rattle.disk_model.specs.Identity.{IsBound};
ghost use Rattle.image_resizing.specs.Grown.{FoundsGrowth, LeavesCuts};
ghost use Rattle.image_resizing.specs.Plan.{IsPlan};
ghost use Rattle.image_resizing.specs.Writing.{WritesHead};

use crate::planning::Plan;
use image_model::SECTOR_SIZE;
use sector_disk::{Disk, Failed};
use superblock::write;

/// Writes the new fields to the first sector, and syncs. What lies behind the fields stays.
///
/// # Errors
///
/// - `Failed`: the disk failed. The first sector may have got the new fields as a candidate.
pub(crate) fn found<D: Disk>(disk: &mut D, plan: &Plan) -> Result<(), Failed>
    requires bound { IsBound (D.identity disk.old).name }
    requires plan { IsPlan (D.identity disk.old).sectors plan.now }

    ensures founded { OnOk result (FoundsGrowth (D.identity disk.old).sectors plan.now
        (D.moments disk.old) (D.moments disk.new)) }

    ensures cause { HasCause (D.faults disk.old) (D.faults disk.new) result }

    ensures identity { D.identity disk.new ≡ D.identity disk.old }

    ensures moments { LeavesCuts (D.identity disk.old).sectors plan.now (D.moments disk.old) (D.moments disk.new) }
    ensures writes { WritesHead plan.now (D.moments disk.old) (D.moments disk.new) }
{
    let mut head = [0; SECTOR_SIZE];
    disk.read_run(0, &mut head)?;
    write(&plan.grown.fields, &mut head);
    disk.write_run(0, &head)?;
    disk.sync()
}
