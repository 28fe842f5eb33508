//! What stands before the growth of an image without a bitmap: the disk is synced, and the image recovered.
ghost use Rattle.std.specs.Prelude.{◌≡◌, false, OnOk};
ghost use Rattle.disk_model.specs.Causes.{HasCause};
ghost use Rattle.disk_model.specs.Identity.{IsBound};
ghost use Rattle.image_model.specs.declared.flags.TheConstants.{DIRTY_BITMAP as BITMAP};
ghost use Rattle.image_model.specs.Superblock.{has_flag};
ghost use Rattle.image_resizing.specs.Plan.{IsPlan};
ghost use Rattle.image_resizing.specs.Room.{HasRecoveryRoom};
ghost use Rattle.image_resizing.specs.Settled.{KnowsJournal, OpensPlanned, SettlesImage, SettlesInOrder};
ghost use Rattle.image_resizing.specs.Writing.{WritesRecovery};

use crate::planning::Plan;
use crate::room::RecoveryRoom;
use journal_reading::JudgedJournal;
use replay::recover;
use sector_disk::{Disk, Failed};
use tag_store::Tags;

/// Syncs a disk whose image has no bitmap, and recovers that: all that its journal holds comes to its place. The
/// journal was judged.
///
/// # Errors
///
/// - `Failed`: the disk failed. Every image has the cells of the image at the entry.
pub(crate) fn recover_image<D: Disk>(
    disk: &mut D,
    plan: &Plan,
    journal: &JudgedJournal,
    room: RecoveryRoom,
) -> Result<(), Failed>
    requires bound { IsBound (D.identity disk.old).name }
    requires plan { IsPlan (D.identity disk.old).sectors plan.now }
    requires opens { OpensPlanned (D.identity disk.old).sectors plan.now (D.moments disk.old) }
    requires no_bitmap { has_flag BITMAP plan.now.present.fields.flags ≡ false }
    requires journal { KnowsJournal plan.now journal.now (D.moments disk.old) }
    requires room { HasRecoveryRoom plan.now.present.geometry room }

    ensures settled { OnOk result (SettlesImage (D.identity disk.old).sectors plan.now
        (D.moments disk.old) (D.moments disk.new)) }

    ensures cause { HasCause (D.faults disk.old) (D.faults disk.new) result }

    ensures identity { D.identity disk.new ≡ D.identity disk.old }

    ensures moments { SettlesInOrder (D.identity disk.old).sectors plan.now (D.moments disk.old) (D.moments disk.new) }
    ensures writes { WritesRecovery plan.now.present.geometry (D.moments disk.old) (D.moments disk.new) }
{
    let RecoveryRoom { cache, mut region } = room;
    let geometry = plan.present.geometry;
    disk.sync()?;
    let mut tags = Tags::new(geometry, cache);
    recover(disk, &geometry, &mut tags, journal, &mut region.whole())?;
    Ok(())
}
