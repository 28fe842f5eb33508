//! The end of a device.
ghost use Rattle.std.specs.Prelude.{◌≡◌, OnOk};
ghost use Rattle.disk_model.specs.Causes.{HasCause};
ghost use Rattle.device_parts.specs.Device.{Ends};
ghost use Rattle.device_parts.specs.declared.condition.Condition.TheVariants.{Working};
ghost use Rattle.journal_device.specs.Answers.{MovesFieldsTo, LeavesPlaced, WritesClose};
ghost use Rattle.journal_device.specs.Device.{IsReady, in_journal, kept};
ghost use Rattle.journal_mode.specs.Closing.{IsAllFree};
ghost use Rattle.recalculation.specs.Recalculation.{fields_left};

use crate::JournalState;
use device_parts::Parts;
use sector_disk::{Disk, Failed};

/// Commits, places and settles all that was written. Then it moves the position of the recalculation, where tags are
/// still to be recalculated: once all is written back and synced, also where nothing was left to settle.
///
/// # Errors
///
/// - `Failed`: the disk failed. Any part of it may have been done, and each image is as a cut leaves it.
pub fn close<D: Disk>(
    disk: &mut D,
    parts: &mut Parts,
    state: &mut JournalState<'_>,
) -> Result<(), Failed>
    requires { IsReady Working parts.old state.old (D.identity disk.old) (D.moments disk.old) }

    ensures ends { Ends in_journal (kept parts.old state.old) (D.moments disk.old) (D.moments disk.new) result }
    ensures placed { OnOk result (LeavesPlaced (kept parts.old state.old) (D.moments disk.old) (D.moments disk.new)) }
    ensures free { OnOk result (IsAllFree state.new.journal.ring) }

    ensures cause { HasCause (D.faults disk.old) (D.faults disk.new) result }

    ensures identity { D.identity disk.new ≡ D.identity disk.old }

    ensures heads { MovesFieldsTo (fields_left state.old.recalculation) (kept parts.old state.old)
        (D.moments disk.old) (D.moments disk.new) }
    ensures writes { WritesClose (kept parts.old state.old) (D.moments disk.old) (D.moments disk.new) }
{
    state.journal.close(disk, &mut parts.tags)?;
    if !state.recalculation.position.is_set() {
        return Ok(());
    }
    state.recalculation.settle(disk, &mut parts.tags)
}
