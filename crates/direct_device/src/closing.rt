//! The end of a device.
ghost use Rattle.std.specs.Prelude.{◌≡◌, OnOk};
ghost use Rattle.disk_model.specs.Causes.{HasCause};
ghost use Rattle.image_model.specs.declared.flags.TheConstants.{RECALCULATING};
ghost use Rattle.image_model.specs.Superblock.{has_flag};
ghost use Rattle.device_parts.specs.Device.{Ends};
ghost use Rattle.recalculation.specs.Recalculation.{fields_left};
ghost use Rattle.direct_device.specs.Answers.{LeavesFields, MovesFieldsTo, WritesClose};
ghost use Rattle.direct_device.specs.Device.{IsReady, in_direct, kept};

use device_parts::Parts;
use recalculation::Recalculation;
use sector_disk::{Disk, Failed};

/// Flushes all that was written. Where tags are to be recalculated it then moves the position to the regions that await
/// still, and where none does it clears the flag.
///
/// # Errors
///
/// - `Failed`: the disk failed. Sector 0 may have got the new fields as a candidate, once all was flushed.
pub fn close<D: Disk>(
    disk: &mut D,
    parts: &mut Parts,
    recalculation: &mut Recalculation,
) -> Result<(), Failed>
    requires { IsReady parts.old recalculation.old (D.identity disk.old) (D.moments disk.old) }

    ensures ends { Ends in_direct (kept parts.old recalculation.old)
        (D.moments disk.old) (D.moments disk.new) result }
    ensures fields { OnOk result (LeavesFields (kept parts.old recalculation.old)
        (D.moments disk.old) (D.moments disk.new)) }

    ensures cause { HasCause (D.faults disk.old) (D.faults disk.new) result }

    ensures identity { D.identity disk.new ≡ D.identity disk.old }

    ensures heads { MovesFieldsTo (fields_left recalculation.old) (kept parts.old recalculation.old)
        (D.moments disk.old) (D.moments disk.new) }
    ensures writes { WritesClose (has_flag RECALCULATING recalculation.old.position.flags) parts.old.tags.geometry
        (D.moments disk.old) (D.moments disk.new) }
{
    recalculation.settle(disk, &mut parts.tags)
}
