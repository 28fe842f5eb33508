//! The end of a device, in its mode.
ghost use Rattle.std.specs.Prelude.{◌≡◌, ◌↔◌, Err};
ghost use Rattle.disk_model.specs.Causes.{HasCause};
ghost use Rattle.device_parts.specs.Answers.{HasStepCause};
ghost use Rattle.device_parts.specs.Device.{Ends};
ghost use Rattle.device_parts.specs.declared.condition.Condition.TheVariants.{Working};
ghost use Rattle.device_model.specs.Progress.{Close};
ghost use Rattle.device.specs.Answers.{KeepsClearTags, WritesInClose};
ghost use Rattle.device.specs.Calls.{Closes, LeavesAtRest, WritesClosing};
ghost use Rattle.device.specs.Device.{IsReady, any_mode};

use crate::{DeviceParts, Mode};
use device_parts::{Condition, StepFault};
use sector_disk::{Disk, Failed};

/// Flushes all that was written; in journal mode all is committed, placed and settled, and in bitmap mode the bit of
/// each region is cleared that does not await. Where tags are to be recalculated without a bitmap the position then
/// moves to the regions that await still, and without one the flag is cleared. In recovery mode, and where it is
/// broken, a device makes no call of its disk.
///
/// # Errors
///
/// - `Disk`: the disk failed.
/// - `Broken`: the device is broken.
pub(crate) fn close<D: Disk>(
    disk: &mut D,
    parts: DeviceParts<'_>,
    condition: Condition,
) -> Result<(), StepFault>
    requires { IsReady condition parts (D.identity disk.old) (D.moments disk.old) }

    ensures closed { Closes result condition parts.entry (D.moments disk.old) (D.moments disk.new) }
    ensures rests { LeavesAtRest result condition parts.entry (D.moments disk.old) (D.moments disk.new) }

    ensures cause { HasStepCause (D.faults disk.old) (D.faults disk.new) result }
    ensures broken { (condition ≡ Condition.Broken) ↔ (result ≡ Err StepFault.Broken) }

    ensures identity { D.identity disk.new ≡ D.identity disk.old }
    ensures kept { condition ≡ Condition.Broken → disk.new ≡ disk.old }

    ensures tags { KeepsClearTags parts.entry.mode parts.entry.common Close
        (D.moments disk.old) (D.moments disk.new) }
    ensures writes { WritesClosing condition parts.entry (D.moments disk.old) (D.moments disk.new) }
{
    match condition {
        Condition::Broken => {
            drop(parts);
            Err(StepFault::Broken)
        }
        Condition::Working => match close_in_mode(disk, parts) {
            Ok(()) => Ok(()),
            Err(_) => Err(StepFault::Disk),
        },
    }
}

/// Closes a device that works, as its mode does it.
///
/// # Errors
///
/// - `Failed`: the disk failed.
fn close_in_mode<D: Disk>(disk: &mut D, parts: DeviceParts<'_>) -> Result<(), Failed>
    requires { IsReady Working parts (D.identity disk.old) (D.moments disk.old) }

    ensures ends { Ends any_mode parts.entry (D.moments disk.old) (D.moments disk.new) result }
    ensures rests { LeavesAtRest result Working parts.entry (D.moments disk.old) (D.moments disk.new) }

    ensures cause { HasCause (D.faults disk.old) (D.faults disk.new) result }

    ensures identity { D.identity disk.new ≡ D.identity disk.old }

    ensures tags { KeepsClearTags parts.entry.mode parts.entry.common Close
        (D.moments disk.old) (D.moments disk.new) }
    ensures writes { WritesInClose parts.entry.mode parts.entry.common
        (D.moments disk.old) (D.moments disk.new) }
{
    let DeviceParts { mut common, mode } = parts;
    match mode {
        Mode::Direct(mut recalculation) => {
            direct_device::close(disk, &mut common, &mut recalculation)
        }
        Mode::Journal(mut state) => journal_device::close(disk, &mut common, &mut state),
        Mode::Bitmap(mut regions) => bitmap_device::close(disk, &mut common, &mut regions),
        Mode::Recovery => Ok(()),
    }
}
