//! The end of a device.
ghost use Rattle.std.specs.Prelude.{◌≡◌, OnOk};
ghost use Rattle.disk_model.specs.Causes.{HasCause};
ghost use Rattle.disk_model.specs.Disk.{OnlyAdds};
ghost use Rattle.disk_model.specs.Moments.{EachSince};
ghost use Rattle.device_model.specs.Progress as Model;
ghost use Rattle.device_parts.specs.Device.{Ends, Standing};
ghost use Rattle.device_parts.specs.declared.condition.Condition.TheVariants.{Working};
ghost use Rattle.bitmap_mode.specs.Closing.{IsOfClose};
ghost use Rattle.bitmap_device.specs.Answers.{HasBitmapLeft};
ghost use Rattle.bitmap_device.specs.Device.{IsBitmapped, IsReady, KeepsTagsBy, in_bitmap, kept};

use bitmap_mode::RegionStates;
use device_parts::Parts;
use sector_disk::{Disk, Failed};

/// Flushes all that was written, clears the bit of each region that does not await, and syncs.
///
/// # Errors
///
/// - `Failed`: the disk failed. Some of the bits may be cleared, once all was flushed.
pub fn close<D: Disk>(
    disk: &mut D,
    parts: &mut Parts,
    regions: &mut RegionStates,
) -> Result<(), Failed>
    requires { IsReady parts.old regions.old (D.identity disk.old) (D.moments disk.old) }

    ensures ends { Ends in_bitmap (kept parts.old regions.old) (D.moments disk.old) (D.moments disk.new) result }
    ensures bitmap { OnOk result ((w : Standing)
        → IsBitmapped w Working (kept parts.old regions.old) (D.moments disk.old)
        → HasBitmapLeft w (D.moments disk.new)) }
    ensures tags { KeepsTagsBy Model.Close (kept parts.old regions.old) (D.moments disk.old) (D.moments disk.new) }

    ensures cause { HasCause (D.faults disk.old) (D.faults disk.new) result }

    ensures identity { D.identity disk.new ≡ D.identity disk.old }

    ensures writes { EachSince (OnlyAdds (IsOfClose regions.old parts.old.tags))
        (D.moments disk.old) (D.moments disk.new) }
{
    regions.close(disk, &mut parts.tags)
}
