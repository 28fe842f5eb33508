//! The change from a journal to a bitmap.
//!
//! Zeros stand in the bitmap's place before the flag does. So an image that a cut leaves has an empty journal, blank
//! where the bitmap will be, or a bitmap of which no bit is set.
ghost use Rattle.std.specs.Prelude.{◌≡◌, ℕ, ◌*◌, ◌≤◌, IfOk, List, OnOk, Option, length};
ghost use Rattle.disk_model.specs.Causes.{HasCause};
ghost use Rattle.disk_model.specs.Identity.{IsBound};
ghost use Rattle.disk_model.specs.Moments.{IsChangedBy};
ghost use Rattle.image_format.specs.Format.{IsBitmapFormat, IsDirectFormat};
ghost use Rattle.mode_change.specs.ToBitmap.{OpensBitmap, StepsToBitmap, bitmap_count, bitmap_format, with_bitmap};

use crate::fields::bitmap_format;
use crate::head::write_head;
use crate::zeroing::zero_bitmap;
use image_format::ImageFormat;
use sector_disk::{Disk, Failed};

/// Changes an image from a journal to a bitmap, and returns the format that it has then. The bytes behind the fields of
/// sector 0 stay. Of `scratch` the beginning is overwritten with zeros, `bitmap_format` tells how many sectors of it.
///
/// The image is to be recovered and its journal emptied, and each tag that was to be recalculated made and written
/// back; that need not be synced.
///
/// 1. The disk is synced.
/// 2. Zeros are written in the bitmap's place, by one call, and synced.
/// 3. The fields with the flag are written to sector 0, and synced.
///
/// # Errors
///
/// - `Failed`: the disk failed. Each image has the blocks and the cells as before, by its own first sector.
pub fn change_to_bitmap<D: Disk>(
    disk: &mut D,
    format: &ImageFormat,
    scratch: &mut [u8],
) -> Result<ImageFormat, Failed>
    requires bound { IsBound (D.identity disk.old).name }
    requires format { IsDirectFormat (D.identity disk.old).sectors format.now }
    requires scratch { 512 * bitmap_count format.now ≤ length scratch.old }

    ensures format { IfOk result (λ after. after ≡ bitmap_format format.now) }
    ensures bitmap { IfOk result (IsBitmapFormat (D.identity disk.old).sectors) }
    ensures written { OnOk result (IsChangedBy (with_bitmap format.now)
        (D.moments disk.old) (D.moments disk.new)) }
    // A device in bitmap mode may be opened on it: no bit is set, and no region awaits.
    ensures opened { OnOk result ((key : Option (List ℕ)) → OpensBitmap key (D.identity disk.old).sectors
        format.now (D.moments disk.old) (D.moments disk.new)) }

    ensures cause { HasCause (D.faults disk.old) (D.faults disk.new) result }

    ensures scratch { length scratch.new ≡ length scratch.old }
    ensures identity { D.identity disk.new ≡ D.identity disk.old }

    // Zeros and sector 0 are written, in this order, and each image keeps what the one that was recovered has.
    ensures moments { StepsToBitmap (D.identity disk.old).sectors format.now
        (D.moments disk.old) (D.moments disk.new) }
{
    let after = bitmap_format(format, disk.sectors());
    disk.sync()?;
    zero_bitmap(disk, &after.geometry, scratch)?;
    write_head(disk, &after.fields)?;
    Ok(after)
}
