//! Zeros in the place of a bitmap, at the journal's start.
ghost use Rattle.std.specs.Prelude.{◌≡◌, ◌*◌, ◌≤◌, length, OnOk};
ghost use Rattle.disk_model.specs.Causes.{HasCause};
ghost use Rattle.disk_model.specs.Disk.{OnlyAdds};
ghost use Rattle.disk_model.specs.Identity.{IsBound};
ghost use Rattle.disk_model.specs.Moments.{EachSince, IsChangedBy};
ghost use Rattle.image_model.specs.Geometry.{IsGeometry, bitmap_sectors, journal_sectors};
ghost use Rattle.change_model.specs.Change.{IsOfZeros};
ghost use Rattle.mode_change.specs.ToBitmap.{with_zeros};

use image_model::SECTOR_SIZE;
use layout::Geometry;
use sector_disk::{Disk, Failed};

/// Writes zeros to the sectors that a bitmap of the geometry's regions takes, and syncs. All are written by one call,
/// from the beginning of `scratch`, which has zeros there then.
///
/// # Errors
///
/// - `Failed`: the disk failed. Any of the sectors may have got zeros as a candidate.
pub fn zero_bitmap<D: Disk>(
    disk: &mut D,
    geometry: &Geometry,
    scratch: &mut [u8],
) -> Result<(), Failed>
    requires bound { IsBound (D.identity disk.old).name }
    requires geometry { IsGeometry geometry.now (D.identity disk.old).sectors }
    requires fits { bitmap_sectors geometry.now ≤ journal_sectors geometry.now }
    requires scratch { 512 * bitmap_sectors geometry.now ≤ length scratch.old }

    ensures written { OnOk result (IsChangedBy (with_zeros (bitmap_sectors geometry.now))
        (D.moments disk.old) (D.moments disk.new)) }

    ensures cause { HasCause (D.faults disk.old) (D.faults disk.new) result }

    ensures scratch { length scratch.new ≡ length scratch.old }
    ensures identity { D.identity disk.new ≡ D.identity disk.old }

    // No other sector is written.
    ensures moments { EachSince (OnlyAdds (IsOfZeros geometry.now (bitmap_sectors geometry.now)))
        (D.moments disk.old) (D.moments disk.new) }
{
    let zeros = &mut scratch[..SECTOR_SIZE * geometry.bitmap_sectors() as usize];
    zeros.fill(0);
    disk.write_run(geometry.section_at(0), zeros)?;
    disk.sync()
}
