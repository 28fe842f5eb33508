//! Whether the region of a block is dirty.
ghost use Rattle.std.specs.Prelude.{◌≡◌, ◌/◌, ◌^◌, ◌<◌, ◌≤◌, IfOk};
ghost use Rattle.disk_model.specs.Causes.{HasCause};
ghost use Rattle.disk_model.specs.Disk.{last_image};
ghost use Rattle.disk_model.specs.Identity.{IsBound};
ghost use Rattle.disk_model.specs.Moments.{HasNow};
ghost use Rattle.image_model.specs.Bitmap.{is_bit_set, is_dirty};
ghost use Rattle.image_model.specs.Geometry.{region_of};
ghost use Rattle.bitmap_model.specs.BitmapDisk.{bit_in, bit_sector};
ghost use Rattle.bitmap_reading.specs.Bitmap.{HasBitmap};
ghost use Rattle.sector_window.specs.Window.{HasRoom};

use image_model::{SECTOR_BITS, SUPERBLOCK_SECTORS};
use layout::Geometry;
use sector_disk::{Disk, Failed};
use sector_window::SectorWindow;

/// Whether the region of a block is dirty. The sector of its bit is read where the window does not show it, so that
/// whoever asks for the blocks in order reads the bitmap once, in runs.
///
/// # Errors
///
/// - `Failed`: the disk failed at the read.
pub fn is_dirty<D: Disk>(
    disk: &mut D,
    geometry: &Geometry,
    window: &mut SectorWindow,
    block: u64,
) -> Result<bool, Failed>
    requires bound { IsBound (D.identity disk.old).name }
    requires geometry { HasBitmap geometry.now (D.identity disk.old).sectors }
    requires window { HasRoom 1 window.old (D.moments disk.old) }
    requires block { block < geometry.now.blocks }

    ensures dirty { IfOk result (λ dirty. HasNow (λ c. dirty
        ≡ is_dirty geometry.now (last_image c) (region_of geometry.now block)) (D.moments disk.old)) }

    ensures cause { HasCause (D.faults disk.old) (D.faults disk.new) result }

    ensures window { HasRoom 1 window.new (D.moments disk.new) }
    ensures identity { D.identity disk.new ≡ D.identity disk.old }
    ensures kept { D.moments disk.new ≡ D.moments disk.old }
{
    read_bit(disk, window, geometry.region_of(block))
}

/// Reads the bit of a region.
///
/// # Errors
///
/// - `Failed`: the disk failed at the read.
fn read_bit<D: Disk>(disk: &mut D, window: &mut SectorWindow, region: u64) -> Result<bool, Failed>
    requires bound { IsBound (D.identity disk.old).name }
    requires window { HasRoom 1 window.old (D.moments disk.old) }
    requires inside { bit_sector region < (D.identity disk.old).sectors }
    requires device { (D.identity disk.old).sectors ≤ 2 ^ 48 }

    ensures bit { IfOk result (λ bit. HasNow (λ c. bit
        ≡ is_bit_set (last_image c (bit_sector region)) (bit_in region)) (D.moments disk.old)) }

    ensures cause { HasCause (D.faults disk.old) (D.faults disk.new) result }

    ensures window { HasRoom 1 window.new (D.moments disk.new) }
    ensures identity { D.identity disk.new ≡ D.identity disk.old }
    ensures kept { D.moments disk.new ≡ D.moments disk.old }
{
    let sector = SUPERBLOCK_SECTORS + region / SECTOR_BITS;
    window.show(disk, sector, 1)?;
    let bit = region % SECTOR_BITS;
    let bytes = window.run(sector, 1);
    Ok(bytes[(bit / 8) as usize] >> (bit % 8) & 1 == 1)
}
