//! How many regions are dirty.
ghost use Rattle.std.specs.Prelude.{◌≡◌, IfOk};
ghost use Rattle.disk_model.specs.Causes.{HasCause};
ghost use Rattle.disk_model.specs.Disk.{last_image};
ghost use Rattle.disk_model.specs.Identity.{IsBound};
ghost use Rattle.disk_model.specs.Moments.{HasNow};
ghost use Rattle.dump_model.specs.Dump.{dirty_count};
ghost use Rattle.bitmap_reading.specs.Bitmap.{HasBitmap};
ghost use Rattle.sector_window.specs.Window.{HasRoom};

use crate::words::{WORD_BITS, ones, read_word};
use layout::Geometry;
use sector_disk::{Disk, Failed};
use sector_window::SectorWindow;

/// How many regions are dirty, by a walk over the words of the bitmap, which is read in runs. Bits of no region are not
/// counted.
///
/// # Errors
///
/// - `Failed`: the disk failed at a read.
pub fn count_dirty<D: Disk>(
    disk: &mut D,
    geometry: &Geometry,
    window: &mut SectorWindow,
) -> Result<u64, Failed>
    requires bound { IsBound (D.identity disk.old).name }
    requires geometry { HasBitmap geometry.now (D.identity disk.old).sectors }
    requires window { HasRoom 1 window.old (D.moments disk.old) }

    ensures count { IfOk result (λ count. HasNow (λ c. count
        ≡ dirty_count geometry.now (last_image c)) (D.moments disk.old)) }

    ensures cause { HasCause (D.faults disk.old) (D.faults disk.new) result }

    ensures window { HasRoom 1 window.new (D.moments disk.new) }
    ensures identity { D.identity disk.new ≡ D.identity disk.old }
    ensures kept { D.moments disk.new ≡ D.moments disk.old }
{
    let regions = geometry.regions();
    let mut count = 0;
    for at in 0..regions.div_ceil(WORD_BITS) {
        let word = read_word(disk, window, at)?;
        count += ones(word, (regions - WORD_BITS * at).min(WORD_BITS));
    }
    Ok(count)
}
