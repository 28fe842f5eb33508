//! How many sectors a disk can provide.
ghost use Rattle.std.specs.Prelude.{◌≡◌, IfOk};
ghost use Rattle.image_model.specs.Geometry.{best_provided_of};
ghost use Rattle.image_model.specs.GeometryLaws.{IsBestProvided};
ghost use Rattle.image_model.specs.Superblock.{HasLayout};

use crate::layout::{Layout, PROVIDED_STEP};
use image_model::{GeomFault, Super};

/// The sectors that a new image with these fields provides on a disk of so many sectors: the most that
/// have their data on it, a multiple of 8. The field `provided` is not looked at.
///
/// # Errors
///
/// The first that holds:
///
/// - `DeviceTooLarge`: the disk has more than 2^48 sectors.
/// - `JournalTooLarge`: the journal has more than 2^20 sectors.
/// - `TooSmall`: the disk has no room for 8 data sectors behind the journal and the tags of an area.
///
/// Source: Linux, `drivers/md/dm-integrity.c`, `initialize_superblock`.
pub fn best_provided(fields: &Super, disk_sectors: u64) -> Result<u64, GeomFault>
    requires fields { HasLayout fields.now }

    ensures told { result
        ≡ best_provided_of fields.now disk_sectors }
    ensures best { IfOk result (IsBestProvided fields.now disk_sectors) }
{
    let layout = Layout::on_disk(*fields, disk_sectors)?;
    let best = layout.best_provided(disk_sectors);
    if best == 0 {
        let have = disk_sectors;
        let need = layout.initial() + layout.tag_run + PROVIDED_STEP;
        return Err(GeomFault::TooSmall { have, need });
    }
    Ok(best)
}
