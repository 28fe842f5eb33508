//! A sector of a bitmap, written from memory.
ghost use Rattle.std.specs.Prelude.{◌≡◌, ◌*◌, ◌/◌, ◌<◌, ℕ, OnOk};
ghost use Rattle.disk_model.specs.Causes.{HasCause};
ghost use Rattle.disk_model.specs.Disk.{IsOfRun, OnlyAdds, newest_only, with_run};
ghost use Rattle.disk_model.specs.Identity.{IsBound};
ghost use Rattle.disk_model.specs.Moments.{EachSince, IsChangedBy};
ghost use Rattle.bitmap_model.specs.BitmapDisk.{bit_sector};
ghost use Rattle.dirty_bitmap.specs.Regions.{IsSectorOf, KeepsBut, sector_of};

use crate::RegionSet;
use image_model::{SECTOR_BITS, SUPERBLOCK_SECTORS};
use sector_disk::{Disk, Failed};

/// Writes the sector of a region's bit.
///
/// # Errors
///
/// - `Failed`: the disk failed. The sector may have got its bytes as a candidate.
pub(crate) fn write_bit<D: Disk>(disk: &mut D, set: &RegionSet, region: u64) -> Result<(), Failed>
    requires bound { IsBound (D.identity disk.old).name }
    requires region { region < set.now.size }
    requires inside { bit_sector region < (D.identity disk.old).sectors }

    ensures written { OnOk result (IsChangedBy (with_run (bit_sector region) (sector_of set.now (region / 4096)))
        (D.moments disk.old) (D.moments disk.new)) }

    ensures cause { HasCause (D.faults disk.old) (D.faults disk.new) result }

    ensures sector { IsSectorOf set.now (region / 4096) (sector_of set.now (region / 4096)) }
    ensures identity { D.identity disk.new ≡ D.identity disk.old }
    ensures others { EachSince (KeepsBut (bit_sector region)) (D.moments disk.old) (D.moments disk.new) }

    ensures moments { EachSince (OnlyAdds (IsOfRun (bit_sector region) (sector_of set.now (region / 4096))))
        (D.moments disk.old) (D.moments disk.new) }
{
    let sector = region / SECTOR_BITS;
    disk.write_run(SUPERBLOCK_SECTORS + sector, set.sector(sector))
}

/// Writes it, and syncs.
///
/// # Errors
///
/// - `Failed`: the disk failed. The sector may have got its bytes as a candidate.
pub(crate) fn write_bit_and_sync<D: Disk>(
    disk: &mut D,
    set: &RegionSet,
    region: u64,
) -> Result<(), Failed>
    requires bound { IsBound (D.identity disk.old).name }
    requires region { region < set.now.size }
    requires inside { bit_sector region < (D.identity disk.old).sectors }

    ensures written { OnOk result (IsChangedBy
        (λ c. newest_only (with_run (bit_sector region) (sector_of set.now (region / 4096)) c))
        (D.moments disk.old) (D.moments disk.new)) }

    ensures cause { HasCause (D.faults disk.old) (D.faults disk.new) result }

    ensures sector { IsSectorOf set.now (region / 4096) (sector_of set.now (region / 4096)) }
    ensures identity { D.identity disk.new ≡ D.identity disk.old }
    ensures others { EachSince (KeepsBut (bit_sector region)) (D.moments disk.old) (D.moments disk.new) }

    ensures moments { EachSince (OnlyAdds (IsOfRun (bit_sector region) (sector_of set.now (region / 4096))))
        (D.moments disk.old) (D.moments disk.new) }
{
    write_bit(disk, set, region)?;
    disk.sync()
}
