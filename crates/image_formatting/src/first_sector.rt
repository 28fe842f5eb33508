//! The first sector: zeros before all else, and the superblock behind it.
//!
//! A sync stands behind the zeros, and one before the superblock. So while all else is written no
//! cut leaves a magic.
ghost use Rattle.std.specs.Prelude.{◌≡◌, ◌<◌, length, Ok, OnOk};
ghost use Rattle.disk_model.specs.Causes.{HasCause};
ghost use Rattle.disk_model.specs.Disk.{OnlyAdds};
ghost use Rattle.disk_model.specs.Identity.{IsBound};
ghost use Rattle.disk_model.specs.Moments.{EachSince, IsChangedBy};
ghost use Rattle.image_model.specs.Superblock.{IsAccepted, superblock_of};
ghost use Rattle.formatting_model.specs.FirstSector.{HasZeroHead, IsAmidFounding, IsFirst, forgotten, founded, head_of, zero_sector};
ghost use Rattle.formatting_model.specs.Order.{IsForgotten, IsInOrder, IsUnsettled, SyncsFirst};

use image_model::SECTOR_SIZE;
use sector_disk::{Disk, Failed};
use superblock::{Super, write};

/// Writes zeros to the first sector, and syncs.
///
/// # Errors
///
/// - `Failed`: the disk failed. The first sector may have got zeros as a candidate.
pub(crate) fn forget<D: Disk>(disk: &mut D) -> Result<(), Failed>
    requires bound { IsBound (D.identity disk.old).name }
    requires sectors { 0 < (D.identity disk.old).sectors }

    ensures forgotten { OnOk result (IsChangedBy forgotten (D.moments disk.old) (D.moments disk.new)) }
    ensures synced { OnOk result (SyncsFirst (IsUnsettled HasZeroHead) IsForgotten
        (D.moments disk.old) (D.moments disk.new)) }

    ensures cause { HasCause (D.faults disk.old) (D.faults disk.new) result }

    ensures identity { D.identity disk.new ≡ D.identity disk.old }

    ensures moments { IsInOrder (IsUnsettled HasZeroHead) IsForgotten
        (D.moments disk.old) (D.moments disk.new) }
    ensures writes { EachSince (OnlyAdds (IsFirst zero_sector)) (D.moments disk.old) (D.moments disk.new) }
{
    disk.write_run(0, &[0; SECTOR_SIZE])?;
    disk.sync()
}

/// Syncs, writes the superblock to the first sector, and syncs.
///
/// # Errors
///
/// - `Failed`: the disk failed. The first sector may have got the superblock as a candidate, behind
///   the first sync.
pub(crate) fn found<D: Disk>(disk: &mut D, fields: &Super) -> Result<(), Failed>
    requires bound { IsBound (D.identity disk.old).name }
    requires sectors { 0 < (D.identity disk.old).sectors }
    requires fields { IsAccepted fields.now }

    ensures founded { OnOk result (IsChangedBy (founded fields.now)
        (D.moments disk.old) (D.moments disk.new)) }
    ensures whole { length (head_of fields.now) ≡ 512 }
    ensures told { superblock_of (head_of fields.now) ≡ Ok fields.now }

    ensures cause { HasCause (D.faults disk.old) (D.faults disk.new) result }

    ensures identity { D.identity disk.new ≡ D.identity disk.old }

    ensures moments { EachSince (IsAmidFounding fields.now) (D.moments disk.old) (D.moments disk.new) }
    ensures writes { EachSince (OnlyAdds (IsFirst (head_of fields.now))) (D.moments disk.old) (D.moments disk.new) }
{
    let mut bytes = [0; SECTOR_SIZE];
    write(fields, &mut bytes);
    disk.sync()?;
    disk.write_run(0, &bytes)?;
    disk.sync()
}
