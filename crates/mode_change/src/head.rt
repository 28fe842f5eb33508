//! Sector 0, as a change of mode writes it.
ghost use Rattle.std.specs.Prelude.{◌≡◌, ◌<◌, OnOk};
ghost use Rattle.disk_model.specs.Causes.{HasCause};
ghost use Rattle.disk_model.specs.Disk.{OnlyAdds, last_image};
ghost use Rattle.disk_model.specs.Identity.{IsBound};
ghost use Rattle.disk_model.specs.Moments.{EachSince, IsChangedBy};
ghost use Rattle.image_model.specs.Superblock.{IsAccepted};
ghost use Rattle.change_model.specs.Change.{IsOfHead};
ghost use Rattle.change_model.specs.Fields.{with_head};
ghost use Rattle.mode_change.specs.ToBitmap.{with_fields};

use recalculation::head_with;
use sector_disk::{Disk, Failed};
use superblock::Super;

/// Writes these fields to sector 0, and syncs. The bytes behind the fields stay.
///
/// Source: Linux, `drivers/md/dm-integrity.c`, `sync_rw_sb`.
///
/// # Errors
///
/// - `Failed`: the disk failed. Sector 0 may have got the fields as a candidate.
pub fn write_head<D: Disk>(disk: &mut D, fields: &Super) -> Result<(), Failed>
    requires bound { IsBound (D.identity disk.old).name }
    requires sectors { 0 < (D.identity disk.old).sectors }
    requires fields { IsAccepted fields.now }

    ensures written { OnOk result (IsChangedBy (with_fields fields.now)
        (D.moments disk.old) (D.moments disk.new)) }

    ensures cause { HasCause (D.faults disk.old) (D.faults disk.new) result }

    ensures identity { D.identity disk.new ≡ D.identity disk.old }

    // No other sector is written.
    ensures moments { EachSince (λ start. OnlyAdds (IsOfHead (with_head fields.now (last_image start 0))) start)
        (D.moments disk.old) (D.moments disk.new) }
{
    let head = head_with(disk, fields)?;
    disk.write_run(0, &head)?;
    disk.sync()
}
