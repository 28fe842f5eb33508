//! Sector 0 with other fields.
ghost use Rattle.std.specs.Prelude.{◌≡◌, ◌<◌, IfOk, Ok};
ghost use Rattle.disk_model.specs.Causes.{HasCause};
ghost use Rattle.disk_model.specs.Identity.{IsBound};
ghost use Rattle.image_model.specs.Superblock.{IsAccepted, superblock_of};
ghost use Rattle.recalculation.specs.Position.{IsHeadOf};

use image_model::{SECTOR_SIZE, Super};
use sector_disk::{Disk, Failed};
use superblock::write;

/// The bytes of sector 0 as reads give it, with these fields in place of its own. It writes nothing.
///
/// Source: Linux, `drivers/md/dm-integrity.c`, `sync_rw_sb`, which writes the sector as it was read.
///
/// # Errors
///
/// - `Failed`: the disk failed.
pub fn head_with<D: Disk>(disk: &mut D, fields: &Super) -> Result<[u8; SECTOR_SIZE], Failed>
    requires bound { IsBound (D.identity disk.old).name }
    requires sectors { 0 < (D.identity disk.old).sectors }
    requires fields { IsAccepted fields.now }

    ensures head { IfOk result (λ head. IsHeadOf fields.now head (D.moments disk.old)) }
    ensures told { IfOk result (λ head. superblock_of head ≡ Ok fields.now) }

    ensures cause { HasCause (D.faults disk.old) (D.faults disk.new) result }

    ensures identity { D.identity disk.new ≡ D.identity disk.old }
    ensures kept { D.moments disk.new ≡ D.moments disk.old }
{
    let mut head = [0; SECTOR_SIZE];
    disk.read_run(0, &mut head)?;
    write(fields, &mut head);
    Ok(head)
}
