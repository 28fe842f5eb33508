//! Reads the first sector, and judges what it tells: first the superblock, then the geometry.
ghost use Rattle.std.specs.Prelude.{◌≡◌, ◌≢◌, ℕ, Err, IfErr, IfOk, List, Ok, Option};
ghost use Rattle.disk_model.specs.Disk.{last_image};
ghost use Rattle.disk_model.specs.Identity.{IsBound};
ghost use Rattle.disk_model.specs.Moments.{HasNow};
ghost use Rattle.image_model.specs.Superblock.{IsAccepted, has_flag};
ghost use Rattle.image_model.specs.declared.flags.TheConstants.{DIRTY_BITMAP};
ghost use Rattle.image_refusal.specs.Calls.{HasCallCause, TellsCause};
ghost use Rattle.image_format.specs.Format.{IsFormat, IsReadNow, fields_of, format_of};

use image_model::{DIRTY_BITMAP, SECTOR_SIZE};
use image_refusal::{CallFault, HeadFault};
use layout::Geometry;
use sector_disk::Disk;
use superblock::{Super, SuperFault, read};

/// What the first sector of a disk tells.
#[derive(Clone, Copy, Debug)]
pub struct ImageFormat {
    /// The fields of the superblock, which are accepted.
    pub fields: Super,
    /// Where all lies on the disk, by these fields.
    pub geometry: Geometry,
}

impl ImageFormat {
    /// Whether there is a bitmap in the place of the journal.
    ///
    /// Source: Linux, `drivers/md/dm-integrity.c`, `SB_FLAG_DIRTY_BITMAP`.
    pub fn has_bitmap(&self) -> bool
        ensures { result ≡ has_flag DIRTY_BITMAP self.now.fields.flags }
    {
        self.fields.flags & DIRTY_BITMAP != 0
    }
}

/// Reads what the first sector tells. It writes nothing.
///
/// # Errors
///
/// The first that holds:
///
/// - `Disk`: the disk failed at the read.
/// - `Super`: the superblock is refused. A disk without a sector has no magic.
/// - `Geom`: the disk has no room for what the superblock tells.
pub fn read_format<D: Disk>(disk: &mut D) -> Result<ImageFormat, CallFault<HeadFault>>
    requires { IsBound (D.identity disk.old).name }

    ensures format { IfOk result (IsFormat (D.identity disk.old).sectors) }
    ensures reads { IfOk result (λ format. (key : Option (List ℕ)) → HasNow
        (IsReadNow key (D.identity disk.old).sectors format) (D.moments disk.old)) }

    ensures told { IfOk result (λ format. HasNow (λ c. Ok format
        ≡ format_of (D.identity disk.old).sectors (last_image c)) (D.moments disk.old)) }
    ensures refused { IfErr result (TellsCause (format_of (D.identity disk.old).sectors) (D.moments disk.old)) }
    // To read a format takes no memory.
    ensures memory { result ≢ Err CallFault.Memory }
    ensures cause { HasCallCause (D.faults disk.old) (D.faults disk.new) result }

    ensures identity { D.identity disk.new ≡ D.identity disk.old }
    ensures kept { D.moments disk.new ≡ D.moments disk.old }
{
    let fields = read_fields(disk)?;
    let geometry = Geometry::new(&fields, disk.sectors())?;
    Ok(ImageFormat { fields, geometry })
}

/// Reads the fields of the superblock.
fn read_fields<D: Disk>(disk: &mut D) -> Result<Super, CallFault<HeadFault>>
    requires { IsBound (D.identity disk.old).name }

    ensures accepted { IfOk result (λ fields. IsAccepted fields) }

    ensures told { IfOk result (λ fields. HasNow (λ c. Ok fields
        ≡ fields_of (D.identity disk.old).sectors (last_image c)) (D.moments disk.old)) }
    ensures refused { IfErr result (TellsCause (fields_of (D.identity disk.old).sectors) (D.moments disk.old)) }
    ensures memory { result ≢ Err CallFault.Memory }
    ensures cause { HasCallCause (D.faults disk.old) (D.faults disk.new) result }

    ensures identity { D.identity disk.new ≡ D.identity disk.old }
    ensures kept { D.moments disk.new ≡ D.moments disk.old }
{
    if disk.sectors() == 0 {
        return Err(CallFault::Refused(HeadFault::Super(SuperFault::Magic)));
    }
    let mut bytes = [0; SECTOR_SIZE];
    disk.read_run(0, &mut bytes)?;
    let fields = read(&bytes)?;
    Ok(fields)
}
