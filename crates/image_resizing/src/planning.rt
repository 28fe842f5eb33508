//! What an image is resized to, by what its first sector tells and the size of the disk.
ghost use Rattle.std.specs.Prelude.{◌≡◌, ◌≤◌, Err, IfErr, IfOk, List, ℕ, Option};
ghost use Rattle.disk_model.specs.Identity.{IsBound};
ghost use Rattle.disk_model.specs.Moments.{HasNow};
ghost use Rattle.hmac_tag.specs.TagMaker.{key_of};
ghost use Rattle.image_format.specs.Format.{IsFormat, IsReadNow};
ghost use Rattle.image_refusal.specs.Calls.{HasCallCause};
ghost use Rattle.image_model.specs.Geometry.{geometry_of};
ghost use Rattle.image_model.specs.Superblock.{IsAccepted};
ghost use Rattle.resize_model.specs.Resized.{resized_fields, resized_provided, with_provided};
ghost use Rattle.image_resizing.specs.Faults.{LeavesJournal, TellsFault};
ghost use Rattle.image_resizing.specs.Plan.{IsPlan, added, rule_of};

use hmac_tag::{Hash, TagMaker};
use image_format::{ImageFormat, read_format};
use image_model::{FIXED_HMAC, GeomFault};
use image_refusal::{CallFault, ResizeFault};
use layout::{Geometry, best_provided};
use sector_disk::Disk;
use superblock::Super;

/// An image as it is, and as it is to be.
#[derive(Drop)]
pub(crate) struct Plan {
    /// What its first sector tells.
    pub(crate) present: ImageFormat,
    /// What that is to tell: other provided sectors, and all else the same.
    pub(crate) grown: ImageFormat,
    /// What makes its tags.
    pub(crate) maker: TagMaker,
}

impl Plan {
    /// How many blocks are added.
    pub(crate) fn added(&self) -> u64
        requires { self.now.present.geometry.blocks ≤ self.now.grown.geometry.blocks }

        ensures { result ≡ added self.now }
    {
        self.grown.geometry.blocks() - self.present.geometry.blocks()
    }
}

/// Reads what the first sector of a disk tells, and plans what it is to tell. Nothing is written, and no memory is
/// taken.
///
/// # Errors
///
/// The first that holds:
///
/// - `Disk`: the disk failed at the read.
/// - `Head`: the first sector is refused. A disk without a sector has no magic.
/// - `Growth`: the journal has no room for the bitmap of all that the disk can provide.
pub(crate) fn plan_resize<D: Disk>(disk: &mut D, hash: Hash) -> Result<Plan, CallFault<ResizeFault>>
    requires { IsBound (D.identity disk.old).name }

    ensures plan { IfOk result (IsPlan (D.identity disk.old).sectors) }
    ensures key { IfOk result (λ plan. plan.maker.key ≡ key_of hash) }
    ensures reads { IfOk result (λ plan. (key : Option (List ℕ)) → HasNow
        (IsReadNow key (D.identity disk.old).sectors plan.present) (D.moments disk.old)) }

    ensures refused { IfErr result (λ fault. (key : Option (List ℕ))
        → TellsFault key (D.identity disk.old).sectors (D.moments disk.old) fault) }
    ensures journal { IfOk result (λ plan. (key : Option (List ℕ))
        → LeavesJournal key (D.identity disk.old).sectors plan.present (D.moments disk.old)) }
    ensures cause { HasCallCause (D.faults disk.old) (D.faults disk.new) result }

    ensures identity { D.identity disk.new ≡ D.identity disk.old }
    ensures kept { D.moments disk.new ≡ D.moments disk.old }
{
    let present = read_format(disk)?;
    let grown = grown_format(&present, disk.sectors())?;
    let maker = tag_maker(&present, hash);
    Ok(Plan {
        present,
        grown,
        maker,
    })
}

/// What the first sector is to tell, on a disk of so many sectors.
///
/// # Errors
///
/// - `BitmapTooLarge`: the journal has no room for the bitmap.
fn grown_format(present: &ImageFormat, sectors: u64) -> Result<ImageFormat, GeomFault>
    requires { IsFormat sectors present.now }

    ensures fields { IfOk result (λ grown. grown.fields ≡ resized_fields present.now.fields sectors) }
    ensures format { IfOk result (IsFormat sectors) }

    ensures fault { IfErr result (λ fault. geometry_of (resized_fields present.now.fields sectors) sectors
        ≡ Err fault) }
{
    let fields = Super {
        provided: resized_provided(&present.fields, sectors),
        ..present.fields
    };
    let geometry = Geometry::new(&fields, sectors)?;
    Ok(ImageFormat { fields, geometry })
}

/// The sectors that an image with these fields can provide on a disk of so many, and no fewer than it does.
fn resized_provided(fields: &Super, sectors: u64) -> u64
    requires { IsAccepted fields.now }

    ensures told { result ≡ resized_provided fields.now sectors }
    ensures accepted { IsAccepted (with_provided result fields.now) }
{
    match best_provided(fields, sectors) {
        Ok(best) => fields.provided.max(best),
        Err(_) => fields.provided,
    }
}

/// The maker of the tags of an image.
///
/// Source: Linux, `drivers/md/dm-integrity.c`, `SB_FLAG_FIXED_HMAC`.
fn tag_maker(format: &ImageFormat, hash: Hash) -> TagMaker
    ensures { result ≡ rule_of (key_of hash) format.now }
{
    let salt = if format.fields.flags & FIXED_HMAC != 0 {
        Some(format.fields.salt)
    } else {
        None
    };
    TagMaker::new(hash, salt, format.geometry.shape().tag as u8)
}
