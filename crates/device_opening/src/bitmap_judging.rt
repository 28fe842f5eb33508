//! Judging an image with a bitmap before anything is done to it.
ghost use Rattle.std.specs.Prelude.{◌≡◌, ◌⊎◌, Err, IfOk, IsErr};
ghost use Rattle.disk_model.specs.Identity.{IsBound};
ghost use Rattle.hmac_tag.specs.TagMaker.{key_of};
ghost use Rattle.image_format.specs.Format.{IsBitmapFormat};
ghost use Rattle.image_refusal.specs.Calls.{HasCallCause};
ghost use Rattle.judging_model.specs.Faults.{fault_of};
ghost use Rattle.device_opening.specs.BitmapOpening.{AreRegionsOf, HasJudgedBitmap};
ghost use Rattle.device_opening.specs.Judged.{HasBitmapFormat};
ghost use Rattle.device_opening.specs.Opening.{TellsFault};

use crate::judging::maker_of;
use bitmap_mode::RegionStates;
use dirty_bitmap::BitsFault;
use hmac_tag::{Hash, TagMaker};
use image_format::ImageFormat;
use image_judging::{Consent, lacks_consent};
use image_refusal::{CallFault, OpenFault};
use layout::Geometry;
use sector_disk::Disk;
use std::alloc::Global;

/// An image with a bitmap that can be opened.
#[derive(Drop)]
pub(crate) struct JudgedBitmap {
    /// What its first sector tells.
    pub(crate) format: ImageFormat,
    /// What makes its tags.
    pub(crate) maker: TagMaker,
    /// Its regions: each whose bit is set awaits.
    pub(crate) regions: RegionStates,
}

impl JudgedBitmap {
    /// Where all lies on its disk.
    pub(crate) fn geometry(&self) -> Geometry
        ensures { result ≡ self.now.format.geometry }
    {
        self.format.geometry
    }
}

/// Judges the image of a disk, whose first sector tells this format, which has a bitmap: that asks for consent where a
/// bit is set and there is a key. Nothing is done but a read, and the memory that is taken is for the regions.
///
/// # Errors
///
/// `Memory` and `Disk` come whenever they hold:
///
/// - `Memory`: there is none for the regions.
/// - `Disk`: the disk failed at the read.
/// - `Consent`: a bit is set, there is a key, and consent is withheld.
pub(crate) fn judge_bitmap<D: Disk>(
    alloc: Global,
    disk: &mut D,
    format: ImageFormat,
    hash: Hash,
    consent: Consent,
) -> Result<JudgedBitmap, CallFault<OpenFault>>
    requires bound { IsBound (D.identity disk.old).name }
    requires found { HasBitmapFormat (D.identity disk.old).sectors format (D.moments disk.old) }

    ensures judged { IfOk result (λ image. HasJudgedBitmap (D.identity disk.old).sectors image (D.moments disk.old)) }
    ensures key { IfOk result (λ image. image.maker.key ≡ key_of hash) }
    ensures format { IfOk result (λ image. image.format ≡ format) }

    ensures refused { TellsFault (fault_of (key_of hash) consent (D.identity disk.old).sectors)
        (D.moments disk.old) result }
    ensures cause { HasCallCause (D.faults disk.old) (D.faults disk.new) result }

    ensures identity { D.identity disk.new ≡ D.identity disk.old }
    ensures kept { D.moments disk.new ≡ D.moments disk.old }
{
    let regions = load_regions(alloc, disk, &format)?;
    if lacks_consent(&hash, consent, regions.some_await()) {
        let flags = format.fields.flags;
        return Err(CallFault::Refused(OpenFault::Consent { flags }));
    }
    let maker = maker_of(hash, &format);
    Ok(JudgedBitmap {
        format,
        maker,
        regions,
    })
}

/// The regions of an image in this format, by one read of its bitmap.
///
/// # Errors
///
/// - `Memory`: there is none for them.
/// - `Disk`: the disk failed at the read.
fn load_regions<D: Disk>(
    alloc: Global,
    disk: &mut D,
    format: &ImageFormat,
) -> Result<RegionStates, CallFault<OpenFault>>
    requires bound { IsBound (D.identity disk.old).name }
    requires format { IsBitmapFormat (D.identity disk.old).sectors format.now }

    ensures loaded { IfOk result (λ regions. AreRegionsOf format.now regions (D.moments disk.old)) }
    ensures err { IsErr result → (result ≡ Err CallFault.Memory) ⊎ (result ≡ Err CallFault.Disk) }
    ensures cause { HasCallCause (D.faults disk.old) (D.faults disk.new) result }

    ensures identity { D.identity disk.new ≡ D.identity disk.old }
    ensures kept { D.moments disk.new ≡ D.moments disk.old }
{
    match RegionStates::load(alloc, disk, &format.fields, format.geometry) {
        Ok(regions) => Ok(regions),
        Err(BitsFault::Memory) => Err(CallFault::Memory),
        Err(BitsFault::Disk) => Err(CallFault::Disk),
    }
}
