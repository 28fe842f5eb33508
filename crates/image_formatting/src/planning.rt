//! The fields of a new image, and its geometry, by what it is to be and the size of the disk.
ghost use Rattle.std.specs.Prelude.{◌≡◌, Err, IfErr, IfOk, Ok};
ghost use Rattle.image_model.specs.Geometry.{fitting_log2_region, layout_of};
ghost use Rattle.image_model.specs.Superblock.{HasLayout};
ghost use Rattle.image_format.specs.Format.{IsFormat};
ghost use Rattle.formatting_model.specs.NewImage.{IsNewImage, asked_fields, fields_of, fields_with, flags_of, provided_of};

use formatting_model::NewImage;
use image_format::ImageFormat;
use image_model::{
    DIRTY_BITMAP, FIXED_HMAC, FIXED_PADDING, GeomFault, ImageMode, Padding, RECALCULATING, Wipe,
};
use layout::{Geometry, best_provided};
use superblock::{Super, version_for};

/// The format of the image on a disk of so many sectors.
///
/// # Errors
///
/// As `best_provided` tells them.
pub(crate) fn plan(new: &NewImage, disk_sectors: u64) -> Result<ImageFormat, GeomFault>
    requires { IsNewImage new.now }

    ensures provided { IfOk result (λ format. provided_of new.now disk_sectors ≡ Ok format.fields.provided) }
    ensures fields { IfOk result (λ format. format.fields ≡ fields_of new.now format.fields.provided) }
    ensures format { IfOk result (IsFormat disk_sectors) }

    ensures fault { IfErr result (λ fault. provided_of new.now disk_sectors ≡ Err fault) }
{
    let asked = asked_fields(new, 0);
    let provided = best_provided(&asked, disk_sectors)?;
    let log2_region = fitting(new, provided, disk_sectors)?;
    let fields = fields_with(new, provided, log2_region);
    let geometry = Geometry::new(&fields, disk_sectors)?;
    Ok(ImageFormat { fields, geometry })
}

/// The regions that the image is to have, raised so far that their bitmap would fit the journal.
fn fitting(new: &NewImage, provided: u64, disk_sectors: u64) -> Result<u8, GeomFault>
    requires new { IsNewImage new.now }
    requires provided { provided_of new.now disk_sectors ≡ Ok provided }

    // So the error never comes.
    ensures { result ≡ Ok (fitting_log2_region (layout_of (asked_fields new.now provided))) }
{
    let asked = asked_fields(new, provided);
    let geometry = Geometry::new(&asked, disk_sectors)?;
    Ok(geometry.fitting_log2_region())
}

/// The fields of an image with a journal that provides so many sectors, with regions as large as they are
/// asked for: no bitmap has to fit.
fn asked_fields(new: &NewImage, provided: u64) -> Super
    requires { IsNewImage new.now }

    ensures fields { result ≡ asked_fields new.now provided }
    ensures layout { HasLayout result }
{
    let with_journal = NewImage {
        mode: ImageMode::Journal,
        ..*new
    };
    fields_with(&with_journal, provided, new.log2_region)
}

/// The fields of the image with so many provided sectors and so large regions.
fn fields_with(new: &NewImage, provided: u64, log2_region: u8) -> Super
    requires { IsNewImage new.now }

    ensures fields { result ≡ fields_with new.now provided log2_region }
    ensures layout { HasLayout result }
{
    let flags = flags_of(new);
    Super {
        version: version_for(flags, 1),
        log2_interleave: new.log2_interleave,
        tag_size: new.tag_size as u16,
        sections: new.sections,
        provided,
        flags,
        log2_spb: new.log2_spb,
        log2_region,
        recalc_sector: 0,
        salt: new.salt.unwrap_or([0; 16]),
    }
}

/// The flags of the image.
fn flags_of(new: &NewImage) -> u32
    ensures { result ≡ flags_of new.now }
{
    let padding = match new.padding {
        Padding::Fixed => FIXED_PADDING,
        Padding::Legacy => 0,
    };
    let salt = if new.salt.is_some() { FIXED_HMAC } else { 0 };
    let bitmap = match new.mode {
        ImageMode::Journal => 0,
        ImageMode::Bitmap => DIRTY_BITMAP,
    };
    let recalculating = match new.wipe {
        Wipe::Recalculated => RECALCULATING,
        Wipe::Wiped | Wipe::Kept => 0,
    };
    padding | salt | bitmap | recalculating
}
