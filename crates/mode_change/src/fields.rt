//! The format of an image behind a change of its mode: the fields that are to be written, and where all lies by them.
ghost use Rattle.std.specs.Prelude.{◌≡◌, ◌<◌, ◌^◌};
ghost use Rattle.image_format.specs.Format.{IsBitmapFormat, IsDirectFormat};
ghost use Rattle.image_model.specs.SuperblockLaws.{FitsBytes};
ghost use Rattle.change_model.specs.Fields.{bitmap_fields, journal_fields, recalculated_fields};
ghost use Rattle.mode_change.specs.ToBitmap.{MarksFormat, bitmap_format};
ghost use Rattle.mode_change.specs.ToJournal.{journal_format};

use image_format::ImageFormat;
use image_model::{DIRTY_BITMAP, RECALCULATING, Super};
use layout::Geometry;
use superblock::version_for;

/// The format behind a change from a journal to a bitmap, on a disk of so many sectors: the regions are the least that
/// fit, and nothing is to be recalculated. It is so for each image without a bitmap.
///
/// Own: `docs/FORMAT.md` has the steps of the change.
pub fn bitmap_format(format: &ImageFormat, disk_sectors: u64) -> ImageFormat
    requires format { IsDirectFormat disk_sectors format.now }

    ensures format { result ≡ bitmap_format format.now }
    ensures bitmap { IsBitmapFormat disk_sectors result }
    ensures marks { MarksFormat disk_sectors format.now result }
{
    let fields = marked_fields(format, disk_sectors);
    match Geometry::new(&fields, disk_sectors) {
        Ok(geometry) => ImageFormat { fields, geometry },
        Err(_) => unreachable!(),
    }
}

/// The format behind a change from a bitmap to a journal, on a disk of so many sectors: the regions stay, and so does
/// all that lies on the disk, and nothing is to be recalculated. It is so for each image with a bitmap.
///
/// Own: `docs/FORMAT.md` has the steps of the change.
pub fn journal_format(format: &ImageFormat, disk_sectors: u64) -> ImageFormat
    requires format { IsBitmapFormat disk_sectors format.now }

    ensures format { result ≡ journal_format format.now }
    ensures direct { IsDirectFormat disk_sectors result }
    ensures marks { MarksFormat disk_sectors format.now result }
    ensures fits { FitsBytes format.now.fields }
{
    ImageFormat {
        fields: unmarked_fields(format, disk_sectors),
        geometry: format.geometry,
    }
}

/// The fields behind a change to a bitmap.
fn marked_fields(format: &ImageFormat, disk_sectors: u64) -> Super
    requires format { IsDirectFormat disk_sectors format.now }

    ensures fields { result ≡ bitmap_fields format.now.fields }
    ensures marks { MarksFormat disk_sectors format.now (bitmap_format format.now) }
{
    let fields = recalculated_fields(format.fields);
    let flags = fields.flags | DIRTY_BITMAP;
    Super {
        version: version_for(flags, fields.version),
        flags,
        log2_region: format.geometry.fitting_log2_region(),
        ..fields
    }
}

/// The fields behind a change to a journal.
fn unmarked_fields(format: &ImageFormat, disk_sectors: u64) -> Super
    requires format { IsBitmapFormat disk_sectors format.now }

    ensures fields { result ≡ journal_fields format.now.fields }
    ensures direct { IsDirectFormat disk_sectors (journal_format format.now) }
    ensures marks { MarksFormat disk_sectors format.now (journal_format format.now) }
    ensures fits { FitsBytes format.now.fields }
{
    let fields = recalculated_fields(format.fields);
    let flags = fields.flags & !DIRTY_BITMAP;
    let version = version_for(flags, fields.version);
    Super {
        version,
        flags,
        ..fields
    }
}

/// The fields once all tags are in place: nothing is to be recalculated, and the position is behind the last block.
fn recalculated_fields(fields: Super) -> Super
    ensures fields { result ≡ recalculated_fields fields }
    ensures fits { FitsBytes fields }
{
    if fields.flags & RECALCULATING == 0 {
        return fields;
    }
    Super {
        flags: fields.flags & !RECALCULATING,
        recalc_sector: fields.provided,
        ..fields
    }
}
