//! Which blocks are not judged by what is placed: those that have an entry in the journal, and those that await their
//! tags.
ghost use Rattle.std.specs.Prelude.{◌≡◌, ◌+◌, ◌-◌, ◌^◌, ◌<◌, if◌then◌else◌, IfOk};
ghost use Rattle.disk_model.specs.Causes.{HasCause};
ghost use Rattle.disk_model.specs.Disk.{last_image};
ghost use Rattle.disk_model.specs.Identity.{IsBound};
ghost use Rattle.disk_model.specs.Moments.{HasNow};
ghost use Rattle.image_model.specs.Bitmap.{awaits, is_to_recalculate};
ghost use Rattle.image_model.specs.Geometry.{IsGeometry};
ghost use Rattle.image_format.specs.Format.{IsFormat};
ghost use Rattle.check_model.specs.Report.{awaiting_below};
ghost use Rattle.image_check.specs.Checked.{awaits_in, has_entry, is_passed};
ghost use Rattle.sector_window.specs.Window.{HasRoom};

use crate::What;
use crate::opening::has_bitmap;
use bitmap_reading::is_dirty;
use image_format::ImageFormat;
use image_model::RECALCULATING;
use journal_reading::NewestEntries;
use sector_disk::{Disk, Failed};
use sector_window::SectorWindow;

/// Whether a block has an entry in the journal, where one is looked at.
fn has_entry(journal: &Option<NewestEntries>, block: u64) -> bool
    ensures { result ≡ has_entry journal.now block }
{
    match journal {
        None => false,
        Some(newest) => newest.newest(block).is_some(),
    }
}

/// Whether the tag of a block is to be recalculated, by the fields alone: the flag for that is set, and the block has a
/// sector at or above `recalc_sector`.
///
/// Source: Linux, `drivers/md/dm-integrity.c`, `integrity_recalc`.
fn is_to_recalculate(format: &ImageFormat, block: u64) -> bool
    requires geometry { IsGeometry format.now.geometry (2 ^ 48) }
    requires block { block < format.now.geometry.blocks }

    ensures { result ≡ is_to_recalculate format.now.fields format.now.geometry block }
{
    let spb = format.geometry.shape().spb;
    let end = (block + 1) * spb;
    format.fields.flags & RECALCULATING != 0 && format.fields.recalc_sector < end
}

/// Whether a block awaits its tag. With a bitmap its region tells, and without one the fields do.
///
/// # Errors
///
/// - `Failed`: the disk failed at a read of the bitmap.
fn is_awaiting<D: Disk>(
    disk: &mut D,
    format: &ImageFormat,
    bits: &mut SectorWindow,
    block: u64,
) -> Result<bool, Failed>
    requires bound { IsBound (D.identity disk.old).name }
    requires format { IsFormat (D.identity disk.old).sectors format.now }
    requires bits { HasRoom 1 bits.old (D.moments disk.old) }
    requires block { block < format.now.geometry.blocks }

    ensures awaiting { IfOk result (λ awaiting. HasNow (λ c. awaiting
        ≡ awaits format.now.fields format.now.geometry (last_image c) block) (D.moments disk.old)) }

    ensures cause { HasCause (D.faults disk.old) (D.faults disk.new) result }

    ensures bits { HasRoom 1 bits.new (D.moments disk.new) }
    ensures identity { D.identity disk.new ≡ D.identity disk.old }
    ensures kept { D.moments disk.new ≡ D.moments disk.old }
{
    if has_bitmap(format) {
        return is_dirty(disk, &format.geometry, bits, block);
    }
    Ok(is_to_recalculate(format, block))
}

/// Whether a block is not judged by what is placed: it has an entry, or, where cells are judged, it awaits its tag.
///
/// # Errors
///
/// - `Failed`: the disk failed at a read of the bitmap.
pub(crate) fn is_passed<D: Disk>(
    disk: &mut D,
    format: &ImageFormat,
    what: What,
    journal: &Option<NewestEntries>,
    bits: &mut SectorWindow,
    block: u64,
) -> Result<bool, Failed>
    requires bound { IsBound (D.identity disk.old).name }
    requires format { IsFormat (D.identity disk.old).sectors format.now }
    requires bits { HasRoom 1 bits.old (D.moments disk.old) }
    requires block { block < format.now.geometry.blocks }

    ensures passed { IfOk result (λ passed. HasNow (λ c. passed
        ≡ is_passed what format.now journal.now (last_image c) block) (D.moments disk.old)) }

    ensures cause { HasCause (D.faults disk.old) (D.faults disk.new) result }

    ensures bits { HasRoom 1 bits.new (D.moments disk.new) }
    ensures identity { D.identity disk.new ≡ D.identity disk.old }
    ensures kept { D.moments disk.new ≡ D.moments disk.old }
{
    if has_entry(journal, block) {
        return Ok(true);
    }
    match what {
        What::Placed => Ok(false),
        What::Cells => is_awaiting(disk, format, bits, block),
    }
}

/// How many blocks await their tags.
///
/// # Errors
///
/// - `Failed`: the disk failed at a read of the bitmap.
pub(crate) fn count_awaiting<D: Disk>(
    disk: &mut D,
    format: &ImageFormat,
    bits: &mut SectorWindow,
) -> Result<u64, Failed>
    requires bound { IsBound (D.identity disk.old).name }
    requires format { IsFormat (D.identity disk.old).sectors format.now }
    requires bits { HasRoom 1 bits.old (D.moments disk.old) }

    ensures awaiting { IfOk result (λ count. HasNow (λ c. count ≡ awaiting_below format.now.fields format.now.geometry
        (last_image c) format.now.geometry.blocks) (D.moments disk.old)) }

    ensures cause { HasCause (D.faults disk.old) (D.faults disk.new) result }

    ensures bits { HasRoom 1 bits.new (D.moments disk.new) }
    ensures identity { D.identity disk.new ≡ D.identity disk.old }
    ensures kept { D.moments disk.new ≡ D.moments disk.old }
{
    let mut count = 0;
    for block in 0..format.geometry.blocks() {
        let awaiting = is_awaiting(disk, format, bits, block)?;
        count = count_with(count, awaiting);
    }
    Ok(count)
}

/// A count, and one more where a block awaits its tag.
fn count_with(count: u64, awaiting: bool) -> u64
    requires { count < 2 ^ 64 - 1 }

    ensures { result ≡ count + (if awaiting then 1 else 0) }
{
    if awaiting { count + 1 } else { count }
}
