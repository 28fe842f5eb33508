//! All of an image but its first sector.
ghost use Rattle.std.specs.Prelude.{◌≡◌, ◌*◌, ◌^◌, length, OnOk};
ghost use Rattle.disk_model.specs.Causes.{HasCause};
ghost use Rattle.disk_model.specs.Disk.{last_image};
ghost use Rattle.disk_model.specs.Identity.{IsBound};
ghost use Rattle.disk_model.specs.Moments.{EachSince, HasNow};
ghost use Rattle.image_format.specs.Format.{IsFormat};
ghost use Rattle.image_model.specs.Geometry.{IsGeometry, journal_sectors, section_sectors};
ghost use Rattle.image_model.specs.Entries.{IsWithin};
ghost use Rattle.formatting_model.specs.Formatted.{HasBlocks, HasFilled, IsBlocksByte, IsBlocksSector, IsFillSector, IsImageByte};
ghost use Rattle.formatting_model.specs.Journal.{HasJournalPlace, bitmap_taken, has_bitmap, regions_set};
ghost use Rattle.formatting_model.specs.Runs.{ChangesOnly};
ghost use Rattle.formatting_model.specs.Stays.{ReadsKeep};
ghost use Rattle.formatting_model.specs.Written.{IsOfFormat, IsOfWipe, OnlyWrites};
ghost use Rattle.image_formatting.specs.Room.{HasRoom, HasRuns};

use crate::emptying::empty;
use crate::marking::write_bits;
use crate::room::Room;
use crate::wiping::wipe_blocks;
use crate::zeroing::write_zeros;
use hmac_tag::TagMaker;
use image_format::ImageFormat;
use image_model::{DIRTY_BITMAP, RECALCULATING, Wipe};
use sector_disk::{Disk, Failed};

/// Writes zeros to the other sectors of the superblock, an empty journal or a bitmap, and what comes to the
/// blocks. Nothing is synced.
///
/// # Errors
///
/// - `Failed`: the disk failed.
pub(crate) fn fill<D: Disk>(
    disk: &mut D,
    format: &ImageFormat,
    wipe: Wipe,
    maker: &TagMaker,
    room: &mut Room,
) -> Result<(), Failed>
    requires bound { IsBound (D.identity disk.old).name }
    requires format { IsFormat (D.identity disk.old).sectors format.now }
    requires size { maker.now.size ≡ format.now.geometry.shape.tag_size }
    requires room { HasRoom format.now.geometry.shape room.old }

    ensures filled { OnOk result (HasNow (λ c. HasFilled wipe maker.now format.now (last_image c))
        (D.moments disk.new)) }
    ensures stays { OnOk result (ReadsKeep (IsImageByte wipe format.now.geometry)
        (D.moments disk.old) (D.moments disk.new)) }

    ensures cause { HasCause (D.faults disk.old) (D.faults disk.new) result }

    ensures identity { D.identity disk.new ≡ D.identity disk.old }

    ensures moments { EachSince (ChangesOnly (IsFillSector wipe format.now.geometry))
        (D.moments disk.old) (D.moments disk.new) }
    ensures writes { OnlyWrites (IsOfFormat wipe format.now) (D.moments disk.old) (D.moments disk.new) }
{
    write_zeros(disk, &room.zeros, 1, 7)?;
    fill_journal(disk, format, &mut room.section)?;
    fill_blocks(disk, format, wipe, maker, room)
}

/// Writes the bitmap, where the image has one, and empty sectors to all others of the journal.
///
/// # Errors
///
/// - `Failed`: the disk failed.
fn fill_journal<D: Disk>(
    disk: &mut D,
    format: &ImageFormat,
    section: &mut [u8],
) -> Result<(), Failed>
    requires bound { IsBound (D.identity disk.old).name }
    requires format { IsFormat (D.identity disk.old).sectors format.now }
    requires section { length section.old ≡ 512 * section_sectors format.now.geometry.shape }

    ensures filled { OnOk result (HasNow (λ c. HasJournalPlace format.now (last_image c))
        (D.moments disk.new)) }

    ensures cause { HasCause (D.faults disk.old) (D.faults disk.new) result }

    ensures section { length section.new ≡ length section.old }
    ensures identity { D.identity disk.new ≡ D.identity disk.old }

    ensures moments { EachSince (ChangesOnly (IsWithin 8 (journal_sectors format.now.geometry)))
        (D.moments disk.old) (D.moments disk.new) }
{
    let bitmap = bitmap_taken(format);
    write_bits(
        disk,
        regions_set(format),
        section,
        format.geometry.section_at(0),
        bitmap,
    )?;
    empty(disk, &format.geometry, bitmap, section)
}

/// How many of the journal's first sectors the image's bitmap takes.
fn bitmap_taken(format: &ImageFormat) -> u64
    ensures { result ≡ bitmap_taken (has_bitmap format.now) format.now.geometry }
{
    if format.fields.flags & DIRTY_BITMAP == 0 {
        return 0;
    }
    format.geometry.bitmap_sectors()
}

/// How many regions have their bit set in a bitmap of the image: all where tags are to be recalculated, and else none.
fn regions_set(format: &ImageFormat) -> u64
    requires { IsGeometry format.now.geometry (2 ^ 48) }

    ensures { result ≡ regions_set format.now }
{
    if format.fields.flags & RECALCULATING == 0 {
        return 0;
    }
    format.geometry.regions()
}

/// Writes what comes to the blocks.
fn fill_blocks<D: Disk>(
    disk: &mut D,
    format: &ImageFormat,
    wipe: Wipe,
    maker: &TagMaker,
    room: &mut Room,
) -> Result<(), Failed>
    requires bound { IsBound (D.identity disk.old).name }
    requires format { IsFormat (D.identity disk.old).sectors format.now }
    requires size { maker.now.size ≡ format.now.geometry.shape.tag_size }
    requires room { HasRuns format.now.geometry.shape room.old }

    ensures filled { OnOk result (HasNow (λ c. HasBlocks wipe maker.now format.now.geometry (last_image c))
        (D.moments disk.new)) }
    ensures stays { OnOk result (ReadsKeep (IsBlocksByte wipe format.now.geometry)
        (D.moments disk.old) (D.moments disk.new)) }

    ensures cause { HasCause (D.faults disk.old) (D.faults disk.new) result }

    ensures identity { D.identity disk.new ≡ D.identity disk.old }

    ensures moments { EachSince (ChangesOnly (IsBlocksSector wipe format.now.geometry))
        (D.moments disk.old) (D.moments disk.new) }
    ensures writes { OnlyWrites (IsOfWipe wipe format.now.geometry) (D.moments disk.old) (D.moments disk.new) }
{
    match wipe {
        Wipe::Wiped => wipe_blocks(disk, format, maker, &room.zeros, &mut room.tags),
        Wipe::Kept => Ok(()),
        Wipe::Recalculated => Ok(()),
    }
}
