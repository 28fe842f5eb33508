//! What an image is checked with: the maker of its tags, and its journal where that is looked at.
ghost use Rattle.std.specs.Prelude.{◌≡◌, IfOk};
ghost use Rattle.disk_model.specs.Disk.{last_image};
ghost use Rattle.disk_model.specs.Identity.{IsBound};
ghost use Rattle.disk_model.specs.Moments.{HasNow};
ghost use Rattle.image_model.specs.Cells.{salt_of};
ghost use Rattle.image_model.specs.Superblock.{has_flag};
ghost use Rattle.hmac_tag.specs.TagMaker.{key_of};
ghost use Rattle.image_format.specs.Format.{IsFormat};
ghost use Rattle.image_refusal.specs.Calls.{HasCallCause};
ghost use Rattle.check_model.specs.Faults.{TellsJournalFault, journal_fault_for};
ghost use Rattle.image_check.specs.Checked.{IsJournalOf};

use crate::What;
use crate::index::read_index;
use hmac_tag::{Hash, TagMaker};
use image_format::ImageFormat;
use image_model::{DIRTY_BITMAP, FIXED_HMAC};
use image_refusal::{CallFault, OpenFault};
use journal_reading::NewestEntries;
use sector_disk::Disk;
use std::alloc::Global;

/// The maker of the tags of an image.
///
/// Source: Linux, `drivers/md/dm-integrity.c`, `SB_FLAG_FIXED_HMAC`.
pub(crate) fn tag_maker(format: &ImageFormat, hash: Hash) -> TagMaker
    ensures { result ≡ record {
      key = key_of hash;
      salt = salt_of format.now.fields;
      size = format.now.geometry.shape.tag_size;
    } }
{
    let salt = if format.fields.flags & FIXED_HMAC != 0 {
        Some(format.fields.salt)
    } else {
        None
    };
    TagMaker::new(hash, salt, format.geometry.shape().tag as u8)
}

/// Whether a bitmap stands in the place of the journal.
pub(crate) fn has_bitmap(format: &ImageFormat) -> bool
    ensures { result ≡ has_flag DIRTY_BITMAP format.now.fields.flags }
{
    format.fields.flags & DIRTY_BITMAP != 0
}

/// Which blocks have an entry in the journal, where that is looked at. Where what is placed is judged, nothing is read.
///
/// # Errors
///
/// - `Memory`, `Disk`, `Journal`: as `read_index` tells them.
pub(crate) fn read_journal<D: Disk>(
    alloc: Global,
    disk: &mut D,
    format: &ImageFormat,
    maker: &TagMaker,
    what: What,
) -> Result<Option<NewestEntries>, CallFault<OpenFault>>
    requires bound { IsBound (D.identity disk.old).name }
    requires format { IsFormat (D.identity disk.old).sectors format.now }
    requires salt { maker.now.salt ≡ salt_of format.now.fields }
    requires size { maker.now.size ≡ format.now.geometry.shape.tag_size }

    ensures journal { IfOk result (λ journal. HasNow (λ c. IsJournalOf what maker.now format.now (last_image c) journal)
        (D.moments disk.old)) }

    ensures refused { TellsJournalFault result (journal_fault_for what maker.now.key format.now) (D.moments disk.old) }
    ensures cause { HasCallCause (D.faults disk.old) (D.faults disk.new) result }

    ensures identity { D.identity disk.new ≡ D.identity disk.old }
    ensures kept { D.moments disk.new ≡ D.moments disk.old }
{
    match what {
        What::Placed => Ok(None),
        What::Cells => read_own_journal(alloc, disk, format, maker),
    }
}

/// Which blocks have an entry in the journal. With a bitmap there is none, and nothing is read.
///
/// # Errors
///
/// - `Memory`, `Disk`, `Journal`: as `read_index` tells them.
fn read_own_journal<D: Disk>(
    alloc: Global,
    disk: &mut D,
    format: &ImageFormat,
    maker: &TagMaker,
) -> Result<Option<NewestEntries>, CallFault<OpenFault>>
    requires bound { IsBound (D.identity disk.old).name }
    requires format { IsFormat (D.identity disk.old).sectors format.now }
    requires salt { maker.now.salt ≡ salt_of format.now.fields }
    requires size { maker.now.size ≡ format.now.geometry.shape.tag_size }

    ensures journal { IfOk result (λ journal. HasNow (λ c.
        IsJournalOf What.Cells maker.now format.now (last_image c) journal) (D.moments disk.old)) }

    ensures refused { TellsJournalFault result (journal_fault_for What.Cells maker.now.key format.now)
        (D.moments disk.old) }
    ensures cause { HasCallCause (D.faults disk.old) (D.faults disk.new) result }

    ensures identity { D.identity disk.new ≡ D.identity disk.old }
    ensures kept { D.moments disk.new ≡ D.moments disk.old }
{
    if has_bitmap(format) {
        return Ok(None);
    }
    let newest = read_index(alloc, disk, &format.geometry, maker)?;
    Ok(Some(newest))
}
