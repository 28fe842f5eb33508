//! The change from a bitmap to a journal.
//!
//! The journal is empty behind the bitmap's place, and blank in it, before the flag goes. So an image that a cut leaves
//! has a bitmap of which no bit is set but those at the start, or a journal that is empty, or blank where the bitmap
//! was.
ghost use Rattle.std.specs.Prelude.{◌≡◌, ℕ, ◌*◌, IfOk, List, OnOk, Option, length};
ghost use Rattle.disk_model.specs.Causes.{HasCause};
ghost use Rattle.disk_model.specs.Identity.{IsBound};
ghost use Rattle.disk_model.specs.Moments.{IsChangedBy};
ghost use Rattle.image_model.specs.Geometry.{journal_sectors};
ghost use Rattle.image_format.specs.Format.{IsBitmapFormat, IsDirectFormat};
ghost use Rattle.image_model.specs.EmptySections.{AreEmptySections};
ghost use Rattle.mode_change.specs.ToJournal.{OpensJournal, StepsToJournal, journal_format, with_journal};

use crate::emptying::{fill_blank, write_rest};
use crate::fields::journal_format;
use crate::head::write_head;
use crate::zeroing::zero_bitmap;
use image_format::ImageFormat;
use journal_erasure::clear_sections;
use sector_disk::{Disk, Failed};

/// Changes an image from a bitmap to a journal, and returns the format that it has then. The bytes behind the fields of
/// sector 0 stay. What stood in `scratch` is lost: behind a success it holds the empty journal, whose number is 0.
///
/// Each region whose bit is set is to be recalculated, and all tags written back; that need not be synced.
///
/// 1. The disk is synced.
/// 2. Zeros are written in the bitmap's place, by one call, and synced.
/// 3. Empty sectors are written in the journal's place behind it, by one call, and synced.
/// 4. The fields without the flag are written to sector 0, and synced.
/// 5. Empty sectors are written in the bitmap's place, by one call, and synced.
///
/// # Errors
///
/// - `Failed`: the disk failed. Each image has the blocks and the cells as before, by its own first sector.
pub fn change_to_journal<D: Disk>(
    disk: &mut D,
    format: &ImageFormat,
    scratch: &mut [u8],
) -> Result<ImageFormat, Failed>
    requires bound { IsBound (D.identity disk.old).name }
    requires format { IsBitmapFormat (D.identity disk.old).sectors format.now }
    requires scratch { length scratch.old ≡ 512 * journal_sectors format.now.geometry }

    ensures format { IfOk result (λ after. after ≡ journal_format format.now) }
    ensures direct { IfOk result (IsDirectFormat (D.identity disk.old).sectors) }
    ensures empty { OnOk result (AreEmptySections format.now.geometry 0 scratch.new) }
    ensures written { OnOk result (IsChangedBy (with_journal format.now scratch.new)
        (D.moments disk.old) (D.moments disk.new)) }
    // A device in journal mode, or in direct mode, may be opened on it: the journal is empty, and no region awaits.
    ensures opened { OnOk result ((key : Option (List ℕ)) → OpensJournal key (D.identity disk.old).sectors
        format.now scratch.new (D.moments disk.old) (D.moments disk.new)) }

    ensures cause { HasCause (D.faults disk.old) (D.faults disk.new) result }

    ensures scratch { length scratch.new ≡ length scratch.old }
    ensures identity { D.identity disk.new ≡ D.identity disk.old }

    // The journal's place and sector 0 are written, in this order, and each image keeps what it had at the start.
    ensures moments { StepsToJournal (D.identity disk.old).sectors format.now scratch.new
        (D.moments disk.old) (D.moments disk.new) }
{
    let after = journal_format(format, disk.sectors());
    disk.sync()?;
    zero_bitmap(disk, &format.geometry, scratch)?;
    clear_sections(&format.geometry, 0, scratch);
    write_rest(disk, &format.geometry, scratch)?;
    write_head(disk, &after.fields)?;
    fill_blank(disk, &format.geometry, scratch)?;
    Ok(after)
}
