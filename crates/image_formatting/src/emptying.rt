//! The journal of a new image: each section is empty, behind a bitmap that takes its first sectors.
ghost use Rattle.std.specs.Prelude.{◌≡◌, ◌+◌, ◌-◌, ◌*◌, ◌≤◌, length, OnOk};
ghost use Rattle.disk_model.specs.Causes.{HasCause};
ghost use Rattle.disk_model.specs.Disk.{last_image};
ghost use Rattle.disk_model.specs.Identity.{IsBound};
ghost use Rattle.disk_model.specs.Moments.{EachSince, HasNow};
ghost use Rattle.image_model.specs.Geometry.{IsGeometry, journal_sectors, section_sectors};
ghost use Rattle.image_model.specs.Entries.{IsWithin};
ghost use Rattle.formatting_model.specs.Journal.{IsEmptyBehind};
ghost use Rattle.formatting_model.specs.Runs.{ChangesOnly};

use image_model::SECTOR_SIZE;
use journal_section::clear;
use layout::Geometry;
use sector_disk::{Disk, Failed};

/// Writes the sectors of the journal but the first ones, which a bitmap takes, as those of empty
/// sections of commit number 0. The buffer has room for a section.
///
/// # Errors
///
/// - `Failed`: the disk failed. Any of these sectors may have got its new bytes as a candidate.
///
/// Source: Linux, `drivers/md/dm-integrity.c`, `init_journal`.
pub(crate) fn empty<D: Disk>(
    disk: &mut D,
    geometry: &Geometry,
    bitmap: u64,
    section: &mut [u8],
) -> Result<(), Failed>
    requires bound { IsBound (D.identity disk.old).name }
    requires geometry { IsGeometry geometry.now (D.identity disk.old).sectors }
    requires bitmap { bitmap ≤ journal_sectors geometry.now }
    requires section { length section.old ≡ 512 * section_sectors geometry.now.shape }

    ensures emptied { OnOk result (HasNow (λ c. IsEmptyBehind geometry.now bitmap (last_image c))
        (D.moments disk.new)) }

    ensures cause { HasCause (D.faults disk.old) (D.faults disk.new) result }

    ensures section { length section.new ≡ length section.old }
    ensures identity { D.identity disk.new ≡ D.identity disk.old }

    ensures moments { let behind = journal_sectors geometry.now - bitmap in
        EachSince (ChangesOnly (IsWithin (8 + bitmap) behind)) (D.moments disk.old) (D.moments disk.new) }
{
    let shape = geometry.shape();
    for i in bitmap / shape.sectors..geometry.sections() {
        clear(shape, i, 0, section);
        // The bitmap may end inside a section.
        let skipped = bitmap.saturating_sub(i * shape.sectors);
        disk.write_run(
            geometry.section_at(i) + skipped,
            &section[SECTOR_SIZE * skipped as usize..],
        )?;
    }
    Ok(())
}
