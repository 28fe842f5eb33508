//! Empty sectors in the place of a journal: those behind the bitmap's place, and those in it.
ghost use Rattle.std.specs.Prelude.{◌≡◌, ◌*◌, ◌≤◌, length, OnOk};
ghost use Rattle.disk_model.specs.Causes.{HasCause};
ghost use Rattle.disk_model.specs.Disk.{AddsSome, IsRun, OnlyAdds};
ghost use Rattle.disk_model.specs.Identity.{IsBound};
ghost use Rattle.disk_model.specs.Moments.{EachSince, IsChangedBy};
ghost use Rattle.image_model.specs.Geometry.{IsGeometry, bitmap_sectors, journal_sectors};
ghost use Rattle.change_model.specs.Change.{IsOfFilling, IsOfRest};
ghost use Rattle.image_model.specs.EmptySections.{empty_image};
ghost use Rattle.mode_change.specs.ToJournal.{with_any, with_filling, with_rest};

use image_model::SECTOR_SIZE;
use layout::Geometry;
use sector_disk::{Disk, Failed};

/// Writes the journal's sectors behind the bitmap's place from `empty`, which has all sectors of the journal, and
/// syncs. All are written by one call, and none where the bitmap takes the whole journal.
///
/// # Errors
///
/// - `Failed`: the disk failed. Any of the sectors may have got its new bytes as a candidate.
pub fn write_rest<D: Disk>(disk: &mut D, geometry: &Geometry, empty: &[u8]) -> Result<(), Failed>
    requires bound { IsBound (D.identity disk.old).name }
    requires geometry { IsGeometry geometry.now (D.identity disk.old).sectors }
    requires fits { bitmap_sectors geometry.now ≤ journal_sectors geometry.now }
    requires empty { length empty.now ≡ 512 * journal_sectors geometry.now }

    ensures written { OnOk result (IsChangedBy (with_rest geometry.now empty.now)
        (D.moments disk.old) (D.moments disk.new)) }

    ensures cause { HasCause (D.faults disk.old) (D.faults disk.new) result }

    ensures identity { D.identity disk.new ≡ D.identity disk.old }

    // No other sector is written.
    ensures moments { let g = geometry.now in
        EachSince (OnlyAdds (IsOfRest g (bitmap_sectors g) (empty_image g empty.now)))
        (D.moments disk.old) (D.moments disk.new) }
{
    let bitmap = geometry.bitmap_sectors();
    let rest = &empty[SECTOR_SIZE * bitmap as usize..];
    write_any(disk, geometry.section_at(0) + bitmap, rest)?;
    disk.sync()
}

/// Writes the journal's sectors in the bitmap's place, which are blank, from `empty`, which has all sectors of the
/// journal, and syncs. All are written by one call.
///
/// # Errors
///
/// - `Failed`: the disk failed. Any of the sectors may have got its new bytes as a candidate.
pub fn fill_blank<D: Disk>(disk: &mut D, geometry: &Geometry, empty: &[u8]) -> Result<(), Failed>
    requires bound { IsBound (D.identity disk.old).name }
    requires geometry { IsGeometry geometry.now (D.identity disk.old).sectors }
    requires fits { bitmap_sectors geometry.now ≤ journal_sectors geometry.now }
    requires empty { length empty.now ≡ 512 * journal_sectors geometry.now }

    ensures written { OnOk result (IsChangedBy (with_filling geometry.now empty.now)
        (D.moments disk.old) (D.moments disk.new)) }

    ensures cause { HasCause (D.faults disk.old) (D.faults disk.new) result }

    ensures identity { D.identity disk.new ≡ D.identity disk.old }

    // No other sector is written.
    ensures moments { let g = geometry.now in
        EachSince (OnlyAdds (IsOfFilling g (bitmap_sectors g) (empty_image g empty.now)))
        (D.moments disk.old) (D.moments disk.new) }
{
    let blank = &empty[..SECTOR_SIZE * geometry.bitmap_sectors() as usize];
    disk.write_run(geometry.section_at(0), blank)?;
    disk.sync()
}

/// Writes whole sectors from sector `at` on, where there are any.
///
/// # Errors
///
/// - `Failed`: the disk failed. Any of the sectors may have become candidates.
fn write_any<D: Disk>(disk: &mut D, at: u64, bytes: &[u8]) -> Result<(), Failed>
    requires bound { IsBound (D.identity disk.old).name }
    requires run { 1 ≤ length bytes.now → IsRun at (length bytes.now) (D.identity disk.old).sectors }

    ensures written { OnOk result (IsChangedBy (with_any at bytes.now)
        (D.moments disk.old) (D.moments disk.new)) }

    ensures cause { HasCause (D.faults disk.old) (D.faults disk.new) result }

    ensures identity { D.identity disk.new ≡ D.identity disk.old }

    ensures moments { EachSince (AddsSome at bytes.now) (D.moments disk.old) (D.moments disk.new) }
{
    if bytes.is_empty() {
        return Ok(());
    }
    disk.write_run(at, bytes)
}
