//! Filling a blank journal with empty sectors.
ghost use Rattle.std.specs.Prelude.{◌≡◌, ◌*◌, ◌<◌, length, OnOk};
ghost use Rattle.disk_model.specs.Causes.{HasCause};
ghost use Rattle.disk_model.specs.Disk.{OnlyAdds, newest_only};
ghost use Rattle.disk_model.specs.Identity.{IsBound};
ghost use Rattle.disk_model.specs.Moments.{EachSince, IsChangedBy};
ghost use Rattle.image_model.specs.Geometry.{IsGeometry, journal_sectors};
ghost use Rattle.image_model.specs.EmptySections.{AreEmptySections};
ghost use Rattle.journal_erasure.specs.Filling.{IsOfLacking, with_lacking};

use crate::clearing::clear_sections;
use crate::newest::NewestSectors;
use crate::part::Part;
use crate::runs::write_part;
use image_model::Cell;
use layout::Geometry;
use sector_disk::{Disk, Failed};

/// Writes each sector of a journal that does not bear commit number `number` as an empty one of it, and syncs.
/// Neighbours are written by one call. The cells are those of a scan, one for each sector, section by section: of a
/// journal that is blank with this number the blank sectors are written, and no other. What stood in `scratch` is
/// lost: it holds the bytes of the journal's sections, and no memory is taken.
///
/// Own: a change of mode that is cut leaves a journal blank, and a recovery writes what the change did not come to.
///
/// # Errors
///
/// - `Failed`: the disk failed. Any of these sectors may have got its new bytes as a candidate.
pub fn fill<D: Disk>(
    disk: &mut D,
    geometry: &Geometry,
    cells: &[Cell],
    number: u8,
    scratch: &mut [u8],
) -> Result<(), Failed>
    requires bound { IsBound (D.identity disk.old).name }
    requires geometry { IsGeometry geometry.now (D.identity disk.old).sectors }
    requires cells { length cells.now ≡ journal_sectors geometry.now }
    requires number { number < 4 }
    requires scratch { length scratch.old ≡ 512 * journal_sectors geometry.now }

    ensures empty { AreEmptySections geometry.now number scratch.new }
    ensures written { OnOk result (IsChangedBy
        (λ c. newest_only (with_lacking geometry.now cells.now number scratch.new c))
        (D.moments disk.old) (D.moments disk.new)) }

    ensures cause { HasCause (D.faults disk.old) (D.faults disk.new) result }

    ensures identity { D.identity disk.new ≡ D.identity disk.old }

    ensures moments { EachSince (OnlyAdds (IsOfLacking geometry.now cells.now number scratch.new))
        (D.moments disk.old) (D.moments disk.new) }
{
    clear_sections(geometry, number, scratch);
    let at = geometry.section_at(0);
    let end = geometry.initial() - at;
    let bearing = NewestSectors::Scanned { cells, number };
    write_part(disk, at, &bearing, Part::Others, 0, end, scratch)?;
    disk.sync()
}
