//! The erasure, step by step.
ghost use Rattle.std.specs.Prelude.{◌≡◌, ◌+◌, ◌*◌, ◌≤◌, [], length, OnOk};
ghost use Rattle.disk_model.specs.Causes.{HasCause};
ghost use Rattle.disk_model.specs.Disk.{EachImage, IsOfRun, OnlyAdds, newest_only};
ghost use Rattle.disk_model.specs.Identity.{IsBound};
ghost use Rattle.disk_model.specs.Moments.{EachMoment, EachSince, HasNow, IsChangedBy};
ghost use Rattle.image_model.specs.Geometry.{IsGeometry, journal_sectors, section_at};
ghost use Rattle.image_model.specs.Walk.{later as number_later};
ghost use Rattle.journal_model.specs.JournaledDisk.{JournaledDisk, IsCutOf, StandsFor};
ghost use Rattle.image_model.specs.EmptySections.{AreEmptySections, empty_image};
ghost use Rattle.journal_erasure.specs.Erased.{IsErased};
ghost use Rattle.journal_erasure.specs.Erasing.{ErasesFirst, IsErasing, IsErasureFor, IsErasureOf, IsOfPart};
ghost use Rattle.journal_erasure.specs.Erasing.{with_empty_journal, with_part};
ghost use Rattle.journal_erasure.specs.declared.part.Part.TheVariants.{Newest, Others};

use crate::clearing::clear_sections;
use crate::erasure::{Erasure, later};
use crate::part::Part;
use crate::runs::write_part;
use layout::Geometry;
use sector_disk::{Disk, Failed};

/// Erases a journal all of whose entries are in place and synced. What stood in `scratch` is lost: it holds the
/// bytes of the journal's sections, and no memory is taken. Writing goes on at section 0, under the number behind
/// the one that is then on the journal.
///
/// 1. The sectors of the first section that do not bear the newest number are written as empty, under the number
///    two behind the newest; sync.
/// 2. So are those of all other sections; sync.
/// 3. So are the sectors that bear the newest number; sync.
///
/// Own: the order, which leaves a cut nothing that would count but the journal as it was.
///
/// # Errors
///
/// - `Failed`: the disk failed. Every image has the same cells, and an erasure can be begun anew.
pub fn erase<D: Disk>(
    disk: &mut D,
    geometry: &Geometry,
    erasure: &Erasure,
    scratch: &mut [u8],
) -> Result<(), Failed>
    requires bound { IsBound (D.identity disk.old).name }
    requires geometry { IsGeometry geometry.now (D.identity disk.old).sectors }
    requires erasure { IsErasureFor geometry.now erasure.now }
    requires scratch { length scratch.old ≡ 512 * journal_sectors geometry.now }

    ensures empty { AreEmptySections geometry.now (number_later 2 erasure.now.number) scratch.new }
    ensures written { OnOk result (IsChangedBy (with_empty_journal geometry.now scratch.new)
        (D.moments disk.old) (D.moments disk.new)) }
    ensures erased { OnOk result ((d : JournaledDisk) → IsErasureOf geometry.now erasure.now d
        → HasNow (StandsFor d) (D.moments disk.old)
        → HasNow (IsErased d erasure.now.number (empty_image geometry.now scratch.new)) (D.moments disk.new)) }

    ensures cause { HasCause (D.faults disk.old) (D.faults disk.new) result }

    ensures identity { D.identity disk.new ≡ D.identity disk.old }

    ensures cuts { (d : JournaledDisk) → IsErasureOf geometry.now erasure.now d
        → HasNow (StandsFor d) (D.moments disk.old)
        → EachMoment (D.moments disk.old) (D.moments disk.new) (EachImage (IsCutOf d [])) }
    ensures order { EachSince (ErasesFirst geometry.now erasure.now scratch.new)
        (D.moments disk.old) (D.moments disk.new) }
    ensures moments { EachSince (OnlyAdds (IsOfRun (section_at geometry.now 0) scratch.new))
        (D.moments disk.old) (D.moments disk.new) }
{
    clear_sections(geometry, later(2, erasure.number), scratch);
    erase_others(disk, geometry, erasure, scratch)?;
    erase_newest(disk, geometry, erasure, scratch)
}

/// Erases the sectors that do not bear the newest number: those of the first section before all others.
///
/// # Errors
///
/// - `Failed`: the disk failed.
fn erase_others<D: Disk>(
    disk: &mut D,
    geometry: &Geometry,
    erasure: &Erasure,
    empty: &[u8],
) -> Result<(), Failed>
    requires erasing { IsErasing geometry.now erasure.now empty.now (D.identity disk.old) }

    ensures written { let g = geometry.now in OnOk result (IsChangedBy
        (λ c. newest_only (with_part g erasure.now Others 0 g.sections empty.now c))
        (D.moments disk.old) (D.moments disk.new)) }

    ensures cause { HasCause (D.faults disk.old) (D.faults disk.new) result }

    ensures identity { D.identity disk.new ≡ D.identity disk.old }

    ensures order { EachSince (ErasesFirst geometry.now erasure.now empty.now)
        (D.moments disk.old) (D.moments disk.new) }
    ensures moments { let g = geometry.now in
        EachSince (OnlyAdds (IsOfPart g erasure.now Others 0 g.sections empty.now))
        (D.moments disk.old) (D.moments disk.new) }
{
    erase_first(disk, geometry, erasure, empty)?;
    erase_rest(disk, geometry, erasure, empty)
}

/// Erases those of the first section, and syncs.
///
/// # Errors
///
/// - `Failed`: the disk failed.
fn erase_first<D: Disk>(
    disk: &mut D,
    geometry: &Geometry,
    erasure: &Erasure,
    empty: &[u8],
) -> Result<(), Failed>
    requires erasing { IsErasing geometry.now erasure.now empty.now (D.identity disk.old) }

    ensures written { let first = erasure.now.first in OnOk result (IsChangedBy
        (λ c. newest_only (with_part geometry.now erasure.now Others first (first + 1) empty.now c))
        (D.moments disk.old) (D.moments disk.new)) }

    ensures cause { HasCause (D.faults disk.old) (D.faults disk.new) result }

    ensures identity { D.identity disk.new ≡ D.identity disk.old }

    ensures moments { let first = erasure.now.first in
        EachSince (OnlyAdds (IsOfPart geometry.now erasure.now Others first (first + 1) empty.now))
        (D.moments disk.old) (D.moments disk.new) }
{
    let first = erasure.first;
    write_and_sync(
        disk,
        geometry,
        erasure,
        Part::Others,
        first,
        first + 1,
        empty,
    )
}

/// Erases those of all other sections, and syncs.
///
/// # Errors
///
/// - `Failed`: the disk failed.
fn erase_rest<D: Disk>(
    disk: &mut D,
    geometry: &Geometry,
    erasure: &Erasure,
    empty: &[u8],
) -> Result<(), Failed>
    requires erasing { IsErasing geometry.now erasure.now empty.now (D.identity disk.old) }

    ensures written { let g = geometry.now in let first = erasure.now.first in OnOk result (IsChangedBy
        (λ c. newest_only (with_part g erasure.now Others (first + 1) g.sections empty.now
        (with_part g erasure.now Others 0 first empty.now c)))
        (D.moments disk.old) (D.moments disk.new)) }

    ensures cause { HasCause (D.faults disk.old) (D.faults disk.new) result }

    ensures identity { D.identity disk.new ≡ D.identity disk.old }

    ensures moments { let g = geometry.now in
        EachSince (OnlyAdds (IsOfPart g erasure.now Others 0 g.sections empty.now))
        (D.moments disk.old) (D.moments disk.new) }
{
    let first = erasure.first;
    let sections = geometry.sections();
    write_sections(disk, geometry, erasure, Part::Others, 0, first, empty)?;
    write_and_sync(
        disk,
        geometry,
        erasure,
        Part::Others,
        first + 1,
        sections,
        empty,
    )
}

/// Erases the sectors that bear the newest number, and syncs.
///
/// # Errors
///
/// - `Failed`: the disk failed.
fn erase_newest<D: Disk>(
    disk: &mut D,
    geometry: &Geometry,
    erasure: &Erasure,
    empty: &[u8],
) -> Result<(), Failed>
    requires erasing { IsErasing geometry.now erasure.now empty.now (D.identity disk.old) }

    ensures written { let g = geometry.now in OnOk result (IsChangedBy
        (λ c. newest_only (with_part g erasure.now Newest 0 g.sections empty.now c))
        (D.moments disk.old) (D.moments disk.new)) }

    ensures cause { HasCause (D.faults disk.old) (D.faults disk.new) result }

    ensures identity { D.identity disk.new ≡ D.identity disk.old }

    ensures moments { let g = geometry.now in
        EachSince (OnlyAdds (IsOfPart g erasure.now Newest 0 g.sections empty.now))
        (D.moments disk.old) (D.moments disk.new) }
{
    let sections = geometry.sections();
    write_and_sync(disk, geometry, erasure, Part::Newest, 0, sections, empty)
}

/// Writes the sectors of a part in the sections from `from` on and before `to`, and syncs.
///
/// # Errors
///
/// - `Failed`: the disk failed.
fn write_and_sync<D: Disk>(
    disk: &mut D,
    geometry: &Geometry,
    erasure: &Erasure,
    part: Part,
    from: u64,
    to: u64,
    empty: &[u8],
) -> Result<(), Failed>
    requires erasing { IsErasing geometry.now erasure.now empty.now (D.identity disk.old) }
    requires range { from ≤ to }
    requires inside { to ≤ geometry.now.sections }

    ensures written { OnOk result (IsChangedBy
        (λ c. newest_only (with_part geometry.now erasure.now part from to empty.now c))
        (D.moments disk.old) (D.moments disk.new)) }

    ensures cause { HasCause (D.faults disk.old) (D.faults disk.new) result }

    ensures identity { D.identity disk.new ≡ D.identity disk.old }

    ensures moments { EachSince (OnlyAdds (IsOfPart geometry.now erasure.now part from to empty.now))
        (D.moments disk.old) (D.moments disk.new) }
{
    write_sections(disk, geometry, erasure, part, from, to, empty)?;
    disk.sync()
}

/// Writes the sectors of a part in the sections from `from` on and before `to`.
///
/// # Errors
///
/// - `Failed`: the disk failed.
fn write_sections<D: Disk>(
    disk: &mut D,
    geometry: &Geometry,
    erasure: &Erasure,
    part: Part,
    from: u64,
    to: u64,
    empty: &[u8],
) -> Result<(), Failed>
    requires erasing { IsErasing geometry.now erasure.now empty.now (D.identity disk.old) }
    requires range { from ≤ to }
    requires inside { to ≤ geometry.now.sections }

    ensures written { OnOk result (IsChangedBy (with_part geometry.now erasure.now part from to empty.now)
        (D.moments disk.old) (D.moments disk.new)) }

    ensures cause { HasCause (D.faults disk.old) (D.faults disk.new) result }

    ensures identity { D.identity disk.new ≡ D.identity disk.old }

    ensures moments { EachSince (OnlyAdds (IsOfPart geometry.now erasure.now part from to empty.now))
        (D.moments disk.old) (D.moments disk.new) }
{
    let at = geometry.section_at(0);
    let sectors = geometry.shape().sectors;
    write_part(
        disk,
        at,
        &erasure.newest,
        part,
        from * sectors,
        to * sectors,
        empty,
    )
}
