//! The writes of a part: one for each run of neighbouring sectors.
ghost use Rattle.std.specs.Prelude.{◌≡◌, ◌+◌, ◌*◌, ◌^◌, ◌≤◌, length, OnOk};
ghost use Rattle.disk_model.specs.Causes.{HasCause};
ghost use Rattle.disk_model.specs.Disk.{OnlyAdds};
ghost use Rattle.disk_model.specs.Identity.{IsBound};
ghost use Rattle.disk_model.specs.Moments.{EachSince, IsChangedBy};
ghost use Rattle.journal_erasure.specs.Newest.{HasSectors};
ghost use Rattle.journal_erasure.specs.Parts.{is_of_part, with_chosen, IsOfChosen};

use crate::newest::NewestSectors;
use crate::part::Part;
use image_model::SECTOR_SIZE;
use sector_disk::{Disk, Failed};

/// Writes those of the journal's sectors from `from` on and before `to` that the part has, with their bytes in
/// `empty`. Neighbours are written by one call. The journal begins at sector `at` of the disk.
///
/// # Errors
///
/// - `Failed`: the disk failed. Any of these sectors may have got its new bytes as a candidate.
pub(crate) fn write_part<D: Disk>(
    disk: &mut D,
    at: u64,
    newest: &NewestSectors,
    part: Part,
    from: u64,
    to: u64,
    empty: &[u8],
) -> Result<(), Failed>
    requires bound { IsBound (D.identity disk.old).name }
    requires inside { at + to ≤ (D.identity disk.old).sectors }
    requires device { (D.identity disk.old).sectors ≤ 2 ^ 48 }
    requires newest { HasSectors newest.now to }
    requires range { from ≤ to }
    requires empty { 512 * to ≤ length empty.now }

    ensures written { OnOk result (IsChangedBy (with_chosen (is_of_part newest.now part) at from to empty.now)
        (D.moments disk.old) (D.moments disk.new)) }

    ensures cause { HasCause (D.faults disk.old) (D.faults disk.new) result }

    ensures identity { D.identity disk.new ≡ D.identity disk.old }

    ensures moments { EachSince (OnlyAdds (IsOfChosen (is_of_part newest.now part) at from to empty.now))
        (D.moments disk.old) (D.moments disk.new) }
{
    let mut begin = part.first(newest, from, to);
    while begin < to {
        let end = part.other().first(newest, begin, to);
        let run = &empty[SECTOR_SIZE * begin as usize..SECTOR_SIZE * end as usize];
        disk.write_run(at + begin, run)?;
        begin = part.first(newest, end, to);
    }
    Ok(())
}
