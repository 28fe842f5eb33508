//! A blank journal is filled: its blank sectors become empty ones.
ghost use Rattle.std.specs.Prelude.{◌≡◌, false, IfOk, OnOk};
ghost use Rattle.disk_model.specs.Causes.{HasCause};
ghost use Rattle.disk_model.specs.Disk.{OnlyAdds};
ghost use Rattle.disk_model.specs.Moments.{EachSince};
ghost use Rattle.image_model.specs.declared.journal_plan.State.TheVariants.{Blank};
ghost use Rattle.tag_store.specs.Store.{IsStore};
ghost use Rattle.replay.specs.Calls.{LeavesCutsOfEach, LeavesEach};
ghost use Rattle.replay.specs.Recovery.{GoesOnIn, IsReplayed};
ghost use Rattle.replay.specs.Replaying.{IsReplaying};
ghost use Rattle.replay.specs.Writes.{IsOfUnnumbered};
ghost use Rattle.place_model.specs.RecoveryWrites.{IsOfEmptyJournal};

use crate::recovered::Recovered;
use image_model::COMMIT_NUMBERS;
use journal_erasure::fill;
use journal_reading::JudgedJournal;
use layout::Geometry;
use sector_disk::{Disk, Failed};
use tag_store::Tags;

/// Writes the blank sectors of a journal that is blank with this number as empty ones of it, syncs, and tells that
/// writing goes on at the journal's start, with the number behind that. What stood in `scratch` is lost.
///
/// Own: a change of mode that was cut leaves such a journal. Nothing counts in it, so that it has no entry to replay.
///
/// # Errors
///
/// - `Failed`: the disk failed. Every image has the same cells, and its journal is blank or at rest.
pub(crate) fn fill_journal<D: Disk>(
    disk: &mut D,
    geometry: &Geometry,
    tags: &Tags,
    journal: &JudgedJournal,
    number: u8,
    scratch: &mut [u8],
) -> Result<Recovered, Failed>
    requires replaying { IsReplaying geometry.now scratch.old journal.now tags.now
        (D.identity disk.old) (D.moments disk.old) }
    requires blank { journal.now.plan.state ≡ Blank number }

    ensures left { IfOk result (LeavesEach (λ d. IsReplayed d geometry.now journal.now) tags.now
        (D.moments disk.old) (D.moments disk.new)) }

    ensures next { IfOk result (λ at. at.next ≡ 0) }
    ensures place { IfOk result (GoesOnIn geometry.now) }
    ensures unused { IfOk result (λ at. at.used ≡ false) }

    ensures cause { HasCause (D.faults disk.old) (D.faults disk.new) result }

    ensures store { OnOk result (IsStore tags.now (D.identity disk.new) (D.moments disk.new)) }
    ensures identity { D.identity disk.new ≡ D.identity disk.old }

    ensures cuts { LeavesCutsOfEach (λ d. IsReplayed d geometry.now journal.now) tags.now
        (D.moments disk.old) (D.moments disk.new) }
    ensures moments { EachSince (OnlyAdds (IsOfEmptyJournal geometry.now)) (D.moments disk.old) (D.moments disk.new) }
    ensures blank { EachSince (OnlyAdds (IsOfUnnumbered geometry.now journal.now.grid.cells.items number))
        (D.moments disk.old) (D.moments disk.new) }
{
    fill(disk, geometry, &journal.grid.cells, number, scratch)?;
    Ok(Recovered {
        next: 0,
        number: (number + 1) % COMMIT_NUMBERS,
        used: false,
    })
}
