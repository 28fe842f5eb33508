//! Emptying a journal at rest.
ghost use Rattle.std.specs.Prelude.{◌≡◌, false, length, IfOk, Ok, OnOk};
ghost use Rattle.disk_model.specs.Causes.{HasCause};
ghost use Rattle.disk_model.specs.Disk.{OnlyAdds};
ghost use Rattle.disk_model.specs.Moments.{EachSince};
ghost use Rattle.journal_model.specs.JournaledDisk.{JournaledDisk};
ghost use Rattle.tag_store.specs.Store.{IsStore};
ghost use Rattle.replay.specs.Calls.{LeavesCutsOf, LeavesOn};
ghost use Rattle.replay.specs.Recovery.{GoesOnIn, IsAtRestOn};
ghost use Rattle.replay.specs.Replaying.{HasScratch};
ghost use Rattle.place_model.specs.RecoveryWrites.{IsOfEmptyJournal};

use crate::finishing::erase_journal;
use crate::recovered::Recovered;
use journal_erasure::Erasure;
use layout::Geometry;
use sector_disk::{Disk, Failed};
use sector_pool::Run;
use tag_store::Tags;

/// Empties a journal at rest whose entries are all in their places and synced, so that one commit number stands on
/// it and no entry is used. Nothing is written where that is so already. The run, of the journal's size, is scratch
/// memory.
///
/// # Errors
///
/// - `Failed`: the disk failed. Every image has the same cells.
pub fn empty<D: Disk>(
    disk: &mut D,
    geometry: &Geometry,
    tags: &Tags,
    pool: &mut Run<'_>,
    at: Recovered,
) -> Result<Recovered, Failed>
    requires scratch { HasScratch geometry.now pool.old.bytes tags.now (D.identity disk.old) (D.moments disk.old) }
    requires place { GoesOnIn geometry.now at }

    ensures left { IfOk result (λ left. (d : JournaledDisk) → IsAtRestOn d at tags.now (D.moments disk.old)
        → LeavesOn d tags.now (D.moments disk.new) left) }

    ensures emptied { IfOk result (λ left. left.used ≡ false) }
    ensures idle { at.used ≡ false → (result ≡ Ok at) × (disk.new ≡ disk.old) }
    ensures cause { HasCause (D.faults disk.old) (D.faults disk.new) result }

    ensures store { OnOk result (IsStore tags.now (D.identity disk.new) (D.moments disk.new)) }
    ensures pool { length pool.new.bytes ≡ length pool.old.bytes }
    ensures identity { D.identity disk.new ≡ D.identity disk.old }

    ensures cuts { (d : JournaledDisk) → IsAtRestOn d at tags.now (D.moments disk.old)
        → LeavesCutsOf d (D.moments disk.old) (D.moments disk.new) }
    ensures moments { EachSince (OnlyAdds (IsOfEmptyJournal geometry.now)) (D.moments disk.old) (D.moments disk.new) }
{
    if !at.used {
        return Ok(at);
    }
    let erasure = Erasure::at_rest(geometry, at.next, at.number);
    erase_journal(disk, geometry, tags, &erasure, pool.bytes_mut())
}
