//! Recovery, as it is asked for.
ghost use Rattle.std.specs.Prelude.{IfOk, OnOk};
ghost use Rattle.disk_model.specs.Causes.{HasCause};
ghost use Rattle.disk_model.specs.Disk.{last_image};
ghost use Rattle.disk_model.specs.Moments.{HasNow};
ghost use Rattle.journal_reading.specs.Journal.{IsJournalOn};
ghost use Rattle.tag_store.specs.Store.{IsStore};
ghost use Rattle.replay.specs.Calls.{KeepsImageCells, KeepsRoom, RecoversImage};
ghost use Rattle.replay.specs.Emptied.{IsRecoveredAlready, StaysResting};
ghost use Rattle.replay.specs.Recovery.{GoesOnFrom};
ghost use Rattle.replay.specs.Replaying.{IsReplaying};
ghost use Rattle.replay.specs.Writes.{AddsRecovery, FillsBlanks, OnlySyncsWhere};

use crate::entering::replay_journal;
use crate::finishing::finish;
use crate::recovered::Recovered;
use journal_reading::JudgedJournal;
use layout::Geometry;
use sector_disk::{Disk, Failed};
use sector_pool::Run;
use tag_store::Tags;

/// Recovers the image of a disk with this geometry, whose journal was judged, so that all that the journal holds is in
/// its place, and tells where writing goes on. It takes no memory, and nothing is hashed.
///
/// 1. Where the journal has entries that count it is read once more, into `pool`, which has as many sectors.
/// 2. The newest entry of each block is brought to its place, in their order: what differs there is written, data or
///    tag. The tags are written back; sync.
/// 3. A journal at rest goes on. Of one that a cut change of mode left blank the blank sectors are written as empty
///    ones; sync. One in which a commit or an erasure was cut is erased.
///
/// Source: Linux, `drivers/md/dm-integrity.c`, `replay_journal`. Own: the erasure, the blanks, and that nothing is
/// written that stands there already.
///
/// # Errors
///
/// - `Failed`: the disk failed. Every image has the cells of the image at the entry.
pub fn recover<D: Disk>(
    disk: &mut D,
    geometry: &Geometry,
    tags: &mut Tags,
    journal: &JudgedJournal,
    pool: &mut Run<'_>,
) -> Result<Recovered, Failed>
    requires replaying { IsReplaying geometry.now pool.old.bytes journal.now tags.old
        (D.identity disk.old) (D.moments disk.old) }
    requires journal { HasNow (λ c. IsJournalOn geometry.now (last_image c) journal.now) (D.moments disk.old) }

    ensures left { IfOk result (RecoversImage (D.identity disk.old).sectors tags.old tags.new
        (D.moments disk.old) (D.moments disk.new)) }
    ensures place { IfOk result (GoesOnFrom geometry.now (D.moments disk.old)) }

    ensures cause { HasCause (D.faults disk.old) (D.faults disk.new) result }

    ensures store { OnOk result (IsStore tags.new (D.identity disk.new) (D.moments disk.new)) }
    ensures keeps { KeepsRoom tags.old tags.new pool.old.bytes pool.new.bytes
        (D.identity disk.old) (D.identity disk.new) }

    ensures cuts { KeepsImageCells (D.identity disk.old).sectors tags.old (D.moments disk.old) (D.moments disk.new) }
    ensures moments { AddsRecovery geometry.now (D.moments disk.old) (D.moments disk.new) }
    // Nothing is written of a journal at rest,
    ensures rest { StaysResting geometry.now (D.moments disk.old) (D.moments disk.new) }
    // of a blank one its blank sectors alone are,
    ensures blank { FillsBlanks geometry.now (D.moments disk.old) (D.moments disk.new) }
    // and no sector at all where its entries are in their places.
    ensures in_place { OnlySyncsWhere (IsRecoveredAlready geometry.now) tags.old
        (D.moments disk.old) (D.moments disk.new) }
{
    let bytes = pool.bytes_mut();
    replay_journal(disk, geometry, tags, journal, bytes)?;
    finish(disk, geometry, tags, journal, bytes)
}
