//! Recovery up to the erasure: the entries of a journal that was judged come to their places.
ghost use Rattle.std.specs.Prelude.{◌≡◌, IsOk, OnOk};
ghost use Rattle.disk_model.specs.Causes.{HasCause};
ghost use Rattle.disk_model.specs.Disk.{HasNothingPending, last_image};
ghost use Rattle.disk_model.specs.Moments.{HasNow};
ghost use Rattle.journal_reading.specs.Journal.{IsJournalOn};
ghost use Rattle.replay.specs.Calls.{KeepsImageCells, SettlesEntries};
ghost use Rattle.replay.specs.Emptied.{IsInPlaceAlready};
ghost use Rattle.replay.specs.Placing.{IsStillJournal, PlacesJournal, StandsPlacing};
ghost use Rattle.replay.specs.Replaying.{IsReplaying, KeepsStoreOn};
ghost use Rattle.replay.specs.Writes.{AddsPlacing, OnlySyncsWhere};

use crate::placing::place_all;
use journal_reading::{JudgedJournal, read_journal};
use layout::Geometry;
use place_writer::flush;
use sector_disk::{Disk, Failed};
use tag_store::Tags;

/// Replays the entries of a journal that was judged: the newest of each block comes to its place, the tags are written
/// back, and all is synced. Where the journal has entries it is read once more, into `bytes`, which has room for it.
///
/// Source: Linux, `drivers/md/dm-integrity.c`, `replay_journal`.
///
/// # Errors
///
/// - `Failed`: the disk failed. Every image has the cells of the image at the entry.
pub(crate) fn replay_journal<D: Disk>(
    disk: &mut D,
    geometry: &Geometry,
    tags: &mut Tags,
    journal: &JudgedJournal,
    bytes: &mut [u8],
) -> Result<(), Failed>
    requires replaying { IsReplaying geometry.now bytes.old journal.now tags.old
        (D.identity disk.old) (D.moments disk.old) }
    requires journal { HasNow (λ c. IsJournalOn geometry.now (last_image c) journal.now) (D.moments disk.old) }

    ensures settled { OnOk result (SettlesEntries (D.identity disk.old).sectors tags.old tags.new
        (D.moments disk.old) (D.moments disk.new)) }
    ensures pending { OnOk result (HasNow HasNothingPending (D.moments disk.new)) }

    ensures cause { HasCause (D.faults disk.old) (D.faults disk.new) result }

    ensures keeps { KeepsStoreOn tags.old tags.new (D.identity disk.old) (D.identity disk.new) (D.moments disk.new) }

    ensures cuts { KeepsImageCells (D.identity disk.old).sectors tags.old (D.moments disk.old) (D.moments disk.new) }
    ensures moments { AddsPlacing geometry.now (D.moments disk.old) (D.moments disk.new) }
    ensures in_place { OnlySyncsWhere (IsInPlaceAlready geometry.now) tags.old
        (D.moments disk.old) (D.moments disk.new) }
{
    place_journal(disk, geometry, tags, journal, bytes)?;
    flush(disk, tags)
}

/// Brings the newest entry of each block to its place. The journal is read, into `bytes`, where it has entries, and
/// nothing is done where it has none.
///
/// # Errors
///
/// - `Failed`: the disk failed. The first of them may be placed.
fn place_journal<D: Disk>(
    disk: &mut D,
    geometry: &Geometry,
    tags: &mut Tags,
    journal: &JudgedJournal,
    bytes: &mut [u8],
) -> Result<(), Failed>
    requires replaying { IsReplaying geometry.now bytes.old journal.now tags.old
        (D.identity disk.old) (D.moments disk.old) }
    requires journal { HasNow (λ c. IsJournalOn geometry.now (last_image c) journal.now) (D.moments disk.old) }

    ensures placed { OnOk result (PlacesJournal geometry.now tags.old tags.new
        (D.moments disk.old) (D.moments disk.new)) }
    ensures idle { journal.now.count ≡ 0 → IsOk result × (disk.new ≡ disk.old) }

    ensures cause { HasCause (D.faults disk.old) (D.faults disk.new) result }

    ensures keeps { KeepsStoreOn tags.old tags.new (D.identity disk.old) (D.identity disk.new) (D.moments disk.new) }

    ensures stands { StandsPlacing geometry.now tags.old (D.moments disk.old) (D.moments disk.new) }
    ensures moments { AddsPlacing geometry.now (D.moments disk.old) (D.moments disk.new) }
    ensures still { IsStillJournal geometry.now tags.old tags.new (D.moments disk.old) (D.moments disk.new) }
{
    if journal.count == 0 {
        return Ok(());
    }
    read_journal(disk, geometry, bytes)?;
    place_all(disk, tags, geometry, journal, bytes)
}
