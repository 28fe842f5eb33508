//! Writing the tags back, and a sync.
ghost use Rattle.std.specs.Prelude.{◌≡◌, OnOk};
ghost use Rattle.buffer_cache.specs.Cached.{HasNoMark};
ghost use Rattle.disk_model.specs.Causes.{HasCause};
ghost use Rattle.disk_model.specs.Disk.{HasNothingPending, OnlyAdds, newest_only};
ghost use Rattle.disk_model.specs.Moments.{EachMoment, EachSince, HasNow};
ghost use Rattle.direct_mode.specs.CallLaws.{GivesTags};
ghost use Rattle.journal_model.specs.JournaledDisk.{JournaledDisk, StandsFor};
ghost use Rattle.journal_model.specs.Steps.{after_settle};
ghost use Rattle.place_writer.specs.Cells.{HasCells};
ghost use Rattle.tag_store.specs.Store.{IsMarkedTags, IsStore, given_tags};

use sector_disk::{Disk, Failed};
use tag_store::Tags;

/// Writes the tags back, and syncs: what is placed is settled then, and nothing is pending.
///
/// Source: Linux, `drivers/md/dm-integrity.c`, `do_journal_write`, which flushes before sections are free.
///
/// # Errors
///
/// - `Failed`: the disk failed. Nothing more is settled.
pub fn flush<D: Disk>(disk: &mut D, tags: &mut Tags) -> Result<(), Failed>
    requires store { IsStore tags.old (D.identity disk.old) (D.moments disk.old) }

    ensures settled { OnOk result ((d : JournaledDisk) → HasCells d tags.old (D.moments disk.old)
        → HasCells (after_settle d) tags.new (D.moments disk.new)) }
    ensures pending { OnOk result (HasNow HasNothingPending (D.moments disk.new)) }
    ensures tags { OnOk result (GivesTags tags.old.geometry (given_tags tags.old) (given_tags tags.new)
        (D.moments disk.old) (D.moments disk.new)) }

    ensures cause { HasCause (D.faults disk.old) (D.faults disk.new) result }

    ensures store { IsStore tags.new (D.identity disk.new) (D.moments disk.new) }
    ensures geometry { tags.new.geometry ≡ tags.old.geometry }
    ensures identity { D.identity disk.new ≡ D.identity disk.old }
    ensures unread { D.reads disk.new ≡ D.reads disk.old }

    ensures stands { (d : JournaledDisk) → HasCells d tags.old (D.moments disk.old)
        → EachMoment (D.moments disk.old) (D.moments disk.new) (StandsFor d) }
    ensures moments { EachSince (OnlyAdds (IsMarkedTags tags.old))
        (D.moments disk.old) (D.moments disk.new) }
    // Where no tag is still to be written the disk is synced at most.
    ensures synced { HasNoMark tags.old.sectors
        → EachSince (λ start c. c ≡ newest_only start) (D.moments disk.old) (D.moments disk.new) }
{
    tags.write_back(disk)?;
    disk.sync()
}
