//! A flush behind a write, where that is asked.
ghost use Rattle.std.specs.Prelude.{◌≡◌, false, OnOk};
ghost use Rattle.disk_model.specs.Causes.{HasCause};
ghost use Rattle.journal_mode.specs.Standing.{IsLeftThrough, JournalStanding, StandsAs};
ghost use Rattle.tag_store.specs.Store.{IsStore};
ghost use Rattle.journal_device.specs.Writing.{FlushesIf, WritesIf};

use journal_mode::Journal;
use sector_disk::{Disk, Failed};
use tag_store::Tags;

/// Commits all that was put, where that is asked.
///
/// # Errors
///
/// - `Failed`: the disk failed. Each image is as a cut leaves it.
pub(crate) fn flush_if<D: Disk>(
    disk: &mut D,
    tags: &Tags,
    journal: &mut Journal<'_>,
    is_flushed: bool,
) -> Result<(), Failed>
    requires geometry { journal.old.ring.geometry ≡ tags.now.geometry }
    requires store { IsStore tags.now (D.identity disk.old) (D.moments disk.old) }

    ensures done { OnOk result (FlushesIf is_flushed tags.now journal.old journal.new
        (D.moments disk.old) (D.moments disk.new)) }
    ensures still { OnOk result (is_flushed ≡ false
        → (journal.new ≡ journal.old) × (D.moments disk.new ≡ D.moments disk.old)) }

    ensures cause { HasCause (D.faults disk.old) (D.faults disk.new) result }

    ensures store { OnOk result (IsStore tags.now (D.identity disk.new) (D.moments disk.new)) }
    ensures identity { D.identity disk.new ≡ D.identity disk.old }
    ensures unread { D.reads disk.new ≡ D.reads disk.old }
    ensures geometry { journal.new.ring.geometry ≡ journal.old.ring.geometry }

    ensures left { (w : JournalStanding) → StandsAs w journal.old tags.now (D.moments disk.old)
        → IsLeftThrough w (D.moments disk.old) (D.moments disk.new) }
    ensures writes { WritesIf is_flushed journal.old (D.moments disk.old) (D.moments disk.new) }
{
    if is_flushed {
        journal.flush(disk, tags)?;
    }
    Ok(())
}
