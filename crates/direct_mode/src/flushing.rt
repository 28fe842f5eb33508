//! Flushing all that was written.
ghost use Rattle.std.specs.Prelude.{◌≡◌, OnOk};
ghost use Rattle.disk_model.specs.Causes.{HasCause};
ghost use Rattle.disk_model.specs.Disk.{OnlyAdds, newest_only};
ghost use Rattle.disk_model.specs.Moments.{EachSince, IsChangedBy};
ghost use Rattle.recalculate_laws.specs.Calls.{SettlesBy};
ghost use Rattle.buffer_cache.specs.Cached.{HasNoMark, written_back};
ghost use Rattle.direct_mode.specs.Calls.{FlushesEach, StandsEach};
ghost use Rattle.direct_mode.specs.Settling.{SettlesIn};
ghost use Rattle.tag_store.specs.Store.{IsMarkedTags, IsStore, given_tags};

use sector_disk::{Disk, Failed};
use tag_store::Tags;

/// Writes the tags back, and syncs.
///
/// # Errors
///
/// - `Failed`: the disk failed. Nothing more is flushed.
pub fn flush<D: Disk>(disk: &mut D, tags: &mut Tags) -> Result<(), Failed>
    requires store { IsStore tags.old (D.identity disk.old) (D.moments disk.old) }

    ensures flushed { OnOk result (FlushesEach tags.old tags.new (D.moments disk.old) (D.moments disk.new)) }
    ensures settled { OnOk result (SettlesBy tags.old.geometry (given_tags tags.old) (given_tags tags.new)
        (D.moments disk.old) (D.moments disk.new)) }
    ensures synced { OnOk result (IsChangedBy (λ c. newest_only (written_back tags.old.sectors c))
        (D.moments disk.old) (D.moments disk.new)) }
    ensures unmarked { OnOk result (HasNoMark tags.new.sectors) }

    ensures cause { HasCause (D.faults disk.old) (D.faults disk.new) result }

    ensures store { IsStore tags.new (D.identity disk.new) (D.moments disk.new) }
    ensures geometry { tags.new.geometry ≡ tags.old.geometry }
    ensures identity { D.identity disk.new ≡ D.identity disk.old }
    ensures unread { D.reads disk.new ≡ D.reads disk.old }

    ensures through { StandsEach tags.old (D.moments disk.old) (D.moments disk.new) }
    ensures settling { SettlesIn tags.old.geometry (given_tags tags.old) (D.moments disk.old) (D.moments disk.new) }
    ensures moments { EachSince (OnlyAdds (IsMarkedTags tags.old))
        (D.moments disk.old) (D.moments disk.new) }
{
    tags.write_back(disk)?;
    disk.sync()
}
