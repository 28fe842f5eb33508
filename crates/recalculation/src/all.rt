//! All regions that await are recalculated, one after the other: what comes before a change of mode, which writes
//! sector 0 itself, once all tags are in place.
ghost use Rattle.std.specs.Prelude.{◌≡◌, OnErr, OnOk};
ghost use Rattle.disk_model.specs.Causes.{HasCause};
ghost use Rattle.disk_model.specs.Disk.{OnlyAdds};
ghost use Rattle.disk_model.specs.Moments.{EachSince};
ghost use Rattle.change_model.specs.PhaseLaws.{no_region};
ghost use Rattle.direct_laws.specs.CallLaws.{ReadsTagsNow};
ghost use Rattle.bitmap_laws.specs.CallLaws.{AreSameBits};
ghost use Rattle.buffer_cache.specs.Cached.{HasNoMark};
ghost use Rattle.tag_store.specs.Store.{IsStore, given_tags};
ghost use Rattle.recalculation.specs.All.{AwaitFewer, HasTakenAll, IsOfTagsOnly, StandsThroughAll};
ghost use Rattle.recalculation.specs.Awaiting.{awaiting_of};
ghost use Rattle.recalculation.specs.Rest.{StaysInPlace};

use crate::awaiting::Awaiting;
use hmac_tag::TagMaker;
use sector_disk::{Disk, Failed};
use tag_store::Tags;

/// Recalculates each region that awaits, the least one first, until none does, and then writes the tags back. Nothing
/// is synced, and sector 0 is not written. Where no region awaits nothing is read, and nothing written but tags that
/// stood in memory alone.
///
/// # Errors
///
/// - `Failed`: the disk failed. The regions that were recalculated before do not await any more, and some blocks of the
///   next one may have got their tags.
pub fn recalculate_all<D: Disk>(
    disk: &mut D,
    tags: &mut Tags,
    maker: &TagMaker,
    awaiting: &mut Awaiting,
) -> Result<(), Failed>
    requires same { tags.old.geometry ≡ awaiting.old.geometry }
    requires size { maker.now.size ≡ awaiting.old.geometry.shape.tag_size }
    requires store { IsStore tags.old (D.identity disk.old) (D.moments disk.old) }

    ensures taken { OnOk result (HasTakenAll maker.now awaiting.old awaiting.new (given_tags tags.old)
        (given_tags tags.new) (D.moments disk.old) (D.moments disk.new)) }
    ensures back { OnOk result (ReadsTagsNow awaiting.old.geometry (given_tags tags.new) (D.moments disk.new)) }
    ensures unmarked { OnOk result (HasNoMark tags.new.sectors) }
    ensures idle { AreSameBits awaiting.old.geometry (awaiting_of awaiting.old) no_region
        → HasNoMark tags.old.sectors → D.moments disk.new ≡ D.moments disk.old }

    ensures cause { HasCause (D.faults disk.old) (D.faults disk.new) result }
    ensures err { OnErr result (AwaitFewer awaiting.old.geometry (awaiting_of awaiting.old)
        (awaiting_of awaiting.new)) }

    ensures stays { StaysInPlace awaiting.old awaiting.new tags.old tags.new (D.identity disk.old) (D.identity disk.new)
        (D.moments disk.old) (D.moments disk.new) }

    ensures through { StandsThroughAll maker.now awaiting.old (given_tags tags.old)
        (D.moments disk.old) (D.moments disk.new) }
    ensures moments { EachSince (OnlyAdds (IsOfTagsOnly awaiting.old.geometry))
        (D.moments disk.old) (D.moments disk.new) }
{
    take_all(disk, tags, maker, awaiting)?;
    tags.write_back(disk)
}

/// Recalculates each region that awaits, the least one first, until none does.
///
/// # Errors
///
/// - `Failed`: as `recalculate_all` has it.
fn take_all<D: Disk>(
    disk: &mut D,
    tags: &mut Tags,
    maker: &TagMaker,
    awaiting: &mut Awaiting,
) -> Result<(), Failed>
    requires same { tags.old.geometry ≡ awaiting.old.geometry }
    requires size { maker.now.size ≡ awaiting.old.geometry.shape.tag_size }
    requires store { IsStore tags.old (D.identity disk.old) (D.moments disk.old) }

    ensures taken { OnOk result (HasTakenAll maker.now awaiting.old awaiting.new (given_tags tags.old)
        (given_tags tags.new) (D.moments disk.old) (D.moments disk.new)) }
    ensures idle { AreSameBits awaiting.old.geometry (awaiting_of awaiting.old) no_region
        → (D.moments disk.new ≡ D.moments disk.old) × (tags.new ≡ tags.old) }

    ensures cause { HasCause (D.faults disk.old) (D.faults disk.new) result }
    ensures err { OnErr result (AwaitFewer awaiting.old.geometry (awaiting_of awaiting.old)
        (awaiting_of awaiting.new)) }

    ensures stays { StaysInPlace awaiting.old awaiting.new tags.old tags.new (D.identity disk.old) (D.identity disk.new)
        (D.moments disk.old) (D.moments disk.new) }

    ensures through { StandsThroughAll maker.now awaiting.old (given_tags tags.old)
        (D.moments disk.old) (D.moments disk.new) }
    ensures moments { EachSince (OnlyAdds (IsOfTagsOnly awaiting.old.geometry))
        (D.moments disk.old) (D.moments disk.new) }
{
    'regions: while let Some(region) = awaiting.next() {
        awaiting.recalc_region(disk, tags, maker, region)?;
    }
    Ok(())
}
