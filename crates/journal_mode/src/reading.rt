//! Reading one block from the ring, or from its place.
ghost use Rattle.std.specs.Prelude.{◌≡◌, ◌*◌, ◌<◌, length, slice_get, Some, IfOk};
ghost use Rattle.disk_model.specs.Causes.{HasCause};
ghost use Rattle.disk_model.specs.Disk.{OnlyAdds};
ghost use Rattle.disk_model.specs.Moments.{EachMoment, EachSince};
ghost use Rattle.replay.specs.DirectModeCells.{IsBlock};
ghost use Rattle.image_model.specs.Section.{Entry};
ghost use Rattle.direct_laws.specs.CallLaws.{GivesTags};
ghost use Rattle.journal_model.specs.JournaledDisk.{JournaledDisk, StandsFor};
ghost use Rattle.journal_mode.specs.Reads.{ReadsPlaced};
ghost use Rattle.journal_ring.specs.Places.{entries_at};
ghost use Rattle.replay.specs.Cells.{HasCells, StaysOnDisk};
ghost use Rattle.tag_store.specs.Store.{IsOutForTag, IsStore, given_tags};

use hmac_tag::Tag;
use image_model::EntryPlace;
use journal_ring::Ring;
use sector_disk::{Disk, Failed};
use tag_store::Tags;

/// Puts the bytes of an entry of the ring into `out`, and tells its tag.
pub(crate) fn read_entry(ring: &Ring<'_>, place: EntryPlace, out: &mut [u8]) -> Tag
    requires section { place.section < ring.now.geometry.sections }
    requires entry { place.entry < length (entries_at ring.now place.section) }
    requires out { length out.old ≡ 512 * ring.now.geometry.shape.spb }

    ensures bytes { (entry : Entry) → slice_get (entries_at ring.now place.section) place.entry ≡ Some entry
        → out.new ≡ entry.bytes }
    ensures tag { (entry : Entry) → slice_get (entries_at ring.now place.section) place.entry ≡ Some entry
        → result ≡ entry.tag }
{
    ring.content(place, out);
    ring.view(place).tag
}

/// Reads the bytes of a block from its place by one call of the disk, and gets the tag that is stored for it.
///
/// # Errors
///
/// - `Failed`: the disk failed. What is left in the buffer is open.
pub(crate) fn read_placed<D: Disk>(
    disk: &mut D,
    tags: &mut Tags,
    block: u64,
    out: &mut [u8],
) -> Result<Tag, Failed>
    requires store { IsStore tags.old (D.identity disk.old) (D.moments disk.old) }
    requires block { IsBlock tags.old.geometry block out.old }

    ensures read { IfOk result (λ tag. ReadsPlaced block out.new tag tags.old (D.moments disk.old)) }

    ensures cause { HasCause (D.faults disk.old) (D.faults disk.new) result }

    ensures cells { (d : JournaledDisk) → HasCells d tags.old (D.moments disk.old)
        → HasCells d tags.new (D.moments disk.new) }
    ensures tags { GivesTags tags.old.geometry (given_tags tags.old) (given_tags tags.new)
        (D.moments disk.old) (D.moments disk.new) }
    ensures stays { StaysOnDisk tags.old tags.new (D.identity disk.old) (D.identity disk.new) (D.moments disk.new) }

    ensures stands { (d : JournaledDisk) → HasCells d tags.old (D.moments disk.old)
        → EachMoment (D.moments disk.old) (D.moments disk.new) (StandsFor d) }
    ensures moments { EachSince (OnlyAdds (IsOutForTag block tags.old))
        (D.moments disk.old) (D.moments disk.new) }
{
    tags.read_block(disk, block, out)?;
    tags.get(disk, block)
}
