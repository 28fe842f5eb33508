//! Writing one entry to its place.
ghost use Rattle.std.specs.Prelude.{◌≡◌, ◌*◌, ◌<◌, length, OnOk};
ghost use Rattle.disk_model.specs.Causes.{HasCause};
ghost use Rattle.disk_model.specs.Disk.{OnlyAdds};
ghost use Rattle.disk_model.specs.Moments.{EachMoment, EachSince};
ghost use Rattle.place_model.specs.Tags.{with_block_tag};
ghost use Rattle.direct_mode.specs.CallLaws.{GivesTags};
ghost use Rattle.direct_mode.specs.Cells.{IsOfBlockOrTags};
ghost use Rattle.journal_model.specs.JournaledDisk.{JournaledDisk, StandsFor};
ghost use Rattle.journal_model.specs.Steps.{after_place, IsNextEntry};
ghost use Rattle.journal_ring.specs.Places.{entry_of};
ghost use Rattle.place_writer.specs.Cells.{HasCells};
ghost use Rattle.tag_store.specs.Store.{IsStore, given_tags};

use hmac_tag::Tag;
use sector_disk::{Disk, Failed};
use tag_store::Tags;

/// Writes the bytes of a block to their place by one call of the disk, and then puts its tag through the store. The
/// bytes are one block's, and the tag has the geometry's size.
///
/// Source: Linux, `drivers/md/dm-integrity.c`, `do_journal_write`.
///
/// # Errors
///
/// - `Failed`: the disk failed. Any part of it may have been done.
pub fn write_entry<D: Disk>(
    disk: &mut D,
    tags: &mut Tags,
    block: u64,
    bytes: &[u8],
    tag: &Tag,
) -> Result<(), Failed>
    requires block { block < tags.old.geometry.blocks }
    requires bytes { length bytes.now ≡ 512 * tags.old.geometry.shape.spb }
    requires tag { length tag.now ≡ tags.old.geometry.shape.tag_size }
    requires store { IsStore tags.old (D.identity disk.old) (D.moments disk.old) }

    ensures placed { OnOk result ((d : JournaledDisk)
        → IsNextEntry d block (entry_of tags.old.geometry block bytes.now tag.now)
        → HasCells d tags.old (D.moments disk.old)
        → HasCells (after_place d) tags.new (D.moments disk.new)) }
    ensures tags { OnOk result (GivesTags tags.old.geometry
        (λ c. with_block_tag block tag.now (given_tags tags.old c)) (given_tags tags.new)
        (D.moments disk.old) (D.moments disk.new)) }

    ensures cause { HasCause (D.faults disk.old) (D.faults disk.new) result }

    ensures store { IsStore tags.new (D.identity disk.new) (D.moments disk.new) }
    ensures geometry { tags.new.geometry ≡ tags.old.geometry }
    ensures identity { D.identity disk.new ≡ D.identity disk.old }

    ensures stands { (d : JournaledDisk)
        → IsNextEntry d block (entry_of tags.old.geometry block bytes.now tag.now)
        → HasCells d tags.old (D.moments disk.old)
        → EachMoment (D.moments disk.old) (D.moments disk.new) (StandsFor (after_place d)) }
    ensures moments { EachSince (OnlyAdds (IsOfBlockOrTags tags.old.geometry block bytes.now))
        (D.moments disk.old) (D.moments disk.new) }
{
    tags.write_block(disk, block, bytes)?;
    tags.put(disk, block, tag)
}
