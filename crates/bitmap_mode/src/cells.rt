//! A block and its tag in their places: written where its region's bit is set, read, and flushed.
ghost use Rattle.std.specs.Prelude.{◌≡◌, IfOk, OnOk};
ghost use Rattle.disk_model.specs.Causes.{HasCause};
ghost use Rattle.disk_model.specs.Disk.{OnlyAdds, Reads, newest_only};
ghost use Rattle.disk_model.specs.Moments.{EachSince, HasNow, IsChangedBy};
ghost use Rattle.image_model.specs.Geometry.{data_at};
ghost use Rattle.buffer_cache.specs.Cached.{HasNoMark, written_back};
ghost use Rattle.direct_laws.specs.ServeLaws.{WritesBack};
ghost use Rattle.direct_mode.specs.Cells.{IsBlock, IsOfBlock, IsTaggedBlock};
ghost use Rattle.recalculation.specs.Rest.{KeepsRest};
ghost use Rattle.tag_store.specs.Store.{IsMarkedTags, IsStore, given_tags};
ghost use Rattle.bitmap_mode.specs.Flushing.{FlushesCells, FlushesInCells};
ghost use Rattle.bitmap_mode.specs.Writing.{WritesCell, WritesInCell};

use hmac_tag::Tag;
use sector_disk::{Disk, Failed};
use tag_store::Tags;

/// Writes the bytes of a block to their place, and then puts its tag. The bit of its region is set.
///
/// # Errors
///
/// - `Failed`: the disk failed. Any part of it may have been done.
pub(crate) fn write_cell<D: Disk>(
    disk: &mut D,
    tags: &mut Tags,
    block: u64,
    bytes: &[u8],
    tag: &Tag,
) -> Result<(), Failed>
    requires store { IsStore tags.old (D.identity disk.old) (D.moments disk.old) }
    requires block { IsTaggedBlock tags.old.geometry block bytes.now tag.now }

    ensures written { OnOk result (WritesCell block bytes.now tag.now tags.old tags.new
        (D.moments disk.old) (D.moments disk.new)) }

    ensures cause { HasCause (D.faults disk.old) (D.faults disk.new) result }

    ensures store { IsStore tags.new (D.identity disk.new) (D.moments disk.new) }
    ensures geometry { tags.new.geometry ≡ tags.old.geometry }
    ensures identity { D.identity disk.new ≡ D.identity disk.old }

    ensures through { WritesInCell block bytes.now tag.now tags.old (D.moments disk.old) (D.moments disk.new) }
    ensures moments { EachSince (λ start. OnlyAdds (IsOfBlock block bytes.now tag.now tags.old start) start)
        (D.moments disk.old) (D.moments disk.new) }
{
    tags.write_block(disk, block, bytes)?;
    tags.put(disk, block, tag)
}

/// Reads the bytes of a block, and gets the tag that is stored for it.
///
/// # Errors
///
/// - `Failed`: the disk failed. What is left in the buffer is open.
pub(crate) fn read_cell<D: Disk>(
    disk: &mut D,
    tags: &mut Tags,
    block: u64,
    out: &mut [u8],
) -> Result<Tag, Failed>
    requires store { IsStore tags.old (D.identity disk.old) (D.moments disk.old) }
    requires block { IsBlock tags.old.geometry block out.old }

    ensures read { OnOk result (HasNow (Reads (data_at tags.old.geometry block) out.new) (D.moments disk.old)) }
    ensures tag { IfOk result (λ tag. HasNow (λ c. tag ≡ given_tags tags.old c block) (D.moments disk.old)) }

    ensures cause { HasCause (D.faults disk.old) (D.faults disk.new) result }

    ensures back { WritesBack tags.old.geometry (given_tags tags.old) (given_tags tags.new)
        (D.moments disk.old) (D.moments disk.new) }
    ensures store { IsStore tags.new (D.identity disk.new) (D.moments disk.new) }
    ensures geometry { tags.new.geometry ≡ tags.old.geometry }
    ensures rest { KeepsRest tags.old tags.new (D.moments disk.old) (D.moments disk.new) }
    ensures identity { D.identity disk.new ≡ D.identity disk.old }
{
    tags.read_block(disk, block, out)?;
    tags.get(disk, block)
}

/// Writes the tags back, and syncs.
///
/// # Errors
///
/// - `Failed`: the disk failed. Nothing more is flushed.
pub(crate) fn flush_cells<D: Disk>(disk: &mut D, tags: &mut Tags) -> Result<(), Failed>
    requires store { IsStore tags.old (D.identity disk.old) (D.moments disk.old) }

    ensures flushed { OnOk result (FlushesCells tags.old tags.new (D.moments disk.old) (D.moments disk.new)) }
    ensures synced { OnOk result (IsChangedBy (λ c. newest_only (written_back tags.old.sectors c))
        (D.moments disk.old) (D.moments disk.new)) }
    ensures unmarked { OnOk result (HasNoMark tags.new.sectors) }

    ensures cause { HasCause (D.faults disk.old) (D.faults disk.new) result }

    ensures store { IsStore tags.new (D.identity disk.new) (D.moments disk.new) }
    ensures geometry { tags.new.geometry ≡ tags.old.geometry }
    ensures identity { D.identity disk.new ≡ D.identity disk.old }
    ensures unread { D.reads disk.new ≡ D.reads disk.old }

    ensures through { FlushesInCells tags.old (D.moments disk.old) (D.moments disk.new) }
    ensures moments { EachSince (OnlyAdds (IsMarkedTags tags.old)) (D.moments disk.old) (D.moments disk.new) }
{
    tags.write_back(disk)?;
    disk.sync()
}
