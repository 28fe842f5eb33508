//! Writing one block in place.
ghost use Rattle.std.specs.Prelude.{◌≡◌, OnOk};
ghost use Rattle.disk_model.specs.Causes.{HasCause};
ghost use Rattle.disk_model.specs.Disk.{OnlyAdds, Reads};
ghost use Rattle.disk_model.specs.Moments.{EachSince, HasNow};
ghost use Rattle.image_model.specs.Geometry.{data_at};
ghost use Rattle.direct_mode.specs.Calls.{GivesBlockTag, StandsWriting, WritesEach};
ghost use Rattle.direct_mode.specs.Cells.{IsOfBlock, IsTaggedBlock};
ghost use Rattle.tag_store.specs.Store.{IsStore};

use hmac_tag::Tag;
use sector_disk::{Disk, Failed};
use tag_store::Tags;

/// Writes the bytes of a block to their place, and then puts its tag.
///
/// # Errors
///
/// - `Failed`: the disk failed. Any part of it may have been done.
pub fn write_block<D: Disk>(
    disk: &mut D,
    tags: &mut Tags,
    block: u64,
    bytes: &[u8],
    tag: &Tag,
) -> Result<(), Failed>
    requires store { IsStore tags.old (D.identity disk.old) (D.moments disk.old) }
    requires block { IsTaggedBlock tags.old.geometry block bytes.now tag.now }

    ensures written { OnOk result (WritesEach block bytes.now tag.now tags.old tags.new
        (D.moments disk.old) (D.moments disk.new)) }
    ensures gives { OnOk result (GivesBlockTag block tag.now tags.old tags.new
        (D.moments disk.old) (D.moments disk.new)) }
    ensures read { OnOk result (HasNow (Reads (data_at tags.old.geometry block) bytes.now)
        (D.moments disk.new)) }

    ensures cause { HasCause (D.faults disk.old) (D.faults disk.new) result }

    ensures store { IsStore tags.new (D.identity disk.new) (D.moments disk.new) }
    ensures geometry { tags.new.geometry ≡ tags.old.geometry }
    ensures identity { D.identity disk.new ≡ D.identity disk.old }

    ensures through { StandsWriting block bytes.now tags.old (D.moments disk.old) (D.moments disk.new) }
    ensures moments { EachSince (λ start. OnlyAdds (IsOfBlock block bytes.now tag.now tags.old start) start)
        (D.moments disk.old) (D.moments disk.new) }
{
    tags.write_block(disk, block, bytes)?;
    tags.put(disk, block, tag)
}
