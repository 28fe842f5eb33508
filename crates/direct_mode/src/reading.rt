//! Reading one block with its tag.
ghost use Rattle.std.specs.Prelude.{◌≡◌, IfOk, OnOk};
ghost use Rattle.disk_model.specs.Causes.{HasCause};
ghost use Rattle.disk_model.specs.Disk.{OnlyAdds, Reads};
ghost use Rattle.disk_model.specs.Moments.{EachSince, HasNow};
ghost use Rattle.image_model.specs.Geometry.{data_at};
ghost use Rattle.direct_laws.specs.ServeLaws.{WritesBack};
ghost use Rattle.direct_mode.specs.Calls.{KeepsEach};
ghost use Rattle.direct_mode.specs.Cells.{IsBlock};
ghost use Rattle.tag_store.specs.Store.{IsOutForTag, IsStore, given_tags};

use hmac_tag::Tag;
use sector_disk::{Disk, Failed};
use tag_store::Tags;

/// Reads the bytes of a block, and gets the tag that is stored for it.
///
/// # Errors
///
/// - `Failed`: the disk failed. What is left in the buffer is open.
pub fn read_block<D: Disk>(
    disk: &mut D,
    tags: &mut Tags,
    block: u64,
    out: &mut [u8],
) -> Result<Tag, Failed>
    requires store { IsStore tags.old (D.identity disk.old) (D.moments disk.old) }
    requires block { IsBlock tags.old.geometry block out.old }

    ensures read { OnOk result (HasNow (Reads (data_at tags.old.geometry block) out.new)
        (D.moments disk.old)) }
    ensures tag { IfOk result (λ tag. HasNow (λ c. tag ≡ given_tags tags.old c block)
        (D.moments disk.old)) }

    ensures cause { HasCause (D.faults disk.old) (D.faults disk.new) result }

    ensures kept { KeepsEach tags.old tags.new (D.moments disk.old) (D.moments disk.new) }

    ensures back { WritesBack tags.old.geometry (given_tags tags.old) (given_tags tags.new)
        (D.moments disk.old) (D.moments disk.new) }
    ensures store { IsStore tags.new (D.identity disk.new) (D.moments disk.new) }
    ensures geometry { tags.new.geometry ≡ tags.old.geometry }
    ensures identity { D.identity disk.new ≡ D.identity disk.old }

    ensures moments { EachSince (OnlyAdds (IsOutForTag block tags.old))
        (D.moments disk.old) (D.moments disk.new) }
{
    tags.read_block(disk, block, out)?;
    tags.get(disk, block)
}
