//! Serving one block of a write.
ghost use Rattle.std.specs.Prelude.{◌≡◌, OnErr, OnOk};
ghost use Rattle.disk_model.specs.Causes.{HasCause};
ghost use Rattle.disk_model.specs.Disk.{OnlyAdds};
ghost use Rattle.disk_model.specs.Moments.{EachSince};
ghost use Rattle.direct_mode.specs.Calls.{FailsEach, ServesEach};
ghost use Rattle.direct_mode.specs.Cells.{IsOfBlockOrTags, IsTaggedBlock};
ghost use Rattle.tag_store.specs.Store.{IsStore};

use crate::flushing::flush;
use crate::writing::write_block;
use hmac_tag::Tag;
use sector_disk::{Disk, Failed};
use tag_store::Tags;

/// Writes a block of a request, and flushes all where that is asked.
///
/// # Errors
///
/// - `Failed`: the disk failed.
pub fn serve_block<D: Disk>(
    disk: &mut D,
    tags: &mut Tags,
    block: u64,
    bytes: &[u8],
    tag: &Tag,
    flushes: bool,
) -> Result<(), Failed>
    requires store { IsStore tags.old (D.identity disk.old) (D.moments disk.old) }
    requires block { IsTaggedBlock tags.old.geometry block bytes.now tag.now }

    ensures done { OnOk result (ServesEach block bytes.now tag.now flushes tags.old tags.new
        (D.moments disk.old) (D.moments disk.new)) }

    ensures cause { HasCause (D.faults disk.old) (D.faults disk.new) result }
    ensures err { OnErr result (FailsEach block bytes.now tag.now flushes tags.old
        (D.moments disk.old) (D.moments disk.new)) }

    ensures store { IsStore tags.new (D.identity disk.new) (D.moments disk.new) }
    ensures geometry { tags.new.geometry ≡ tags.old.geometry }
    ensures identity { D.identity disk.new ≡ D.identity disk.old }

    ensures moments { EachSince (OnlyAdds (IsOfBlockOrTags tags.old.geometry block bytes.now))
        (D.moments disk.old) (D.moments disk.new) }
{
    write_block(disk, tags, block, bytes, tag)?;
    if flushes {
        return flush(disk, tags);
    }
    Ok(())
}
