//! Judging one block by its bytes and its stored tag.
ghost use Rattle.std.specs.Prelude.{◌≡◌, ◌+◌, ◌*◌, ◌^◌, ◌<◌, length, IfOk};
ghost use Rattle.std.specs.Int.{IsInRange};
ghost use Rattle.disk_model.specs.Causes.{HasCause};
ghost use Rattle.disk_model.specs.Disk.{last_image};
ghost use Rattle.disk_model.specs.Identity.{IsBound};
ghost use Rattle.disk_model.specs.Moments.{HasNow};
ghost use Rattle.image_model.specs.Cells.{block_tag};
ghost use Rattle.image_model.specs.Geometry.{IsGeometry};
ghost use Rattle.check_model.specs.Bad.{bad_by, bad_placed};
ghost use Rattle.sector_window.specs.Window.{HasRoom};

use crate::Bad;
use hmac_tag::{Tag, TagMaker};
use layout::Geometry;
use sector_disk::{Disk, Failed};
use sector_window::SectorWindow;

/// A tag may end in the sector behind the one where it begins.
const TAG_SECTORS: u64 = 2;

/// The block, where the tag that is stored for it is not that of its bytes. They are hashed once.
fn judge(
    geometry: &Geometry,
    maker: &TagMaker,
    block: u64,
    stored: &[u8],
    bytes: &[u8],
) -> Option<Bad>
    requires geometry { IsGeometry geometry.now (2 ^ 48) }
    requires maker { maker.now.size ≡ geometry.now.shape.tag_size }
    requires block { block < geometry.now.blocks }
    requires stored { IsInRange 1 32 (length stored.now) }

    ensures { result ≡ bad_by block stored.now
        (block_tag maker.now.key maker.now.salt geometry.now (block * geometry.now.shape.spb) bytes.now) }
{
    let computed = maker.tag(block * geometry.shape().spb, bytes);
    if computed.bytes() == stored {
        return None;
    }
    Some(Bad {
        block,
        stored: Tag::from_bytes(stored),
        computed,
    })
}

/// Judges a block by what stands in its place. Its tag and its bytes are read where the windows do not show them.
///
/// # Errors
///
/// - `Failed`: the disk failed at a read.
pub(crate) fn judge_placed<D: Disk>(
    disk: &mut D,
    geometry: &Geometry,
    maker: &TagMaker,
    tags: &mut SectorWindow,
    blocks: &mut SectorWindow,
    block: u64,
) -> Result<Option<Bad>, Failed>
    requires bound { IsBound (D.identity disk.old).name }
    requires geometry { IsGeometry geometry.now (D.identity disk.old).sectors }
    requires maker { maker.now.size ≡ geometry.now.shape.tag_size }
    requires tags { HasRoom 2 tags.old (D.moments disk.old) }
    requires blocks { HasRoom 8 blocks.old (D.moments disk.old) }
    requires block { block < geometry.now.blocks }

    ensures bad { IfOk result (λ answer. HasNow (λ c. answer
        ≡ bad_placed maker.now.key maker.now.salt geometry.now (last_image c) block) (D.moments disk.old)) }

    ensures cause { HasCause (D.faults disk.old) (D.faults disk.new) result }

    ensures tags { HasRoom 2 tags.new (D.moments disk.new) }
    ensures blocks { HasRoom 8 blocks.new (D.moments disk.new) }
    ensures identity { D.identity disk.new ≡ D.identity disk.old }
    ensures kept { D.moments disk.new ≡ D.moments disk.old }
{
    let tag_at = geometry.tag_at(block);
    let at = geometry.data_at(block);
    let shape = geometry.shape();
    tags.show(disk, tag_at.sector, TAG_SECTORS)?;
    blocks.show(disk, at, shape.spb)?;
    let from = tag_at.byte as usize;
    let stored = &tags.run(tag_at.sector, TAG_SECTORS)[from..from + shape.tag as usize];
    Ok(judge(geometry, maker, block, stored, blocks.run(at, shape.spb)))
}
