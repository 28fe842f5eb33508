//! What an image is read with, and one block of it: its bytes, and what is told of them.
ghost use Rattle.std.specs.Prelude.{◌≡◌, ◌*◌, ◌<◌, ◌^◌, length, IfOk, OnErr, OnOk};
ghost use Rattle.std.specs.Int.{IsInRange};
ghost use Rattle.disk_model.specs.Causes.{HasCause};
ghost use Rattle.hmac_tag.specs.TagMaker.{key_of};
ghost use Rattle.image_format.specs.Format.{disk_format};
ghost use Rattle.image_model.specs.Cells.{block_tag, salt_of};
ghost use Rattle.image_model.specs.Geometry.{IsGeometry};
ghost use Rattle.image_salvage.specs.Salvaged.{FitsFormat, HaveRoom, LeavesDisk};
ghost use Rattle.image_salvage.specs.Telling.{IsCopyOf, TellsBlock};

use crate::Verdict;
use hmac_tag::{Hash, Tag, TagMaker};
use image_format::ImageFormat;
use image_model::FIXED_HMAC;
use layout::Geometry;
use sector_disk::{Disk, Failed};
use sector_window::SectorWindow;

/// A tag may end in the sector behind the one where it begins.
const TAG_SECTORS: u64 = 2;

/// The maker of the tags of an image.
///
/// Source: Linux, `drivers/md/dm-integrity.c`, `SB_FLAG_FIXED_HMAC`.
pub(crate) fn tag_maker(format: &ImageFormat, hash: Hash) -> TagMaker
    ensures { result ≡ record {
      key = key_of hash;
      salt = salt_of format.now.fields;
      size = format.now.geometry.shape.tag_size;
    } }
{
    let salt = if format.fields.flags & FIXED_HMAC != 0 {
        Some(format.fields.salt)
    } else {
        None
    };
    TagMaker::new(hash, salt, format.geometry.shape().tag as u8)
}

/// Copies what stands in the place of a block to `bytes`, and tells it. Its tag and its bytes are read where the windows do
/// not show them.
///
/// # Errors
///
/// - `Failed`: the disk failed at a read. Nothing is copied.
pub(crate) fn read_block<D: Disk>(
    disk: &mut D,
    format: &ImageFormat,
    maker: &TagMaker,
    tags: &mut SectorWindow,
    blocks: &mut SectorWindow,
    block: u64,
    bytes: &mut [u8],
) -> Result<Verdict, Failed>
    requires fits { FitsFormat maker.now format.now (D.identity disk.old) }
    requires windows { HaveRoom tags.old blocks.old (D.moments disk.old) }
    requires block { block < format.now.geometry.blocks }
    requires bytes { length bytes.old ≡ 512 * format.now.geometry.shape.spb }

    ensures verdict { let d = disk_format maker.now.key (D.identity disk.old).sectors format.now in
        IfOk result (TellsBlock d block (D.moments disk.old)) }
    ensures copied { let d = disk_format maker.now.key (D.identity disk.old).sectors format.now in
        OnOk result (IsCopyOf d block (D.moments disk.old) bytes.new) }

    ensures cause { HasCause (D.faults disk.old) (D.faults disk.new) result }
    ensures err { OnErr result (bytes.new ≡ bytes.old) }

    ensures windows { HaveRoom tags.new blocks.new (D.moments disk.new) }
    ensures disk { LeavesDisk (D.identity disk.old) (D.identity disk.new) (D.moments disk.old) (D.moments disk.new) }
{
    let geometry = &format.geometry;
    let tag_at = geometry.tag_at(block);
    let at = geometry.data_at(block);
    let shape = geometry.shape();
    tags.show(disk, tag_at.sector, TAG_SECTORS)?;
    blocks.show(disk, at, shape.spb)?;
    let from = tag_at.byte as usize;
    let stored = &tags.run(tag_at.sector, TAG_SECTORS)[from..from + shape.tag as usize];
    let placed = blocks.run(at, shape.spb);
    bytes.copy_from_slice(placed);
    Ok(judge(geometry, maker, block, stored, placed))
}

/// What is told of a block with this stored tag and these bytes, which are hashed once.
fn judge(geometry: &Geometry, maker: &TagMaker, block: u64, stored: &[u8], bytes: &[u8]) -> Verdict
    requires geometry { IsGeometry geometry.now (2 ^ 48) }
    requires maker { maker.now.size ≡ geometry.now.shape.tag_size }
    requires block { block < geometry.now.blocks }
    requires stored { IsInRange 1 32 (length stored.now) }

    ensures { result ≡ record {
      block = block;
      stored = stored.now;
      computed = block_tag maker.now.key maker.now.salt geometry.now (block * geometry.now.shape.spb) bytes.now;
    } }
{
    Verdict {
        block,
        stored: Tag::from_bytes(stored),
        computed: maker.tag(block * geometry.shape().spb, bytes),
    }
}
