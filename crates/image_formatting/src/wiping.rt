//! Zeros in all blocks, with their tags: area after area, in the order of the disk.
ghost use Rattle.std.specs.Prelude.{◌≡◌, length, OnOk};
ghost use Rattle.disk_model.specs.Causes.{HasCause};
ghost use Rattle.disk_model.specs.Disk.{last_image};
ghost use Rattle.disk_model.specs.Identity.{IsBound};
ghost use Rattle.disk_model.specs.Moments.{EachSince, HasNow};
ghost use Rattle.image_model.specs.Geometry.{IsGeometry};
ghost use Rattle.image_format.specs.Format.{IsFormat};
ghost use Rattle.formatting_model.specs.Blocks.{HasZeroBlocks, IsAreaRun, IsSectorOf};
ghost use Rattle.formatting_model.specs.Runs.{ChangesOnly};
ghost use Rattle.formatting_model.specs.Stays.{IsBlockByte, ReadsKeep};
ghost use Rattle.formatting_model.specs.Written.{IsOfBlocks, OnlyWrites};
ghost use Rattle.image_formatting.specs.Room.{tags_at_once, zeros_at_once};

use crate::tagging::write_tags;
use crate::zeroing::write_zeros;
use hmac_tag::TagMaker;
use image_format::ImageFormat;
use layout::Geometry;
use sector_disk::{Disk, Failed};

/// Writes zeros and their tags to all blocks.
///
/// # Errors
///
/// - `Failed`: the disk failed.
pub(crate) fn wipe_blocks<D: Disk>(
    disk: &mut D,
    format: &ImageFormat,
    maker: &TagMaker,
    zeros: &[u8],
    tags: &mut [u8],
) -> Result<(), Failed>
    requires bound { IsBound (D.identity disk.old).name }
    requires format { IsFormat (D.identity disk.old).sectors format.now }
    requires size { maker.now.size ≡ format.now.geometry.shape.tag_size }
    requires zeros { zeros.now ≡ zeros_at_once }
    requires room { length tags.old ≡ tags_at_once maker.now.size }

    ensures wiped { let g = format.now.geometry in
        OnOk result (HasNow (λ c. HasZeroBlocks maker.now g 0 g.blocks (last_image c)) (D.moments disk.new)) }
    ensures stays { let g = format.now.geometry in
        OnOk result (ReadsKeep (IsBlockByte g 0 g.blocks) (D.moments disk.old) (D.moments disk.new)) }

    ensures cause { HasCause (D.faults disk.old) (D.faults disk.new) result }

    ensures identity { D.identity disk.new ≡ D.identity disk.old }

    ensures moments { let g = format.now.geometry in
        EachSince (ChangesOnly (IsSectorOf g 0 g.blocks)) (D.moments disk.old) (D.moments disk.new) }
    ensures writes { let g = format.now.geometry in
        OnlyWrites (IsOfBlocks g 0 g.blocks) (D.moments disk.old) (D.moments disk.new) }
{
    let blocks = format.geometry.blocks();
    let of_area = 1 << (format.fields.log2_interleave - format.fields.log2_spb);
    let mut first = 0;
    while first < blocks {
        let count = (blocks - first).min(of_area);
        wipe_area(disk, &format.geometry, maker, zeros, tags, first, count)?;
        first += count;
    }
    Ok(())
}

/// Writes the tags and the zeros of `count` blocks of an area, of which `first` is its first one.
fn wipe_area<D: Disk>(
    disk: &mut D,
    geometry: &Geometry,
    maker: &TagMaker,
    zeros: &[u8],
    tags: &mut [u8],
    first: u64,
    count: u64,
) -> Result<(), Failed>
    requires bound { IsBound (D.identity disk.old).name }
    requires geometry { IsGeometry geometry.now (D.identity disk.old).sectors }
    requires size { maker.now.size ≡ geometry.now.shape.tag_size }
    requires zeros { zeros.now ≡ zeros_at_once }
    requires room { length tags.old ≡ tags_at_once maker.now.size }
    requires run { IsAreaRun geometry.now first count }

    ensures wiped { OnOk result (HasNow (λ c. HasZeroBlocks maker.now geometry.now first count (last_image c))
        (D.moments disk.new)) }
    ensures stays { OnOk result (ReadsKeep (IsBlockByte geometry.now first count)
        (D.moments disk.old) (D.moments disk.new)) }

    ensures cause { HasCause (D.faults disk.old) (D.faults disk.new) result }

    ensures identity { D.identity disk.new ≡ D.identity disk.old }

    ensures moments { EachSince (ChangesOnly (IsSectorOf geometry.now first count))
        (D.moments disk.old) (D.moments disk.new) }
    ensures writes { OnlyWrites (IsOfBlocks geometry.now first count) (D.moments disk.old) (D.moments disk.new) }
{
    let tags_at = geometry.tag_at(first).sector;
    let data_at = geometry.data_at(first);
    let shape = geometry.shape();
    write_tags(disk, maker, shape, zeros, tags, tags_at, first, count)?;
    write_zeros(disk, zeros, data_at, count * shape.spb)
}
