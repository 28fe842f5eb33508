//! Laps of a ring of blocks of one sector: all its sections are filled, committed and freed.
ghost use Rattle.std.specs.Prelude.{◌≡◌, length};
ghost use Rattle.disk_model.specs.Identity.{HasSectors};
ghost use Rattle.image_model.specs.Geometry.{initial};

use hmac_tag::Tag;
use image_model::EntryPlace;
use journal_ring::Ring;
use sector_disk::{Disk, Failed};

/// Fills each section of a ring that is empty, commits all of them, and makes them free. Tells how many entries were
/// put.
///
/// # Errors
///
/// - `Failed`: the disk failed.
pub fn make_lap<D: Disk>(
    ring: &mut Ring<'_>,
    disk: &mut D,
    block: &[u8; 512],
    tag: &Tag,
) -> Result<u64, Failed>
    requires journal { HasSectors (initial ring.old.geometry) (D.identity disk.old) }
    requires one { ring.old.geometry.shape.spb ≡ 1 }
    requires tag { length tag.now ≡ ring.old.geometry.shape.tag_size }

    ensures geometry { ring.new.geometry ≡ ring.old.geometry }
    ensures identity { D.identity disk.new ≡ D.identity disk.old }
{
    let count = fill(ring, block, tag);
    ring.commit(disk)?;
    free_all(ring);
    Ok(count)
}

/// Puts as many entries as the ring has room for, and tells how many.
fn fill(ring: &mut Ring<'_>, block: &[u8; 512], tag: &Tag) -> u64
    requires one { ring.old.geometry.shape.spb ≡ 1 }
    requires tag { length tag.now ≡ ring.old.geometry.shape.tag_size }

    ensures geometry { ring.new.geometry ≡ ring.old.geometry }
{
    let most = ring.sections().saturating_mul(ring.shape().entries);
    for number in 0..most {
        if !put(ring, (number % 65_536) as u32, block, tag) {
            return number;
        }
    }
    most
}

/// Puts a block, and tells whether there was room.
fn put(ring: &mut Ring<'_>, number: u32, block: &[u8; 512], tag: &Tag) -> bool
    requires one { ring.old.geometry.shape.spb ≡ 1 }
    requires tag { length tag.now ≡ ring.old.geometry.shape.tag_size }

    ensures geometry { ring.new.geometry ≡ ring.old.geometry }
{
    match ring.put(number as u64, block, tag) {
        Ok(_) => true,
        Err(_) => false,
    }
}

/// Makes each committed section free.
fn free_all(ring: &mut Ring<'_>)
    ensures geometry { ring.new.geometry ≡ ring.old.geometry }
{
    for _freed in 0..ring.sections() {
        free_oldest(ring);
    }
}

/// Makes the oldest section free where it is committed.
fn free_oldest(ring: &mut Ring<'_>)
    ensures geometry { ring.new.geometry ≡ ring.old.geometry }
{
    let Some(section) = ring.oldest() else {
        return;
    };
    if ring.committed(EntryPlace { section, entry: 0 }) {
        ring.free(section);
    }
}
