//! An empty section.
ghost use Rattle.std.specs.Prelude.{◌≡◌, ℕ, ◌+◌, ◌*◌, ◌^◌, ◌<◌, length, replicate, None, slice_index};
ghost use Rattle.commit_id.specs.Shape.{as_shape, IsShape};
ghost use Rattle.image_model.specs.Section.{entry_from};
ghost use Rattle.image_model.specs.Entries.{BearsNumber, HoldsEntries, IsWithin};

use crate::places::{entry_from, put};
use crate::sealing::seal;
use commit_id::Shape;
use image_model::HIGH_HALF;

/// Makes section `i` empty of commit number `number`: each entry is unused, and each byte that nothing
/// names is zero.
///
/// Source: Linux, `drivers/md/dm-integrity.c`, `init_journal`.
pub fn clear(shape: Shape, i: u64, number: u8, bytes: &mut [u8])
    requires shape { IsShape shape }
    requires section { i < 2 ^ 20 }
    requires number { number < 4 }
    requires bytes { length bytes.old ≡ 512 * shape.sectors }

    ensures number { BearsNumber (as_shape shape) i number bytes.new }
    ensures entries { HoldsEntries (as_shape shape) (replicate shape.entries None) bytes.new }
{
    bytes.fill(0);
    for n in 0..shape.entries {
        put(bytes, entry_from(shape, n) + HIGH_HALF, &[0xff; 4]);
    }
    seal(shape, i, number, bytes);
}
