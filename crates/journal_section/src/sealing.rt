//! The seal of a section: its sectors count as written under a commit number.
ghost use Rattle.std.specs.Prelude.{◌≡◌, ℕ, ◌*◌, ◌%◌, ◌^◌, ◌<◌, List, length, Option, slice_index};
ghost use Rattle.commit_id.specs.Shape.{as_shape, IsShape};
ghost use Rattle.image_model.specs.Section.{Entry};
ghost use Rattle.image_model.specs.Entries.{BearsNumber, HoldsEntries};

use crate::places::put_number;
use commit_id::{Shape, id};
use image_model::{ID_FROM, SECTOR_SIZE};

/// Writes the commit ids of commit number `number` on all sectors of section `i`, and nothing else.
///
/// Source: Linux, `drivers/md/dm-integrity.c`, `integrity_commit`.
pub fn seal(shape: Shape, i: u64, number: u8, bytes: &mut [u8])
    requires shape { IsShape shape }
    requires section { i < 2 ^ 20 }
    requires number { number < 4 }
    requires bytes { length bytes.old ≡ 512 * shape.sectors }

    ensures number { BearsNumber (as_shape shape) i number bytes.new }
    ensures entries { (entries : List (Option Entry)) → HoldsEntries (as_shape shape) entries bytes.old
        → HoldsEntries (as_shape shape) entries bytes.new }
    ensures others { (at : ℕ) → at % 512 < 504 → slice_index bytes.new at ≡ slice_index bytes.old at }
{
    for j in 0..shape.sectors {
        put_number(bytes, SECTOR_SIZE * j as usize + ID_FROM, id(i, j, number));
    }
}
