//! The bytes of an entry's block, of which the last 8 of each sector stand in the entry.
ghost use Rattle.std.specs.Prelude.{◌≡◌, ℕ, ◌+◌, ◌*◌, ◌%◌, ◌<◌, ◌≤◌, List, length, None, slice_index, slice_index_or};
ghost use Rattle.std.specs.Option.{ForSome, IfSome};
ghost use Rattle.commit_id.specs.Shape.{as_shape, IsShape};
ghost use Rattle.image_model.specs.Section.{block_in};
ghost use Rattle.image_model.specs.Entries.{entries_of};
ghost use Rattle.journal_section.specs.Pieces.{HasPieces};

use crate::places::{WORD, entry_from, put};
use commit_id::Shape;
use image_model::{ID_FROM, SECTOR_SIZE};

/// Puts the bytes of entry `n`'s block into `out`, by one copy: of each sector the first 504 from its data
/// sectors, and the last 8 from the entry.
///
/// Source: Linux, `drivers/md/dm-integrity.c`, `restore_last_bytes`.
pub fn block_bytes(shape: Shape, meta: &[u8], parts: &[u8], n: u64, out: &mut [u8])
    requires shape { IsShape shape }
    requires meta { length meta.now ≡ 4096 }
    requires parts { length parts.now ≡ 512 * shape.spb }
    requires n { n < shape.entries }
    requires out { length out.old ≡ 512 * shape.spb }

    ensures bytes { out.new ≡ block_in (as_shape shape) meta.now parts.now n }
    ensures entry { (bytes : List ℕ) → HasPieces (as_shape shape) n meta.now parts.now bytes
        → IfSome (slice_index_or (entries_of (as_shape shape) bytes) n None)
        (λ entry. out.new ≡ entry.bytes) }
{
    let entry = entry_from(shape, n);
    for k in 0..shape.spb as usize {
        let from = SECTOR_SIZE * k;
        let last = entry + WORD * (k + 1);
        put(out, from, &parts[from..from + ID_FROM]);
        put(out, from + ID_FROM, &meta[last..last + WORD]);
    }
}

/// Puts the first 504 bytes of each of the block's sectors into its data sectors. Their commit ids stay.
///
/// Source: Linux, `drivers/md/dm-integrity.c`, `__journal_read_write`.
pub(crate) fn put_fronts(shape: Shape, parts: &mut [u8], block: &[u8])
    requires spb { shape.spb ≤ 8 }
    requires parts { length parts.old ≡ 512 * shape.spb }
    requires block { length block.now ≡ 512 * shape.spb }

    ensures fronts { (at : ℕ) → at % 512 < 504 → slice_index parts.new at ≡ slice_index block.now at }
    ensures ids { (at : ℕ) → 504 ≤ at % 512 → slice_index parts.new at ≡ slice_index parts.old at }
{
    for k in 0..shape.spb as usize {
        let from = SECTOR_SIZE * k;
        put(parts, from, &block[from..from + ID_FROM]);
    }
}
