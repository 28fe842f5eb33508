//! Whether the sectors of a journal have used entries, sector by sector.
ghost use Rattle.std.specs.Prelude.{◌≡◌, ◌<◌, ◌&&◌, length, nat_lt};
ghost use Rattle.commit_id.specs.Shape.{as_shape, IsShape};
ghost use Rattle.image_model.specs.Grid.{is_zero_sector};
ghost use Rattle.journal_reading.specs.Used.{has_used, has_used_outside, is_used_in};

use byteorder::{ByteOrder, LittleEndian};
use commit_id::Shape;
use image_model::{HIGH_HALF, META_SECTORS, UNUSED};
use journal_section::is_zero;

/// Whether a used entry stands in sector `k` of a journal, by its bytes. Of a zero sector among the first `bitmap` no
/// entry counts.
pub(crate) fn has_used_outside(shape: Shape, bitmap: u64, k: u64, bytes: &[u8]) -> bool
    requires shape { IsShape shape }
    requires bytes { length bytes.now ≡ 512 }

    ensures { result ≡ has_used_outside bitmap (as_shape shape) k bytes.now }
{
    let has_entries = k % shape.sectors < META_SECTORS as u64;
    has_entries && !may_be_blank(bitmap, k, bytes) && has_used(shape, bytes)
}

/// Whether sector `k` of a journal is a zero one among the first `bitmap`, by its bytes.
fn may_be_blank(bitmap: u64, k: u64, bytes: &[u8]) -> bool
    requires { length bytes.now ≡ 512 }

    ensures { result ≡ (nat_lt k bitmap && is_zero_sector bytes.now) }
{
    k < bitmap && is_zero(bytes, 0)
}

/// Whether an entry of a metadata sector is used, by the bytes of the sector.
fn has_used(shape: Shape, bytes: &[u8]) -> bool
    requires shape { IsShape shape }
    requires bytes { length bytes.now ≡ 512 }

    ensures { result ≡ has_used (as_shape shape) bytes.now }
{
    for m in 0..shape.per_sector {
        if is_used(shape, bytes, m) {
            return true;
        }
    }
    false
}

/// Whether entry `m` of those that stand in a metadata sector is used, by the bytes of the sector.
///
/// Source: Linux, `drivers/md/dm-integrity.c`, `journal_entry_is_unused`.
fn is_used(shape: Shape, bytes: &[u8], m: u64) -> bool
    requires shape { IsShape shape }
    requires bytes { length bytes.now ≡ 512 }
    requires m { m < shape.per_sector }

    ensures { result ≡ is_used_in (as_shape shape) bytes.now m }
{
    let from = m as usize * shape.entry as usize + HIGH_HALF;
    LittleEndian::read_u32(&bytes[from..]) != UNUSED
}
