//! Where the parts of a section lie, and how bytes are put there.
ghost use Rattle.std.specs.Prelude.{◌≡◌, ◌+◌, ◌*◌, ◌≤◌, ◌<◌, length};
ghost use Rattle.commit_id.specs.Shape.{as_shape, IsShape};
ghost use Rattle.image_model.specs.Geometry.{entry_size};
ghost use Rattle.image_model.specs.Section.{entry_from};
ghost use Rattle.image_model.specs.Sectors.{bytes_of};
ghost use Rattle.journal_section.specs.Pieces.{with_piece};

use byteorder::{ByteOrder, LittleEndian};
use commit_id::Shape;
use image_model::{META_SECTORS, SECTOR_SIZE};

/// The size of a number in an entry, in bytes.
///
/// Source: Linux, `drivers/md/dm-integrity.c`, `struct journal_entry`.
pub(crate) const WORD: usize = 8;

/// The byte of the metadata where entry `n` begins.
///
/// Source: Linux, `drivers/md/dm-integrity.c`, `access_journal_entry`.
pub(crate) fn entry_from(shape: Shape, n: u64) -> usize
    requires shape { IsShape shape }
    requires n { n < shape.entries }

    ensures place { result ≡ entry_from (as_shape shape) n }
    ensures fits { result + shape.entry ≤ 4096 }

    // How large an entry is, for those who index in it.
    ensures size { shape.entry ≡ entry_size (as_shape shape) }
    ensures fields { 8 + 8 * shape.spb + shape.tag ≤ shape.entry }
    ensures spb { shape.spb ≤ 8 }
{
    let n = n as usize;
    SECTOR_SIZE * (n % META_SECTORS) + n / META_SECTORS * shape.entry as usize
}

/// Puts the piece into the bytes, from byte `from` on.
pub(crate) fn put(bytes: &mut [u8], from: usize, piece: &[u8])
    requires { from + length piece.now ≤ length bytes.old }

    ensures { bytes.new ≡ with_piece from piece.now bytes.old }
{
    bytes[from..from + piece.len()].copy_from_slice(piece);
}

/// Puts the number into the bytes, from byte `from` on, the lowest byte first.
pub(crate) fn put_number(bytes: &mut [u8], from: usize, number: u64)
    requires { from + 8 ≤ length bytes.old }

    ensures { bytes.new ≡ with_piece from (bytes_of number 8) bytes.old }
{
    LittleEndian::write_u64(&mut bytes[from..from + WORD], number);
}
