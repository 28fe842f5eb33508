//! What the sectors of a section bear.
ghost use Rattle.std.specs.Prelude.{◌≡◌, ◌+◌, ◌*◌, ◌^◌, ◌<◌, ◌≤◌, length};
ghost use Rattle.disk_model.specs.Disk.{sector_in};
ghost use Rattle.image_model.specs.CommitId.{commit_number, id_in};
ghost use Rattle.image_model.specs.Grid.{is_zero_sector};

use byteorder::{ByteOrder, LittleEndian};
use commit_id::number_of;
use image_model::{ID_FROM, SECTOR_SIZE};

/// What stands in the place of the commit id of sector `j`: its last 8 bytes.
///
/// Source: Linux, `drivers/md/dm-integrity.c`, `struct journal_sector`.
pub fn id_at(bytes: &[u8], j: u64) -> u64
    requires { 512 * (j + 1) ≤ length bytes.now }

    ensures { result ≡ id_in (sector_in bytes.now j) }
{
    LittleEndian::read_u64(&bytes[SECTOR_SIZE * j as usize + ID_FROM..])
}

/// Whether sector `j` has 512 zero bytes.
pub fn is_zero(bytes: &[u8], j: u64) -> bool
    requires { 512 * (j + 1) ≤ length bytes.now }

    ensures { result ≡ is_zero_sector (sector_in bytes.now j) }
{
    let from = SECTOR_SIZE * j as usize;
    are_zero(&bytes[from..from + SECTOR_SIZE])
}

/// The commit number that sector `j` of section `i` bears. None where it bears none.
///
/// Source: Linux, `drivers/md/dm-integrity.c`, `find_commit_seq`.
pub fn number(bytes: &[u8], i: u64, j: u64) -> Option<u8>
    requires bytes { 512 * (j + 1) ≤ length bytes.now }
    requires section { i < 2 ^ 20 }
    requires sector { j < 2 ^ 20 }

    ensures { result ≡ commit_number i j (sector_in bytes.now j) }
{
    number_of(i, j, id_at(bytes, j))
}

/// Whether all bytes are zero.
fn are_zero(bytes: &[u8]) -> bool
    ensures { result ≡ is_zero_sector bytes.now }
{
    bytes.iter().all(|byte| *byte == 0)
}
