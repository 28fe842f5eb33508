//! Words of 64 bits in a bitmap.
ghost use Rattle.std.specs.Prelude.{◌≡◌, ◌+◌, ◌*◌, ◌/◌, ◌%◌, ◌^◌, ◌<◌, ◌≤◌, ◌==◌, ℕ, count_ones, length, IfOk};
ghost use Rattle.std.specs.Int.{bit_at};
ghost use Rattle.disk_model.specs.Causes.{HasCause};
ghost use Rattle.disk_model.specs.Disk.{last_image};
ghost use Rattle.disk_model.specs.Identity.{IsBound};
ghost use Rattle.disk_model.specs.Moments.{HasNow};
ghost use Rattle.image_model.specs.Bitmap.{is_bit_set};
ghost use Rattle.sector_window.specs.Window.{HasRoom};

use byteorder::{ByteOrder, LittleEndian};
use image_model::SUPERBLOCK_SECTORS;
use sector_disk::{Disk, Failed};
use sector_window::SectorWindow;

/// The bits of a word.
pub(crate) const WORD_BITS: u64 = 64;

/// Its bytes.
const WORD_SIZE: usize = 8;

/// The words of a sector.
const SECTOR_WORDS: u64 = 64;

/// The word of some bytes that has their bits `64 * at` to `64 * at + 63`, the lowest first.
fn word_at(bytes: &[u8], at: usize) -> u64
    requires { 8 * at + 8 ≤ length bytes.now }

    ensures { (i : ℕ) → i < 64 → is_bit_set bytes.now (64 * at + i) ≡ (bit_at result i == 1) }
{
    LittleEndian::read_u64(&bytes[WORD_SIZE * at..])
}

/// Reads the word that has the bits of regions `64 * at` to `64 * at + 63`, the lowest first.
///
/// # Errors
///
/// - `Failed`: the disk failed at the read.
pub(crate) fn read_word<D: Disk>(
    disk: &mut D,
    window: &mut SectorWindow,
    at: u64,
) -> Result<u64, Failed>
    requires bound { IsBound (D.identity disk.old).name }
    requires window { HasRoom 1 window.old (D.moments disk.old) }
    requires inside { 8 + at / 64 < (D.identity disk.old).sectors }
    requires device { (D.identity disk.old).sectors ≤ 2 ^ 48 }

    ensures word { IfOk result (λ word. HasNow (λ c. (i : ℕ) → i < 64
        → is_bit_set (last_image c (8 + at / 64)) (64 * (at % 64) + i) ≡ (bit_at word i == 1))
        (D.moments disk.old)) }

    ensures cause { HasCause (D.faults disk.old) (D.faults disk.new) result }

    ensures window { HasRoom 1 window.new (D.moments disk.new) }
    ensures identity { D.identity disk.new ≡ D.identity disk.old }
    ensures kept { D.moments disk.new ≡ D.moments disk.old }
{
    let sector = SUPERBLOCK_SECTORS + at / SECTOR_WORDS;
    window.show(disk, sector, 1)?;
    Ok(word_at(window.run(sector, 1), (at % SECTOR_WORDS) as usize))
}

/// How many of the lowest bits of a word are set, of so many.
pub(crate) fn ones(word: u64, bits: u64) -> u64
    requires { bits ≤ 64 }

    ensures { result ≡ count_ones (word % 2 ^ bits) }
{
    if bits == WORD_BITS {
        return u64::from(word.count_ones());
    }
    u64::from((word % (1 << bits)).count_ones())
}
