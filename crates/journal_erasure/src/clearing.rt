//! The bytes of an empty journal.
ghost use Rattle.std.specs.Prelude.{◌≡◌, ◌*◌, ◌<◌, ℕ, length};
ghost use Rattle.image_model.specs.Geometry.{IsGeometry, journal_sectors};
ghost use Rattle.image_model.specs.EmptySections.{AreEmptySections};

use image_model::SECTOR_SIZE;
use journal_section::clear;
use layout::Geometry;

/// Makes the bytes those of a journal's sections, each empty of commit number `number`.
///
/// Source: Linux, `drivers/md/dm-integrity.c`, `init_journal`.
pub fn clear_sections(geometry: &Geometry, number: u8, bytes: &mut [u8])
    requires geometry { (sectors : ℕ) × IsGeometry geometry.now sectors }
    requires number { number < 4 }
    requires bytes { length bytes.old ≡ 512 * journal_sectors geometry.now }

    ensures { AreEmptySections geometry.now number bytes.new }
{
    let shape = geometry.shape();
    let size = SECTOR_SIZE * shape.sectors as usize;
    for i in 0..geometry.sections() {
        let from = size * i as usize;
        clear(shape, i, number, &mut bytes[from..from + size]);
    }
}
