//! The bytes of sections that are one run, one behind the other.
ghost use Rattle.std.specs.Prelude.{◌≡◌, ◌+◌, ◌*◌, ◌^◌, ◌<◌, ◌≤◌, length, replicate, None};
ghost use Rattle.commit_id.specs.Shape.{as_shape, IsShape};
ghost use Rattle.image_model.specs.Sectors.{piece};
ghost use Rattle.image_model.specs.Entries.{BearsNumber, HoldsEntries};
ghost use Rattle.journal_ring.specs.Sections.{ChangesSection};
ghost use Rattle.image_model.specs.Section.{section_bytes};

use commit_id::Shape;
use image_model::SECTOR_SIZE;
use journal_section::clear;

/// The bytes of section `i`.
pub(crate) fn section(bytes: &[u8], shape: Shape, i: u64) -> &[u8]
    requires inside { 512 * ((i + 1) * shape.sectors) ≤ length bytes.now }
    requires shape { IsShape shape }

    ensures bytes { result.now ≡ section_bytes (as_shape shape) bytes.now i }
    ensures size { length result.now ≡ 512 * shape.sectors }
{
    let size = SECTOR_SIZE * shape.sectors as usize;
    let from = size * i as usize;
    &bytes[from..from + size]
}

/// The bytes of `count` sections, from section `from` on.
pub(crate) fn sections(bytes: &[u8], shape: Shape, from: u64, count: u64) -> &[u8]
    requires inside { 512 * ((from + count) * shape.sectors) ≤ length bytes.now }
    requires shape { IsShape shape }

    ensures { result.now ≡ piece bytes.now (512 * (from * shape.sectors)) (512 * (count * shape.sectors)) }
{
    let size = SECTOR_SIZE * shape.sectors as usize;
    let begin = size * from as usize;
    &bytes[begin..begin + size * count as usize]
}

/// Makes section `i` empty, under this commit number.
pub(crate) fn clear_section(bytes: &mut [u8], shape: Shape, i: u64, number: u8)
    requires inside { 512 * ((i + 1) * shape.sectors) ≤ length bytes.old }
    requires shape { IsShape shape }
    requires section { i < 2 ^ 20 }
    requires number { number < 4 }

    ensures number { BearsNumber (as_shape shape) i number (section_bytes (as_shape shape) bytes.new i) }
    ensures entries { HoldsEntries (as_shape shape) (replicate shape.entries None)
        (section_bytes (as_shape shape) bytes.new i) }
    ensures others { ChangesSection (as_shape shape) i bytes.old bytes.new }
{
    let size = SECTOR_SIZE * shape.sectors as usize;
    let from = size * i as usize;
    clear(shape, i, number, &mut bytes[from..from + size]);
}
