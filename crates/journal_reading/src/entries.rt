//! The entries of a journal, by its bytes.
ghost use Rattle.std.specs.Prelude.{◌≡◌, ◌*◌, ◌^◌, ◌<◌, ◌≤◌, length, option_map, take, IfSome};
ghost use Rattle.image_model.specs.Cells.{entry_of, section_bytes};
ghost use Rattle.image_model.specs.Geometry.{IsGeometry, journal_sectors, section_entries, section_sectors};
ghost use Rattle.image_model.specs.Section.{entry_at, parts_of};
ghost use Rattle.commit_id.specs.Shape.{IsShape, as_shape};
ghost use Rattle.journal_reading.specs.Entries.{entry_with};
ghost use Rattle.journal_reading.specs.Journal.{journal_image};

use commit_id::Shape;
use image_model::{EntryPlace, META_SECTORS, SECTOR_SIZE};
use journal_section::{EntryView, block_bytes, entry};
use layout::Geometry;

/// The sector and the tag of the entry that stands here, whose bytes are put into `block`. None where it is unused.
///
/// Source: Linux, `drivers/md/dm-integrity.c`, `do_journal_write`.
pub fn read_entry(
    geometry: &Geometry,
    bytes: &[u8],
    place: EntryPlace,
    block: &mut [u8],
) -> Option<EntryView>
    requires geometry { IsGeometry geometry.now (2 ^ 48) }
    requires bytes { length bytes.now ≡ 512 * journal_sectors geometry.now }
    requires section { place.section < geometry.now.sections }
    requires entry { place.entry < section_entries geometry.now.shape }
    requires block { length block.old ≡ 512 * geometry.now.shape.spb }

    ensures entry { option_map (entry_with block.new) result
        ≡ entry_of geometry.now (journal_image bytes.now) place }
    ensures tag { IfSome result (λ view. length view.tag ≡ geometry.now.shape.tag_size) }
{
    let section = section_in(geometry, bytes, place.section);
    read_in_section(geometry, section, place.entry, block)
}

/// The sector and the tag of entry `n` of a section, by the bytes of that. Those of its block are put into `block`.
/// None where it is unused.
pub(crate) fn read_in_section(
    geometry: &Geometry,
    section: &[u8],
    n: u64,
    block: &mut [u8],
) -> Option<EntryView>
    requires geometry { IsGeometry geometry.now (2 ^ 48) }
    requires section { length section.now ≡ 512 * section_sectors geometry.now.shape }
    requires n { n < section_entries geometry.now.shape }
    requires block { length block.old ≡ 512 * geometry.now.shape.spb }

    ensures entry { option_map (entry_with block.new) result ≡ entry_at geometry.now.shape section.now n }
    ensures tag { IfSome result (λ view. length view.tag ≡ geometry.now.shape.tag_size) }
{
    let shape = geometry.shape();
    let meta = meta_of(section);
    let parts = parts_of(shape, section, n);
    let view = entry(shape, meta, n)?;
    block_bytes(shape, meta, parts, n, block);
    Some(view)
}

/// The bytes of a section of a journal.
fn section_in<'a>(geometry: &Geometry, bytes: &'a [u8], section: u64) -> &'a [u8]
    requires geometry { IsGeometry geometry.now (2 ^ 48) }
    requires bytes { length bytes.now ≡ 512 * journal_sectors geometry.now }
    requires section { section < geometry.now.sections }

    ensures bytes { result.now ≡ section_bytes geometry.now (journal_image bytes.now) section }
    ensures size { length result.now ≡ 512 * section_sectors geometry.now.shape }
{
    let sectors = geometry.shape().sectors as usize;
    let size = SECTOR_SIZE * sectors;
    let from = size * section as usize;
    &bytes[from..from + size]
}

/// The metadata sectors of a section, by its bytes.
fn meta_of(section: &[u8]) -> &[u8]
    requires { 4096 ≤ length section.now }

    ensures meta { result.now ≡ take 4096 section.now }
    ensures size { length result.now ≡ 4096 }
{
    &section[..META_SECTORS * SECTOR_SIZE]
}

/// The data sectors of an entry, by the bytes of its section.
fn parts_of(shape: Shape, section: &[u8], n: u64) -> &[u8]
    requires shape { IsShape shape }
    requires section { length section.now ≡ 512 * shape.sectors }
    requires n { n < shape.entries }

    ensures parts { result.now ≡ parts_of (as_shape shape) section.now n }
    ensures size { length result.now ≡ 512 * shape.spb }
{
    let size = SECTOR_SIZE * shape.spb as usize;
    let from = META_SECTORS * SECTOR_SIZE + size * n as usize;
    &section[from..from + size]
}
