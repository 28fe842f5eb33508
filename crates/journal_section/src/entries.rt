//! The entries of a section, put and read.
ghost use Rattle.std.specs.Prelude.{◌≡◌, ℕ, ◌+◌, ◌*◌, ◌^◌, ◌<◌, ◌≤◌, List, length, take, None, slice_index_or};
ghost use Rattle.std.specs.Option.{option_map};
ghost use Rattle.commit_id.specs.Shape.{as_shape, IsShape};
ghost use Rattle.image_model.specs.Section.{Entry};
ghost use Rattle.image_model.specs.Entries.{entries_of};
ghost use Rattle.journal_section.specs.Pieces.{HasPieces, PutsEntry, with_pieces};
ghost use Rattle.journal_section.specs.View.{view_of};
ghost use Rattle.journal_section.specs.Fields.{HasFields};

use crate::blocks::put_fronts;
use crate::places::{WORD, entry_from, put, put_number};
use byteorder::{ByteOrder, LittleEndian};
use commit_id::Shape;
use hmac_tag::Tag;
use image_model::{HIGH_HALF, ID_FROM, SECTOR_SIZE, UNUSED};

/// What an entry tells beside the bytes of its block.
#[derive(Clone, Copy, Debug)]
pub struct EntryView {
    /// The first sector of its block.
    pub sector: u64,
    /// The tag of its block.
    pub tag: Tag,
}

/// Entry `n`, by the metadata sectors of its section. None where it is unused.
///
/// Source: Linux, `drivers/md/dm-integrity.c`, `journal_entry_is_unused`.
pub fn entry(shape: Shape, meta: &[u8], n: u64) -> Option<EntryView>
    requires shape { IsShape shape }
    requires meta { length meta.now ≡ 4096 }
    requires n { n < shape.entries }

    ensures { (bytes : List ℕ) → take 4096 bytes ≡ meta.now
        → result ≡ option_map view_of (slice_index_or (entries_of (as_shape shape) bytes) n None) }
{
    let from = entry_from(shape, n);
    if LittleEndian::read_u32(&meta[from + HIGH_HALF..]) == UNUSED {
        return None;
    }
    let tag = from + tag_from(shape);
    Some(EntryView {
        sector: LittleEndian::read_u64(&meta[from..]),
        tag: Tag::from_bytes(&meta[tag..tag + shape.tag as usize]),
    })
}

/// Puts an entry into its place in the metadata sectors and in its data sectors, whatever stood there. The
/// commit ids and all other entries stay.
///
/// Source: Linux, `drivers/md/dm-integrity.c`, `__journal_read_write`.
pub fn put_entry(
    shape: Shape,
    meta: &mut [u8],
    parts: &mut [u8],
    n: u64,
    sector: u64,
    block: &[u8],
    tag: &Tag,
)
    requires shape { IsShape shape }
    requires meta { length meta.old ≡ 4096 }
    requires parts { length parts.old ≡ 512 * shape.spb }
    requires n { n < shape.entries }
    requires sector { sector < 2 ^ 48 }
    requires block { length block.now ≡ 512 * shape.spb }
    requires tag { length tag.now ≡ shape.tag }

    ensures put { let entry : Entry = record { sector = sector; bytes = block.now; tag = tag.now } in
        (bytes : List ℕ) → HasPieces (as_shape shape) n meta.old parts.old bytes
        → PutsEntry (as_shape shape) n entry bytes
        (with_pieces (as_shape shape) n meta.new parts.new bytes) }
{
    let from = entry_from(shape, n);
    put_fields(
        shape,
        &mut meta[from..from + shape.entry as usize],
        sector,
        block,
        tag,
    );
    put_fronts(shape, parts, block);
}

/// Puts the fields of an entry into its place in a metadata sector, and zeros behind them.
fn put_fields(shape: Shape, place: &mut [u8], sector: u64, block: &[u8], tag: &Tag)
    requires place { length place.old ≡ shape.entry }
    requires fields { 8 + 8 * shape.spb + shape.tag ≤ shape.entry }
    requires spb { shape.spb ≤ 8 }
    requires block { length block.now ≡ 512 * shape.spb }
    requires tag { length tag.now ≡ shape.tag }

    ensures { HasFields shape.spb sector block.now tag.now place.new }
{
    place.fill(0);
    put_number(place, 0, sector);
    for k in 0..shape.spb as usize {
        let last = SECTOR_SIZE * k + ID_FROM;
        put(place, WORD * (k + 1), &block[last..last + WORD]);
    }
    put(place, tag_from(shape), tag.bytes());
}

/// The byte of an entry where its tag begins.
///
/// Source: Linux, `drivers/md/dm-integrity.c`, `journal_entry_tag`.
fn tag_from(shape: Shape) -> usize
    requires { shape.spb ≤ 8 }
    ensures { result ≡ 8 + 8 * shape.spb }
{
    WORD * (shape.spb as usize + 1)
}
