//! The shape of a journal section: how long an entry is, how many a section has, and its sectors.
ghost use Rattle.std.specs.Prelude.{◌≡◌, ◌^◌, ◌≤◌};
ghost use Rattle.std.specs.Int.{IsInRange};
ghost use Rattle.commit_id.specs.Shape.{as_shape, IsShape};

use image_model::{ID_FROM, META_SECTORS};

/// What an entry begins on a multiple of, in bytes.
///
/// Source: Linux, `drivers/md/dm-integrity.c`, `JOURNAL_ENTRY_ROUNDUP`.
const ENTRY_STEP: u64 = 8;

/// What a section of the journal looks like, for one size of blocks and of tags.
#[derive(Clone, Copy, Debug, PartialEq, Eq)]
pub struct Shape {
    /// The sectors of a block: 1, 2, 4 or 8.
    pub spb: u64,
    /// The size of a tag in bytes, 1 to 32.
    pub tag: u64,
    /// The size of an entry in bytes.
    pub entry: u64,
    /// The entries of a metadata sector.
    pub per_sector: u64,
    /// The entries of a section.
    pub entries: u64,
    /// The sectors of a section, metadata and data.
    pub sectors: u64,
}

impl Shape {
    /// The shape for blocks of `2^log2_spb` sectors and tags of `tag_size` bytes.
    ///
    /// Source: Linux, `drivers/md/dm-integrity.c`, `calculate_journal_section_size`.
    pub fn of(log2_spb: u8, tag_size: u8) -> Shape
        requires log2_spb { log2_spb ≤ 3 }
        requires tag_size { IsInRange 1 32 tag_size }

        ensures shape { as_shape result ≡ record { spb = 2 ^ log2_spb; tag_size = tag_size } }
        ensures is_shape { IsShape result }
    {
        let spb = 1 << log2_spb;
        let tag = tag_size as u64;
        let entry = (8 + 8 * spb + tag).next_multiple_of(ENTRY_STEP);
        let per_sector = ID_FROM as u64 / entry;
        let entries = META_SECTORS as u64 * per_sector;
        Shape {
            spb,
            tag,
            entry,
            per_sector,
            entries,
            sectors: META_SECTORS as u64 + entries * spb,
        }
    }
}
