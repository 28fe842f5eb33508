//! Where things lie on an image, by its superblock and by none of the program's code.
use crate::key::Key;
use sha2::{Digest, Sha256};
use std::alloc::{AllocError, Global};

/// How many bytes a sector has.
pub const SECTOR: usize = 512;

/// The first sector of a journal.
const JOURNAL_AT: u64 = 8;

/// The byte where the flags of a superblock begin.
pub(crate) const FLAGS_AT: usize = 24;

/// How many sectors of a section hold its entries. Its data stand behind them.
pub const ENTRY_SECTORS: u64 = 8;

/// The most sectors of an image that is looked at.
const MOST_SECTORS: u64 = 0x1000_0000;

/// What an image's superblock says of its places. One of bytes that are no image has
/// no section and no block.
#[derive(Clone, Copy)]
pub struct Form {
    /// The sections of the journal, the sectors of each, and how many entries it has.
    pub sections: u64,
    pub width: u64,
    pub entries: u64,
    /// How many bytes an entry has.
    pub entry_size: u64,
    /// How many blocks there are, how many sectors each has, and how many bytes its tag has.
    pub blocks: u64,
    pub spb: u64,
    pub tag_size: u64,
    /// How many blocks an area has, and how many sectors its tags.
    area_blocks: u64,
    tag_run: u64,
    /// What stands before the number of a block when its tag is computed, if anything does.
    salt: Option<[u8; 16]>,
    /// The key under which it is computed, if there is one.
    key: Option<Key>,
}

/// The bytes from one on, where there are so many.
pub fn run_at(bytes: &[u8], from: usize, count: usize) -> &[u8] {
    match bytes.get(from..from.saturating_add(count)) {
        Some(run) => run,
        None => &[],
    }
}

/// Puts bytes in the place of others, where there are so many.
pub fn put_at(bytes: &mut [u8], from: usize, run: &[u8]) {
    let end = from.saturating_add(run.len());
    if let Some(place) = bytes.get_mut(from..end)
        && place.len() == run.len()
    {
        place.copy_from_slice(run);
    }
}

/// The number in so many bytes from one on, the lowest first.
pub fn number_in(bytes: &[u8], from: usize, count: usize) -> u64 {
    let mut number = 0u64;
    for byte in run_at(bytes, from, count).iter().rev() {
        number = number.wrapping_mul(256) | *byte as u64;
    }
    number
}

/// A number that is rounded up to a multiple of another one.
fn rounded_up(number: u64, to: u64) -> u64 {
    let rest = number.checked_rem(to).unwrap_or(0);
    if rest == 0 {
        return number;
    }
    number.saturating_add(to.saturating_sub(rest))
}

/// The flag of an image that has a bitmap in its journal's place.
///
/// Source: Linux, drivers/md/dm-integrity.c, `SB_FLAG_DIRTY_BITMAP`.
pub(crate) const HAS_BITMAP: u64 = 4;

/// What the superblock of these bytes says. An image with a bitmap counts as none here.
pub fn form_of(bytes: &[u8]) -> Form {
    form_with(bytes, number_in(bytes, FLAGS_AT, 4))
}

/// What the superblock of these bytes says, if it has these flags.
///
/// Source: Linux, drivers/md/dm-integrity.c, `struct superblock`, `calculate_journal_section_size` and
/// `calculate_device_limits`.
pub(crate) fn form_with(bytes: &[u8], flags: u64) -> Form {
    let spb = 1u64 << (number_in(bytes, 28, 1) % 4);
    let tag_size = number_in(bytes, 10, 2);
    let area = 1u64 << (number_in(bytes, 9, 1) % 32);
    let pad = if flags & 8 == 8 { 4096 } else { 131_072 };
    let area_blocks = area.checked_div(spb).unwrap_or(1);
    let entry_size = rounded_up(
        spb.saturating_mul(8)
            .saturating_add(8)
            .saturating_add(tag_size),
        8,
    );
    let entries = 504u64
        .checked_div(entry_size)
        .unwrap_or(0)
        .saturating_mul(8);
    let form = Form {
        sections: number_in(bytes, 12, 4),
        width: entries.saturating_mul(spb).saturating_add(ENTRY_SECTORS),
        entries,
        entry_size,
        blocks: number_in(bytes, 16, 8).checked_div(spb).unwrap_or(0),
        spb,
        tag_size,
        area_blocks,
        tag_run: rounded_up(area_blocks.saturating_mul(tag_size), pad) / 512,
        salt: if flags & 16 == 16 {
            run_at(bytes, 48, 16).first_chunk::<16>().copied()
        } else {
            None
        },
        key: None,
    };
    if is_image(bytes, flags) && form.is_within(bytes.len()) {
        return form;
    }
    Form {
        sections: 0,
        blocks: 0,
        ..form
    }
}

/// Whether bytes begin as the superblock of an image does that has these flags and a journal. Its tags may be to be
/// made anew.
fn is_image(bytes: &[u8], flags: u64) -> bool {
    let version = number_in(bytes, 8, 1);
    let interleave = number_in(bytes, 9, 1);
    let tag_size = number_in(bytes, 10, 2);
    bytes.starts_with(b"integrt\0")
        && version >= 1
        && version <= 5
        && interleave >= 3
        && interleave <= 31
        && tag_size >= 1
        && tag_size <= 32
        && number_in(bytes, 12, 4) >= 1
        && number_in(bytes, 28, 1) <= 3
        && flags & !0x1a == 0
}

impl Form {
    /// The same where tags are computed under a key of these bytes.
    pub fn under(self, key: &[u8]) -> Form {
        Form {
            key: Some(Key::of(key)),
            ..self
        }
    }

    /// How many bytes a block has.
    pub fn size(&self) -> usize {
        self.spb.saturating_mul(512) as usize
    }

    /// The byte where a sector of a section begins.
    pub fn section_at(&self, section: u64, sector: u64) -> usize {
        section
            .saturating_mul(self.width)
            .saturating_add(sector)
            .saturating_add(JOURNAL_AT)
            .saturating_mul(512) as usize
    }

    /// The byte where the journal ends.
    pub fn journal_end(&self) -> usize {
        self.section_at(self.sections, 0)
    }

    /// The first sector of a block's area, and its number in it. An area has its tags first, and then its blocks.
    ///
    /// Source: Linux, Documentation/admin-guide/device-mapper/dm-integrity.rst, the layout of the device.
    fn place_of(&self, block: u64) -> (u64, u64) {
        let area = block.checked_div(self.area_blocks).unwrap_or(0);
        let sectors = self
            .area_blocks
            .saturating_mul(self.spb)
            .saturating_add(self.tag_run);
        let first = self.journal_end() as u64 / 512;
        (
            area.saturating_mul(sectors).saturating_add(first),
            block.checked_rem(self.area_blocks).unwrap_or(0),
        )
    }

    /// The byte where the data of a block begin.
    pub fn data_at(&self, block: u64) -> usize {
        let (area, number) = self.place_of(block);
        number
            .saturating_mul(self.spb)
            .saturating_add(self.tag_run)
            .saturating_add(area)
            .saturating_mul(512) as usize
    }

    /// The byte where the tag of a block begins. It may go on in the next sector.
    fn tag_at(&self, block: u64) -> usize {
        let (area, number) = self.place_of(block);
        area.saturating_mul(512)
            .saturating_add(number.saturating_mul(self.tag_size)) as usize
    }

    /// Whether there is a block, and the last one lies within so many bytes.
    fn is_within(&self, bytes: usize) -> bool {
        let end = self
            .data_at(self.blocks.saturating_sub(1))
            .saturating_add(self.size());
        self.blocks >= 1 && self.blocks <= MOST_SECTORS && end <= bytes
    }

    /// The data of a block.
    pub fn data_of<'b>(&self, bytes: &'b [u8], block: u64) -> &'b [u8] {
        run_at(bytes, self.data_at(block), self.size())
    }

    /// The data of all blocks, one behind the other.
    pub fn data_of_all(&self, alloc: Global, bytes: &[u8]) -> Result<Vec<u8>, AllocError> {
        let mut data = Vec::new(alloc);
        for block in 0..self.blocks {
            data.extend_from_slice(self.data_of(bytes, block))?;
        }
        Ok(data)
    }

    /// The tag that stands for a block.
    pub fn tag_of<'b>(&self, bytes: &'b [u8], block: u64) -> &'b [u8] {
        run_at(bytes, self.tag_at(block), self.tag_size as usize)
    }

    /// Puts the tag of a block.
    pub fn put_tag(&self, bytes: &mut [u8], block: u64, tag: &[u8]) {
        put_at(bytes, self.tag_at(block), tag);
    }

    /// Puts the data and the tag of a block.
    pub fn put_block(&self, bytes: &mut [u8], block: u64, data: &[u8], tag: &[u8]) {
        put_at(bytes, self.data_at(block), data);
        self.put_tag(bytes, block, tag);
    }

    /// The digest of the salt, the number of a block's first sector, as 8 bytes with the lowest first, and its bytes,
    /// under the key, if there is one.
    ///
    /// Source: FIPS 180-4, section 6.2; Linux, drivers/md/dm-integrity.c, `integrity_sector_checksum`.
    pub fn digest_of(&self, block: u64, data: &[u8]) -> [u8; 32] {
        let mut hasher = match &self.key {
            Some(key) => key.begun(),
            None => Sha256::new(),
        };
        if let Some(salt) = self.salt {
            hasher.update(salt);
        }
        hasher.update(block.saturating_mul(self.spb).to_le_bytes());
        hasher.update(data);
        let digest = hasher.finalize();
        match &self.key {
            Some(key) => key.ended(&digest),
            None => digest,
        }
    }

    /// The tag that a digest gives: its first bytes.
    pub fn tag_in<'d>(&self, digest: &'d [u8; 32]) -> &'d [u8] {
        run_at(digest, 0, self.tag_size as usize)
    }
}
