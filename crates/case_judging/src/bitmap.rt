//! The bitmap of an image: the regions of its blocks, and which of them have their bit set.
use crate::Wrong;
use crate::form::{FLAGS_AT, Form, HAS_BITMAP, SECTOR, form_with, number_in, put_at, run_at};
use crate::journal::clear;
use std::alloc::{AllocError, Global};

/// The byte where a bitmap begins. The superblock stands before it.
///
/// Source: Linux, drivers/md/dm-integrity.c, `SB_SECTORS`.
const BITMAP_AT: usize = 4096;

/// How many bytes a bitmap has a multiple of, and how many regions have their bits in so many.
///
/// Source: Linux, drivers/md/dm-integrity.c, `BITMAP_BLOCK_SIZE`.
const PART: u64 = 4096;

const PART_BITS: u64 = 32_768;

/// Where the bits of an image stand, and of which blocks.
#[derive(Clone, Copy)]
pub struct Bitmap {
    pub form: Form,
    /// The flags of the superblock.
    pub flags: u64,
    /// A region has 2^this blocks.
    log2_region: u64,
    regions: u64,
}

/// The bitmap of an image of these bytes, if it has one, for which its journal's place has room.
pub fn bitmap_of(bytes: &[u8]) -> Option<Bitmap> {
    let flags = number_in(bytes, FLAGS_AT, 4);
    let form = form_with(bytes, flags & !HAS_BITMAP);
    if flags & HAS_BITMAP == 0 || form.blocks == 0 {
        return None;
    }
    let mut bitmap = Bitmap {
        form,
        flags,
        log2_region: number_in(bytes, 29, 1),
        regions: 0,
    };
    let last = bitmap.region_of(form.blocks.saturating_sub(1));
    bitmap.regions = last.saturating_add(1);
    if bitmap.end() > form.journal_end() {
        return None;
    }
    Some(bitmap)
}

impl Bitmap {
    /// The same where tags are computed under a key of these bytes.
    pub fn under(self, key: &[u8]) -> Bitmap {
        Bitmap {
            form: self.form.under(key),
            ..self
        }
    }

    /// The region of a block.
    pub fn region_of(&self, block: u64) -> u64 {
        if self.log2_region >= 64 {
            return 0;
        }
        block >> self.log2_region
    }

    /// The byte where the bitmap ends.
    pub(crate) fn end(&self) -> usize {
        let parts = self.regions.saturating_add(PART_BITS - 1) / PART_BITS;
        parts.saturating_mul(PART).saturating_add(BITMAP_AT as u64) as usize
    }

    /// Whether the bit of a region is set.
    ///
    /// Source: Linux, drivers/md/dm-integrity.c, `block_bitmap_op`.
    fn is_set(&self, image: &[u8], region: u64) -> bool {
        let at = BITMAP_AT.saturating_add((region / 8) as usize);
        (number_in(image, at, 1) >> (region % 8)) % 2 == 1
    }

    /// Of each region whether its bit is set.
    pub fn bits_of(&self, alloc: Global, image: &[u8]) -> Result<Vec<bool>, AllocError> {
        let mut bits = Vec::new(alloc);
        for region in 0..self.regions {
            bits.push(self.is_set(image, region))?;
        }
        Ok(bits)
    }

    /// Whether the bit of a block's region is set.
    pub fn is_dirty(&self, image: &[u8], block: u64) -> bool {
        self.is_set(image, self.region_of(block))
    }

    /// Whether the bit of some region is set.
    pub fn has_set(&self, image: &[u8]) -> bool {
        (0..self.regions).any(|region| self.is_set(image, region))
    }

    /// Puts the bitmap of another image.
    pub fn put_bits(&self, image: &mut [u8], other: &[u8]) {
        let count = self.end().saturating_sub(BITMAP_AT);
        put_at(image, BITMAP_AT, run_at(other, BITMAP_AT, count));
    }

    /// The image with a journal that reads as this one does: each block whose region's bit is set has the tag of its
    /// data, and zeros stand in place of the bitmap.
    pub fn with_bits_applied(&self, alloc: Global, image: &[u8]) -> Result<Vec<u8>, AllocError> {
        let mut bytes = Vec::from_slice(alloc, image)?;
        let flags = self.flags & !HAS_BITMAP;
        put_at(&mut bytes, FLAGS_AT, run_at(&flags.to_le_bytes(), 0, 4));
        clear(&mut bytes, BITMAP_AT, self.end());
        for block in 0..self.form.blocks {
            if self.is_dirty(image, block) {
                let digest = self.form.digest_of(block, self.form.data_of(image, block));
                self.form
                    .put_tag(&mut bytes, block, self.form.tag_in(&digest));
            }
        }
        Ok(bytes)
    }

    /// Looks at the bits of no region that are left: in a sector of the bitmap that is not as it was they are clear.
    pub fn judge_unused(&self, base: &[u8], left: &[u8]) -> Result<(), Wrong> {
        let bits = run_at(left, BITMAP_AT, self.end().saturating_sub(BITMAP_AT));
        for (k, sector) in bits.chunks(SECTOR).enumerate() {
            let from = k.saturating_mul(SECTOR);
            let is_written = run_at(base, from.saturating_add(BITMAP_AT), SECTOR) != sector;
            if is_written && !self.has_no_unused(from, sector) {
                return Err(Wrong::Run("a bit of no region is set in a sector that was written"));
            }
        }
        Ok(())
    }

    /// Whether these bytes, from one of the bitmap on, have no bit set of no region.
    fn has_no_unused(&self, from: usize, bytes: &[u8]) -> bool {
        for (k, byte) in bytes.iter().enumerate() {
            let first = (from.saturating_add(k) as u64).saturating_mul(8);
            let used = self.regions.saturating_sub(first);
            if used < 8 && *byte >> used != 0 {
                return false;
            }
        }
        true
    }
}
