//! What is chosen of a new image.

/// What the tags of an area take a multiple of.
#[derive(Clone, Copy, Debug, PartialEq, Eq)]
pub enum Padding {
    /// 4096 bytes, by a flag of the superblock.
    ///
    /// Source: Linux, `drivers/md/dm-integrity.c`, `SB_FLAG_FIXED_PADDING`.
    Fixed,
    /// What an image without that flag has.
    Legacy,
}

/// The mode that a new image is made for.
#[derive(Clone, Copy, Debug, PartialEq, Eq)]
pub enum ImageMode {
    /// Journal mode, and direct mode: the image has a journal, of empty sections.
    Journal,
    /// Bitmap mode, by a flag of the superblock: a bitmap stands where the journal would begin, with no bit
    /// set, but where tags are to be recalculated.
    ///
    /// Source: Linux, `drivers/md/dm-integrity.c`, `SB_FLAG_DIRTY_BITMAP`.
    Bitmap,
}

/// What comes to the blocks of a new image.
#[derive(Clone, Copy, Debug, PartialEq, Eq)]
pub enum Wipe {
    /// Zeros, with their tags.
    Wiped,
    /// Nothing: data and tags stay as they stand.
    Kept,
    /// Nothing: data stay as they stand, and their tags are to be recalculated, by a flag of the superblock. Where
    /// there is a bitmap, the bits of all regions are set.
    ///
    /// Source: Linux, `drivers/md/dm-integrity.c`, `SB_FLAG_RECALCULATING`. Own: the bits.
    Recalculated,
}
