//! The flags of a superblock, one bit each.

/// The sectors of the journal bear a code of the journal's own.
///
/// Source: Linux, `drivers/md/dm-integrity.c`, `SB_FLAG_HAVE_JOURNAL_MAC`.
pub const HAVE_JOURNAL_MAC: u32 = 0x1;

/// The tags from `recalc_sector` on are still to be written.
///
/// Source: Linux, `drivers/md/dm-integrity.c`, `SB_FLAG_RECALCULATING`.
pub const RECALCULATING: u32 = 0x2;

/// A bitmap of regions stands in the journal's place.
///
/// Source: Linux, `drivers/md/dm-integrity.c`, `SB_FLAG_DIRTY_BITMAP`.
pub const DIRTY_BITMAP: u32 = 0x4;

/// The tags of an area take a multiple of 4096 bytes.
///
/// Source: Linux, `drivers/md/dm-integrity.c`, `SB_FLAG_FIXED_PADDING`.
pub const FIXED_PADDING: u32 = 0x8;

/// The salt stands before what a tag is computed of.
///
/// Source: Linux, `drivers/md/dm-integrity.c`, `SB_FLAG_FIXED_HMAC`.
pub const FIXED_HMAC: u32 = 0x10;

/// The tags stand in the metadata of the disk's own sectors.
///
/// Source: Linux, `drivers/md/dm-integrity.c`, `SB_FLAG_INLINE`.
pub const INLINE: u32 = 0x20;

/// The flags with which an image is opened.
pub const KNOWN_FLAGS: u32 = RECALCULATING | DIRTY_BITMAP | FIXED_PADDING | FIXED_HMAC;
