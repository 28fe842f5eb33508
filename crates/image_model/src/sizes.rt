//! The sizes and the bounds of the format.

use disk_model::SECTOR_SIZE;

/// The size of a commit id in bytes.
///
/// Source: Linux, `drivers/md/dm-integrity.c`, `commit_id_t`.
pub const ID_SIZE: usize = 8;

/// The byte of a journal sector where its commit id begins. What stands before it are entries, or data.
///
/// Source: Linux, `drivers/md/dm-integrity.c`, `JOURNAL_SECTOR_DATA`.
pub const ID_FROM: usize = SECTOR_SIZE - ID_SIZE;

/// How many metadata sectors a section of the journal has.
///
/// Source: Linux, `drivers/md/dm-integrity.c`, `JOURNAL_BLOCK_SECTORS`.
pub const META_SECTORS: usize = 8;

/// How many sectors the superblock takes. The journal, or the bitmap in its place, begins behind them.
///
/// Source: Linux, `drivers/md/dm-integrity.c`, `SB_SECTORS`.
pub const SUPERBLOCK_SECTORS: u64 = 8;

/// The bytes of the largest block, of 8 sectors.
///
/// Source: Linux, `drivers/md/dm-integrity.c`, `MAX_SECTORS_PER_BLOCK`.
pub const LARGEST_BLOCK: usize = 8 * SECTOR_SIZE;

/// How many commit numbers there are.
///
/// Source: Linux, `drivers/md/dm-integrity.c`, `N_COMMIT_IDS`.
pub const COMMIT_NUMBERS: u8 = 4;

/// The byte of a journal entry where the higher half of its sector's number begins.
///
/// Source: Linux, `drivers/md/dm-integrity.c`, `struct journal_entry`.
pub const HIGH_HALF: usize = 4;

/// The higher half of the sector's number in an unused journal entry.
///
/// Source: Linux, `drivers/md/dm-integrity.c`, `journal_entry_set_unused`.
pub const UNUSED: u32 = 0xffff_ffff;

/// How many regions have their bits in a sector of the bitmap.
pub const SECTOR_BITS: u64 = 4096;

/// How many regions have their bits in a group of eight sectors, by which a bitmap goes up.
///
/// Source: Linux, `drivers/md/dm-integrity.c`, `BITMAP_BLOCK_SIZE`.
pub const GROUP_BITS: u64 = 8 * SECTOR_BITS;

/// The newest version of a superblock that is read. The first is 1.
///
/// Source: Linux, `drivers/md/dm-integrity.c`, `SB_VERSION_5`.
pub const NEWEST_VERSION: u8 = 5;

/// An area has at least 2 to this many data sectors.
///
/// Source: Linux, `drivers/md/dm-integrity.c`, `MIN_LOG2_INTERLEAVE_SECTORS`.
pub const LEAST_LOG2_INTERLEAVE: u8 = 3;

/// An area has at most 2 to this many data sectors.
///
/// Source: Linux, `drivers/md/dm-integrity.c`, `MAX_LOG2_INTERLEAVE_SECTORS`.
pub const MOST_LOG2_INTERLEAVE: u8 = 31;

/// A block has at most 2 to this many sectors.
///
/// Source: Linux, `drivers/md/dm-integrity.c`, `MAX_SECTORS_PER_BLOCK`.
pub const MOST_LOG2_SPB: u8 = 3;

/// How many bytes a tag has at most.
///
/// Own: those of a SHA-256.
pub const LONGEST_TAG: u16 = 32;

/// How many sectors a disk may have at most.
///
/// Own: 2^48.
pub const MOST_SECTORS: u64 = 1 << 48;

/// How many sectors the journal may have at most.
///
/// Own: 2^20.
pub const MOST_JOURNAL_SECTORS: u64 = 1 << 20;
