//! The size of a sector.

/// The size of a sector in bytes.
///
/// Source: Linux, `include/linux/blk_types.h`, `SECTOR_SIZE`.
pub const SECTOR_SIZE: usize = 512;
