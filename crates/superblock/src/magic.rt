//! The bytes by which a superblock is known.

/// The bytes by which a superblock is known.
///
/// Source: Linux, `drivers/md/dm-integrity.c`, `SB_MAGIC`.
pub(crate) const MAGIC: [u8; 8] = *b"integrt\0";
