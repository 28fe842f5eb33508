//! The fields of a superblock, and why they are refused.

use thiserror::Error;

/// Why the first sector of an image is refused. The first that holds is told.
#[derive(Clone, Copy, Debug, PartialEq, Eq, Error)]
pub enum SuperFault {
    /// The sector does not begin with the magic.
    #[error("no magic")]
    Magic,
    /// The version is not 1 to 5.
    #[error("version {v}")]
    Version { v: u8 },
    /// The sectors of the journal bear a code of the journal's own. All flags are told.
    #[error("a journal with a code of its own, flags {flags:#x}")]
    JournalMac { flags: u32 },
    /// The tags stand in the metadata of the disk's own sectors. All flags are told.
    #[error("inline tags, flags {flags:#x}")]
    Inline { flags: u32 },
    /// Flags that are not known are set. These alone are told.
    #[error("unknown flags {unknown:#x}")]
    Flags { unknown: u32 },
    /// An area does not have 2^3 to 2^31 data sectors. The exponent is told.
    #[error("log2 of the interleave {v}")]
    Interleave { v: u8 },
    /// A block has more than 2^3 sectors. The exponent is told.
    #[error("log2 of the sectors of a block {v}")]
    BlockSize { v: u8 },
    /// A tag does not have 1 to 32 bytes.
    #[error("tag size {v}")]
    TagSize { v: u16 },
    /// The journal has no section.
    #[error("sections {v}")]
    Sections { v: u32 },
    /// The provided sectors are none, no whole blocks, or more than 2^48.
    #[error("provided sectors {v}")]
    Provided { v: u64 },
}

/// The fields of a superblock.
///
/// Source: Linux, `drivers/md/dm-integrity.c`, `struct superblock`.
#[derive(Clone, Copy, Debug, PartialEq, Eq)]
pub struct Super {
    /// 1 to 5.
    pub version: u8,
    /// An area has the data of 2^`log2_interleave` sectors, 2^3 to 2^31.
    pub log2_interleave: u8,
    /// In bytes, 1 to 32.
    pub tag_size: u16,
    /// How many sections the journal has.
    pub sections: u32,
    /// How many sectors the device has.
    pub provided: u64,
    /// See `KNOWN_FLAGS`.
    pub flags: u32,
    /// A block has 2^`log2_spb` sectors, 1 to 8.
    pub log2_spb: u8,
    /// A region has 2^`log2_region` blocks.
    pub log2_region: u8,
    /// The sector of the device from which on tags are still to be written, while `RECALCULATING` is
    /// set.
    pub recalc_sector: u64,
    /// What stands before the message of a tag, under `FIXED_HMAC`.
    pub salt: [u8; 16],
}
