//! Why a superblock and a disk give no geometry.

use thiserror::Error;

/// Why a superblock and a disk give no geometry. The first that holds is told.
#[derive(Clone, Copy, Debug, PartialEq, Eq, Error)]
pub enum GeomFault {
    /// The disk has more than 2^48 sectors: it has `have`.
    #[error("a disk of {have} sectors is too large")]
    DeviceTooLarge { have: u64 },
    /// The journal has more than 2^20 sectors: it has `sectors`.
    #[error("a journal of {sectors} sectors is too large")]
    JournalTooLarge { sectors: u64 },
    /// The disk has `have` sectors, and what lies on it wants `need`.
    #[error("a disk of {have} sectors is too small, {need} are needed")]
    TooSmall { have: u64, need: u64 },
    /// The bitmap needs `need` sectors, and the journal, in whose place it stands, has `have`.
    #[error("a bitmap of {need} sectors is too large for a journal of {have}")]
    BitmapTooLarge { need: u64, have: u64 },
}
