//! Why the bits of an image are not loaded.
ghost use Rattle.std.specs.Prelude.{◌≡◌};
ghost use Rattle.dirty_bitmap.specs.declared.faults.BitsFault.TheVariants.{Disk, Memory};

use sector_disk::Failed;
use thiserror::Error;

/// Why the bits of an image are not loaded.
#[derive(Clone, Copy, Debug, PartialEq, Eq, Error)]
pub enum BitsFault {
    /// There is no memory for them.
    #[error("out of memory")]
    Memory,
    /// The disk failed.
    #[error("the disk has failed")]
    Disk,
}

impl From<sector_disk::Memory> for BitsFault {
    ghost from_gives = { λ _ fault. fault ≡ Memory };

    fn from(_memory: sector_disk::Memory) -> BitsFault {
        BitsFault::Memory
    }
}

impl From<Failed> for BitsFault {
    ghost from_gives = { λ _ fault. fault ≡ Disk };

    fn from(_failed: Failed) -> BitsFault {
        BitsFault::Disk
    }
}
