//! Why a call over an image fails.
ghost use Rattle.std.specs.Prelude.{◌≡◌};
ghost use Rattle.image_refusal.specs.declared.call_fault.CallFault.TheVariants.{Disk, Memory, Refused};

use image_model::GeomFault;
use sector_disk::Failed;
use thiserror::Error;

/// Why a call over an image fails. `Memory` and `Disk` come whenever they hold; of the causes for which it refuses the
/// image, the first that holds.
#[derive(Clone, Copy, Debug, PartialEq, Eq, Error)]
pub enum CallFault<R> {
    /// There is no memory for what the call needs.
    #[error("out of memory")]
    Memory,
    /// The disk failed.
    #[error("the disk has failed")]
    Disk,
    /// The image is refused, for this cause.
    #[error("the image is refused")]
    Refused(R),
}

impl<R> From<sector_disk::Memory> for CallFault<R> {
    ghost from_gives = { λ _ fault. fault ≡ Memory };

    fn from(_memory: sector_disk::Memory) -> CallFault<R> {
        CallFault::Memory
    }
}

impl<R> From<Failed> for CallFault<R> {
    ghost from_gives = { λ _ fault. fault ≡ Disk };

    fn from(_failed: Failed) -> CallFault<R> {
        CallFault::Disk
    }
}

impl From<GeomFault> for CallFault<GeomFault> {
    ghost from_gives = { λ cause fault. fault ≡ Refused cause };

    fn from(cause: GeomFault) -> CallFault<GeomFault> {
        CallFault::Refused(cause)
    }
}
