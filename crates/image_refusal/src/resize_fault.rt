//! Why an image is not resized.
ghost use Rattle.std.specs.Prelude.{◌≡◌};
ghost use Rattle.image_refusal.specs.Calls.{with_cause};
ghost use Rattle.image_refusal.specs.declared.call_fault.CallFault.TheVariants.{Refused};
ghost use Rattle.image_refusal.specs.declared.resize_fault.ResizeFault.TheVariants.{Growth, Head, Journal};

use crate::{CallFault, HeadFault, JournalFault};
use image_model::GeomFault;
use thiserror::Error;

/// Why an image is not resized. The first that holds is told.
#[derive(Clone, Copy, Debug, Error)]
pub enum ResizeFault {
    /// Its first sector is refused.
    #[error("the first sector is refused")]
    Head(HeadFault),
    /// The journal has no room for the bitmap of all that the disk can provide.
    #[error("the geometry that it is to have is refused")]
    Growth(GeomFault),
    /// Its journal is refused, by its scan or for an entry.
    #[error("the journal is refused")]
    Journal(JournalFault),
}

impl From<GeomFault> for CallFault<ResizeFault> {
    ghost from_gives = { λ cause fault. fault ≡ Refused (Growth cause) };

    fn from(cause: GeomFault) -> CallFault<ResizeFault> {
        CallFault::Refused(ResizeFault::Growth(cause))
    }
}

impl From<CallFault<HeadFault>> for CallFault<ResizeFault> {
    ghost from_gives = { λ refused fault. fault ≡ with_cause Head refused };

    fn from(fault: CallFault<HeadFault>) -> CallFault<ResizeFault> {
        match fault {
            CallFault::Memory => CallFault::Memory,
            CallFault::Disk => CallFault::Disk,
            CallFault::Refused(cause) => CallFault::Refused(ResizeFault::Head(cause)),
        }
    }
}

impl From<CallFault<JournalFault>> for CallFault<ResizeFault> {
    ghost from_gives = { λ refused fault. fault ≡ with_cause Journal refused };

    fn from(fault: CallFault<JournalFault>) -> CallFault<ResizeFault> {
        match fault {
            CallFault::Memory => CallFault::Memory,
            CallFault::Disk => CallFault::Disk,
            CallFault::Refused(cause) => CallFault::Refused(ResizeFault::Journal(cause)),
        }
    }
}
