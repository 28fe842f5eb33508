//! Why an image is not opened, or not checked.
ghost use Rattle.std.specs.Prelude.{◌≡◌};
ghost use Rattle.image_refusal.specs.Calls.{with_cause};
ghost use Rattle.image_refusal.specs.declared.call_fault.CallFault.TheVariants.{Refused};
ghost use Rattle.image_refusal.specs.declared.open_fault.HeadFault.TheVariants.{Geom, Super};
ghost use Rattle.image_refusal.specs.declared.open_fault.OpenFault.TheVariants.{Head, Journal};

use crate::{CallFault, JournalFault};
use image_model::{GeomFault, SuperFault};
use thiserror::Error;

/// Why the first sector of a disk is refused. The first that holds is told.
#[derive(Clone, Copy, Debug, PartialEq, Eq, Error)]
pub enum HeadFault {
    /// It tells no superblock that is accepted.
    #[error("the superblock is refused")]
    Super(SuperFault),
    /// The disk has no room for what the superblock tells.
    #[error("the geometry is refused")]
    Geom(GeomFault),
}

/// Why an image is not opened, or not checked. The first that holds is told.
#[derive(Clone, Copy, Debug, Error)]
pub enum OpenFault {
    /// Its first sector is refused.
    #[error("the first sector is refused")]
    Head(HeadFault),
    /// A bit of the bitmap is set, or without one some block is to be recalculated, there is a key, and consent is
    /// withheld. The superblock has these `flags`.
    #[error("tags may not be made anew without consent")]
    Consent { flags: u32 },
    /// Its journal is refused, by its scan or for an entry.
    #[error("the journal is refused")]
    Journal(JournalFault),
}

impl From<SuperFault> for CallFault<HeadFault> {
    ghost from_gives = { λ cause fault. fault ≡ Refused (Super cause) };

    fn from(cause: SuperFault) -> CallFault<HeadFault> {
        CallFault::Refused(HeadFault::Super(cause))
    }
}

impl From<GeomFault> for CallFault<HeadFault> {
    ghost from_gives = { λ cause fault. fault ≡ Refused (Geom cause) };

    fn from(cause: GeomFault) -> CallFault<HeadFault> {
        CallFault::Refused(HeadFault::Geom(cause))
    }
}

impl From<CallFault<HeadFault>> for CallFault<OpenFault> {
    ghost from_gives = { λ refused fault. fault ≡ with_cause Head refused };

    fn from(fault: CallFault<HeadFault>) -> CallFault<OpenFault> {
        match fault {
            CallFault::Memory => CallFault::Memory,
            CallFault::Disk => CallFault::Disk,
            CallFault::Refused(cause) => CallFault::Refused(OpenFault::Head(cause)),
        }
    }
}

impl From<CallFault<JournalFault>> for CallFault<OpenFault> {
    ghost from_gives = { λ refused fault. fault ≡ with_cause Journal refused };

    fn from(fault: CallFault<JournalFault>) -> CallFault<OpenFault> {
        match fault {
            CallFault::Memory => CallFault::Memory,
            CallFault::Disk => CallFault::Disk,
            CallFault::Refused(cause) => CallFault::Refused(OpenFault::Journal(cause)),
        }
    }
}
