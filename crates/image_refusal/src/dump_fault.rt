//! Why an image is not shown.
ghost use Rattle.std.specs.Prelude.{◌≡◌};
ghost use Rattle.image_refusal.specs.Calls.{with_cause};
ghost use Rattle.image_refusal.specs.declared.dump_fault.DumpFault.TheVariants.{Head};

use crate::{CallFault, HeadFault};
use image_model::ScanFault;
use thiserror::Error;

/// Why an image is not shown. The first that holds is told.
#[derive(Clone, Copy, Debug, PartialEq, Eq, Error)]
pub enum DumpFault {
    /// Its first sector is refused.
    #[error("the first sector is refused")]
    Head(HeadFault),
    /// The commit numbers of its journal make no plan.
    #[error("the journal is refused")]
    Scan(ScanFault),
}

impl From<CallFault<HeadFault>> for CallFault<DumpFault> {
    ghost from_gives = { λ refused fault. fault ≡ with_cause Head refused };

    fn from(fault: CallFault<HeadFault>) -> CallFault<DumpFault> {
        match fault {
            CallFault::Memory => CallFault::Memory,
            CallFault::Disk => CallFault::Disk,
            CallFault::Refused(cause) => CallFault::Refused(DumpFault::Head(cause)),
        }
    }
}
