//! Why a journal is refused.
ghost use Rattle.std.specs.Prelude.{◌≡◌};
ghost use Rattle.image_refusal.specs.declared.call_fault.CallFault.TheVariants.{Refused};

use crate::CallFault;
use hmac_tag::Tag;
use image_model::ScanFault;
use thiserror::Error;

/// Why a journal is refused. The first that holds is told: of the scan, and then of the entries in the order of the
/// replay.
#[derive(Clone, Copy, Debug, Error)]
pub enum JournalFault {
    /// The commit numbers on the journal make no plan.
    #[error("{0}")]
    Scan(ScanFault),
    /// `entry` of `section` is of `sector`, which is the first of no block of the device.
    #[error("entry {entry} of section {section} is of sector {sector}, where no block begins")]
    JournalBlock {
        section: u64,
        entry: u64,
        sector: u64,
    },
    /// The tag that `entry` of `section` has, `stored`, is not that of its block, `computed`.
    #[error("entry {entry} of section {section} has another tag than its block")]
    JournalTag {
        section: u64,
        entry: u64,
        stored: Tag,
        computed: Tag,
    },
}

impl From<JournalFault> for CallFault<JournalFault> {
    ghost from_gives = { λ cause fault. fault ≡ Refused cause };

    fn from(cause: JournalFault) -> CallFault<JournalFault> {
        CallFault::Refused(cause)
    }
}
