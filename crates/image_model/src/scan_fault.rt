//! Why a journal has no plan.

use crate::SectorPlace;
use thiserror::Error;

/// Why a journal has no plan. The first that holds is told.
#[derive(Clone, Copy, Debug, PartialEq, Eq, Error)]
pub enum ScanFault {
    /// A sector bears no number: `sector` of `section` is the first, and `found` is the id there.
    #[error("no commit number in sector {sector} of section {section}, where {found:#x} stands")]
    NoNumber {
        section: u64,
        sector: u64,
        found: u64,
    },
    /// All four numbers stand: `places` has where each first does.
    #[error("all four commit numbers")]
    FourNumbers {
        places: [SectorPlace; 4],
    },
}
