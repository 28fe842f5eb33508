//! The bits of regions that are set before data is written: in memory, and on the disk, where they stand in the
//! journal's place.
//!
//! A contract sees the bits as the geometry and a test of regions (`specs/Bits.antt` first).
#![tactic(auto)]

mod bits;
mod faults;
mod region_set;
mod words;
mod writing;

pub use bits::Bits;
pub use faults::BitsFault;
pub use region_set::RegionSet;
pub use words::clear_from;
