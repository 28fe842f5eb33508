//! Definitions alone: when a call may have failed, what a disk holds, and what it held at each moment.
//!
//! A disk is seen by its candidates: for each sector the list of contents that a cut may leave there, the
//! last of them what a read gives. `specs/Disk.antt` is the file to read first.
#![tactic(auto)]

mod memory;
mod sector_size;

pub use memory::Memory;
pub use sector_size::SECTOR_SIZE;
