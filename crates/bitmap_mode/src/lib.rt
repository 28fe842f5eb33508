//! The work of a device in bitmap mode: a block is written once its region's bit stands on the disk, and read once its
//! region is recalculated where that awaits; all is flushed, bits are cleared, and regions recalculated.
//!
//! A contract sees a `RegionStates` as the regions whose bit is set, those that await, and those that are fresh
//! (`specs/States.antt`, the file to read first). `specs/Standing.antt` ties them to the disk of `bitmap_model`, and
//! each call says what disk that is then.
#![tactic(auto)]

mod cells;
mod marking;
mod resting;
mod spans;
mod states;

pub use spans::RegionSpan;
pub use states::RegionStates;
