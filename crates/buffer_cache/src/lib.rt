//! A bounded cache of the sectors of a disk, in the order of their last use.
//!
//! What is changed is marked, and written when its sector goes out for another one, or by a `write_back`. A contract
//! sees what a cache holds of each sector (`specs/HeldSectors.antt` first), and with the content of the disk one
//! content of each sector, whether it is held or not (`specs/Cached.antt`).
#![tactic(auto)]

mod bringing;
mod cache;
mod copying;
mod held;
mod scratch;
mod write_out;
mod written_back;

pub use cache::Cache;
pub use held::{Held, HeldSectors, Scratch};
