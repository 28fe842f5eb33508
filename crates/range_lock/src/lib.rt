//! Which requests in flight wait for which: overlapping requests go one after the other, in order of asking.
//!
//! A contract sees the `Ranges` as how many slots there are and the list of what was asked and is not released, in
//! order of asking (`specs/Asks.antt`, the file to read first). What overlaps is the word of `device_model`, and
//! `proofs/InFlightLemmas.antt` says that these answers are those of requests in flight there.
#![tactic(auto)]

mod ask;
mod ranges;

pub use ask::Asked;
pub use disk_model::Memory;
pub use ranges::Ranges;
