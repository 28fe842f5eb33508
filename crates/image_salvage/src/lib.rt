//! What can still be read of an image: each block in order, with both of its tags and its bytes.
//!
//! An image is salvaged whose superblock and geometry are accepted, whatever its journal, its bitmap and its flags say. What
//! stands in the place of a block is told, and nothing is written. A contract sees a `Salvage` as the disk that it was lent and a
//! `Salvaged`, which `specs/Salvaged.antt`, the file to read first, ties to that disk. What `next` tells is a function of the
//! image that reads give (`specs/Telling.antt`), by the verdicts of `salvage_model`.
#![tactic(auto)]

mod image;
mod reading;
mod refused;
mod salvage;
mod verdict;

pub use refused::Refused;
pub use salvage::Salvage;
pub use verdict::Verdict;
