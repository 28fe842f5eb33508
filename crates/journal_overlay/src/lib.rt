//! Which place of the journal has the newest data of a block.
//!
//! A contract sees an `Overlay` as how many places it can keep and the list of those that it keeps, in order of adding
//! (`specs/Kept.antt`, the file to read first).
#![tactic(auto)]

mod node;
mod overlay;
mod place;
mod place_log;
mod table;

pub use disk_model::Memory;
pub use image_model::EntryPlace;
pub use overlay::Overlay;
