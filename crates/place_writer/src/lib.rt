//! Placing the committed entries of the journal, and freeing sections.
//!
//! An entry that is committed is written to its place: its bytes to the disk, its tag through the store of tags.
//! Once the tags are written back and all is synced, each section whose entries are all in their places is free.
//! What a disk with tags in memory stands for is said in `specs/Cells.antt`, the file to read first.
#![tactic(auto)]

mod entry;
mod flushing;
mod freeing;
mod laws;
mod placement;
mod placer;
mod writing;

pub use flushing::flush;
pub use laws::{commit_keeps_what_is_placed, placement_goes_on, settled_is_in_place};
pub use placer::Placer;
pub use writing::write_entry;
