//! The bytes of a journal section: its entries, put and read, and the commit ids of its sectors.
//!
//! A contract sees a section as the list of its entries (`entries_of` in `image_model`, `specs/Entries.antt`,
//! the file to read first), an `EntryView` as the sector and the tag of an entry, and the pieces that a call is
//! given as those of a section (`specs/Pieces.antt`). What one entry is stands in `image_model`, too,
//! `specs/Section.antt`. No memory is taken.
#![tactic(auto)]

mod blocks;
mod clearing;
mod entries;
mod places;
mod sealing;
mod section_laws;
mod sectors;

pub use blocks::block_bytes;
pub use clearing::clear;
pub use entries::{EntryView, entry, put_entry};
pub use sealing::seal;
pub use section_laws::section_is_told;
pub use sectors::{id_at, is_zero, number};
