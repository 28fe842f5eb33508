//! Reading a journal that is to be replayed, and judging it before anything is written.
//!
//! A journal is read in runs, and never as a whole: first for what each of its sectors bears, by which the scan tells
//! which sections count, and then these sections one by one, each used entry of which is judged in order. What is kept
//! of it is told of the image that reads of the disk give, in `specs/Journal.antt`, the file to read first. Whoever
//! replays a journal reads it once more, and reads its entries by its bytes.
#![tactic(auto)]

mod cells;
mod entries;
mod grid;
mod judging;
mod newest;
mod places;
mod reading;
mod used;

pub use entries::read_entry;
pub use grid::{GridRoom, read_grid};
pub use image_refusal::{CallFault, JournalFault};
pub use newest::NewestEntries;
pub use places::{entry_count, entry_place};
pub use reading::{JudgedJournal, judge_journal, read_journal};
