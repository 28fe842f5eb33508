//! A change of mode on an image: from a journal, which is recovered and empty, to a bitmap of which no bit is set, and
//! from a bitmap, all of whose tags are made, to an empty journal.
//!
//! A contract sees the format behind a change, what it writes and what each moment of it keeps
//! (`specs/ToBitmap.antt`, the file to read first, and `specs/ToJournal.antt`). Nothing is written but sectors of the
//! journal's place, and sector 0.
#![tactic(auto)]

mod emptying;
mod fields;
mod head;
mod to_bitmap;
mod to_journal;
mod zeroing;

pub use emptying::{fill_blank, write_rest};
pub use fields::{bitmap_format, journal_format};
pub use head::write_head;
pub use to_bitmap::change_to_bitmap;
pub use to_journal::change_to_journal;
pub use zeroing::zero_bitmap;
