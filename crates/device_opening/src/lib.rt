//! The opening of a device: the first sector, and the journal or the bitmap, are read and judged, all memory is taken,
//! and the disk is synced; then a journal is recovered, and the image is changed where it is not of the mode: a journal
//! becomes a bitmap, or a bitmap a journal. In recovery mode the first sector is all.
//!
//! Each mode has a file, `journal.rt`, `direct.rt`, `bitmap.rt` and `recovery.rt`, over what they share: `judging.rt`
//! and `bitmap_judging.rt`, `room.rt`, `syncing.rt`, `recovering.rt`, `emptying.rt`, and the two changes, `changing.rt`
//! to a bitmap and `journal_making.rt` to a journal. A contract sees what these give as its fields. Why a disk is
//! refused, and what an opening leaves at each moment, stands in `specs/Opening.antt`, the file to read first; what is
//! known of an image that was judged in `specs/Judged.antt`, and what a mode adds in a file of its own.
#![tactic(auto)]

mod bitmap;
mod bitmap_judging;
mod changing;
mod direct;
mod emptying;
mod journal;
mod journal_making;
mod judging;
mod recovering;
mod recovery;
mod room;
mod syncing;

pub use bitmap::open_bitmap;
pub use direct::open_direct;
pub use journal::open_journal;
pub use recovery::open_recovery;
