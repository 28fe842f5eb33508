//! The journal in memory: a ring of sections, and their commits.
//!
//! An entry is put where a commit writes it from, so a commit copies nothing: it is one write of neighbouring
//! sections, and one sync. While a section takes entries its metadata sectors and the data sectors of each entry are
//! runs of their own; a commit joins them (`pieces.rt`). A section bears its commit number from its opening on, and its
//! unused entries are marked then. A contract sees a `Ring` as the entries of its sections (`JournalRing` of
//! `journal_model`), and the invariant of the type ties the bytes to them (`specs/Ring.antt`, the file to read first).
#![tactic(auto)]

mod committing;
mod laws;
mod marks;
mod pieces;
mod pool;
mod putting;
mod ring;
mod room;
mod runs;

pub use laws::{room_comes_again, sections_are_freed_in_order};
pub use ring::{Moved, NoRoom, Ring};
pub use room::RingRoom;
