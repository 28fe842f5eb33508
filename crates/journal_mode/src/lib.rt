//! The work of a device in journal mode: its blocks are written and read through the ring of the journal.
//!
//! A block that is put stands in memory until a commit writes it to the journal, and in the journal until it is
//! placed and settled. A read takes the newest entry of its block, and what is placed where there is none. A
//! contract sees a `Journal` as its ring and how far that is placed (`specs/Journal.antt`, the file to read first).
#![tactic(auto)]

mod freeing;
mod journal;
mod laws;
mod reading;
mod room;

pub use journal::Journal;
pub use laws::recovered_journal_stands;
pub use replay::{Recovered, recover};
pub use room::JournalRoom;
