//! The requests of a device in journal mode, and what is done in the background.
//!
//! A device keeps its `Parts` beside the disk, and its `JournalState`: the `Journal` and the `Recalculation`.
//! `specs/Device.antt`, the file to read first, says which device of `device_model` that is; each call is then one
//! event of it. No call asks whether the device works: who calls does.
#![tactic(auto)]

mod closing;
mod laws;
mod parts;
mod serving;
mod stepping;
mod taking;
mod writing;

pub use closing::close;
pub use journal_mode::Journal;
pub use laws::quiet_events_are_kept;
pub use parts::{JournalParts, JournalState};
pub use recalculation::Recalculation;
pub use serving::serve;
pub use stepping::step;
