//! Runs the cases of a text, tries the failures that they ask for, and judges what is left after each.
//!
//! The command is whatever the caller gives, so that nothing here stands on the program.
#![tactic(auto)]

mod bitmaps;
mod changing;
mod input;
mod mirroring;
mod reads;
mod recovering;
mod resizing;
mod session;
mod starting;
mod trying;

pub use input::run_text;
pub use session::Session;
pub use trying::Counts;
