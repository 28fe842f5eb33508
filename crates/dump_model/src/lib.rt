//! Definitions and laws: what a dump shows of an image, and its lines.
//!
//! A contract sees a `Dump` as it is. What an image shows is a function of it, in `specs/Dump.antt`, the file to read
//! first, and the lines are in `specs/Lines.antt`.
#![tactic(auto)]

mod laws;
mod shown;

pub use laws::images_that_are_shown_are_told;
pub use shown::{Dump, DumpJournal};
