//! A disk in memory that fails as a case wants it, counts what is asked of it, and keeps what a cut may leave.
#![tactic(auto)]

mod disk;
mod kept;

pub use disk::{CutDisk, Seen};
