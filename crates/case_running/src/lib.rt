//! Runs a case's command on objects in memory, where calls fail as the case wants it, and tells what it shows.
//!
//! The command is whatever the caller gives, so that nothing here stands on the program.
#![tactic(auto)]

mod running;
mod telling;

pub use running::{Command, Ended, run, run_on_both};
pub use telling::{
    Repeated, add, image_left, is_bitmapped, is_direct, is_journaled, is_keyed, is_recovering,
    outcome_of, put_rows, told_of,
};
