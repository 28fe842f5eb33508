//! Definitions alone: what ends a command, and the run of a script, of an exercise and of a command, from what it
//! starts on to what it prints and leaves.
//!
//! `specs/Ending.antt` is the file to read first: four ways in which a command ends. `specs/CommandRun.antt` has
//! `Tells`, what a command with some status has printed and left; `specs/ServedRun.antt` has the same of a stream that
//! is served.
#![tactic(auto)]

mod key_refusal;
mod outer;

pub use key_refusal::KeyRefusal;
pub use outer::Outer;
