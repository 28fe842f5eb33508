//! The run of a script on a mirror: it is levelled, and then its lines are run, one after the other, up to the script's
//! end or to what stops it.
//!
//! A contract says of the legs which mirror of `mirror_model` they are, and of what is printed, done and left how far the
//! run of that mirror came (`specs/Running.antt`, the file to read first; `specs/Standing.antt` is where a run stands).
//! How a mirror is made and closed is its caller's.
#![tactic(auto)]

mod levelling;
mod lines;
mod running;

pub use running::run_script;
