//! Definitions alone: which blocks of an image are bad, what a check reports of it, and why it is refused.
//!
//! `specs/Bad.antt` is the file to read first: a block whose stored tag is not the tag of its bytes. A contract sees
//! a `Bad` and a `Report` as they are (`specs/Report.antt`). Which fault an image has for a check is in
//! `specs/Faults.antt`.
#![tactic(auto)]

mod bad;
mod report;

pub use bad::Bad;
pub use report::Report;
