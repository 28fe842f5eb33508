//! What a device keeps beside its disk in every mode, and what its calls answer: the requests in flight, what makes the
//! tags, and one block.
//!
//! A contract sees a device as what it keeps beside its disk, and what the disk tells of its content.
//! `specs/Device.antt`, the file to read first, says over these what a call leaves, with the mode as a parameter.
#![tactic(auto)]

mod answers;
mod condition;
mod parts;
mod submitting;

pub use answers::{Moved, Served, StepFault};
pub use condition::Condition;
pub use device_model::Actor;
pub use parts::Parts;
pub use submitting::{submit, take};
