//! Definitions and laws: why an image is not opened where its journal or its bitmap is looked at: the fault that it
//! has, and the one that is reported.
//!
//! Which fault an image has is a function of it, in `specs/Faults.antt`, the file to read first. A contract sees a
//! `Consent` as it is.
#![tactic(auto)]

mod consent;
mod laws;

pub use consent::Consent;
pub use laws::images_that_open_have_no_fault;
