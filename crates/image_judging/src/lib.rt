//! Judges consent to tags that are made anew, before the journal of an image is looked at.
//!
//! Which fault an image has, want of consent among them, is a function of it, which stands in `judging_model`:
//! `Faults.antt` there is the file to read first.
#![tactic(auto)]

mod asking;

pub use asking::{judge_consent, lacks_consent};
pub use image_refusal::{CallFault, OpenFault};
pub use judging_model::{Consent, images_that_open_have_no_fault};
