//! What the first sector of a disk tells an opening: the fields of its superblock and its geometry.
//!
//! A contract sees an `ImageFormat` as it is. What an image tells is a function of it, which
//! stands in `specs/Format.antt`, the file to read first. Nothing is written, and no memory is taken.
#![tactic(auto)]

mod laws;
mod reading;

pub use laws::images_that_can_be_read_are_told;
pub use reading::{ImageFormat, read_format};
