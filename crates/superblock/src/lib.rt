//! The superblock: the fields in the first sector of an image, read and written.
//!
//! `Super` and `SuperFault` are types of `image_model`, and contracts see them as they are. What the bytes of
//! the sector tell stands there, in `specs/Superblock.antt`, the file to read first. No memory is taken.
#![tactic(auto)]

mod magic;
mod reading;
mod writing;

pub use image_model::{MOST_SECTORS, Super, SuperFault};
pub use reading::{judge, read};
pub use writing::{version_for, write};
