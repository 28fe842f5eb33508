//! Makes a new image on a disk: an erased journal, or a bitmap; zeros with their tags in all blocks, or tags
//! that are to be recalculated; and a superblock that comes last.
//!
//! A contract sees a `NewImage` as it is. What the image has stands in `formatting_model`: `Formatted.antt` there is
//! the file to read first. Zeros come to the first sector before all else, and are synced; the superblock comes
//! behind a sync of all else. So a cut leaves the disk as it was, which it can only before the first sync has
//! succeeded (`Order.antt`), or without a magic, or with the whole new image. Only sectors that the new image has are
//! ever written (`Written.antt`). All memory is taken before the first write.
#![tactic(auto)]

mod emptying;
mod filling;
mod first_sector;
mod formatting;
mod marking;
mod planning;
mod room;
mod tagging;
mod wiping;
mod zeroing;

pub use formatting::format;
pub use formatting_model::{NewImage, new_image_opens};
pub use image_model::{ImageMode, Padding, Wipe};
pub use image_refusal::CallFault;
pub use tagging::{put_tags, read_behind};
