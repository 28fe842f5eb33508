//! Definitions and laws: a new image, and what may stand on its disk at each moment while it is made.
//!
//! A contract sees a `NewImage` as it is. What the image has stands in `specs/Formatted.antt`, the file to read
//! first: its fields in `specs/NewImage.antt`, its journal or bitmap in `specs/Journal.antt`, its blocks in
//! `specs/Blocks.antt`. What a cut leaves before the first sync and behind it is in `specs/Order.antt`, and each
//! sector that is written, with its bytes, in `specs/Written.antt`.
#![tactic(auto)]

mod laws;
mod new_image;

pub use laws::new_image_opens;
pub use new_image::NewImage;
