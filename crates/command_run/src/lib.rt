//! What runs on an image that is open as a device: the lines of a script, and the requests of a stream.
//!
//! What both tell and leave stands in `command_model` and `command_task`. `specs/Stopping.antt` is the file to read
//! first: what stops a run somewhere in its script, and what leads there.
#![tactic(auto)]

mod closing;
mod lines;
mod opening;
mod reopening;
mod running;
mod serving;
mod stored_tags;

pub use opening::run_image;
pub use reopening::reopened_images_begin_with_what_a_cut_left;
pub use serving::serve_image;
pub use stored_tags::stored_tags_of_other_blocks_stay;
