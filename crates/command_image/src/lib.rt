//! What is done on an image without a script: it is made, shown, checked, salvaged, resized or exercised.
//!
//! What each of these starts on, tells and leaves stands in `command_model`, with a file for each, and by its task in
//! `command_task`. Here stands how far it came: `specs/Listing.antt`, the file to read first, of lines that are printed
//! block by block, and `specs/Exercised.antt` of an exercise.
#![tactic(auto)]

mod checking;
mod dumping;
mod exercising;
mod making;
mod resizing;
mod salvaging;
mod verdict_lines;

pub use checking::print_check;
pub use dumping::print_image;
pub use exercising::exercise_image;
pub use making::make_image;
pub use resizing::resize_image;
pub use salvaging::print_salvage;
