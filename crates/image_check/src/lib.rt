//! Checks an image: which blocks have a stored tag that is not the tag of their bytes.
//!
//! The image is opened and gone over in order, and nothing is written. A contract gives the bad blocks by the model of
//! an image (`Bad.antt` of `check_model`, the file to read first), and a `CheckedImage` by what it keeps of one
//! (`specs/Checked.antt`).
#![tactic(auto)]

mod checked_image;
mod index;
mod judging;
mod opening;
mod passing;
mod report;

pub use check_model::{Bad, Report};
pub use checked_image::CheckedImage;
pub use image_model::What;
pub use report::check;
