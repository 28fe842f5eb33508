//! Reading a bitmap as it stands on a disk: whether the region of a block is dirty, and how many regions are.
//!
//! The bitmap is read in runs through a window of its caller, and never kept as a whole, so that memory does not grow
//! with it. What is read is told of the image that reads of the disk give, in the words of `image_model` (`Bitmap.antt`
//! first), and how many are set as `dump_model` counts them. Nothing is written.
#![tactic(auto)]

mod counting;
mod reading;
mod words;

pub use counting::count_dirty;
pub use reading::is_dirty;
