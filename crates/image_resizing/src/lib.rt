//! Resizing: an image gets the sectors that were added to its disk.
//!
//! What the first sector tells is read and judged, with what it is to tell (`planning.rt`), and all memory is taken
//! before anything is written. An image without a bitmap is recovered, and one with a bitmap synced
//! (`recovering.rt`). Then the new blocks get zeros (`filling.rt`) and their tags (`tagging.rt`), both in whole runs,
//! and new regions clear bits (`clearing.rt`); all that is synced before the first sector tells of it
//! (`founding.rt`). So what a cut leaves is the old image, or the new one.
//!
//! A contract sees a `Plan` as its fields. What is left of an image stands in `resize_model`, whose `specs/Left.antt`
//! is the file to read first; then `specs/Call.antt` and `specs/Plan.antt` here.
#![tactic(auto)]

mod clearing;
mod filling;
mod founding;
mod growing;
mod planning;
mod recovering;
mod resizing;
mod room;
mod tagging;

pub use image_refusal::{CallFault, ResizeFault};
pub use resizing::resize;
