//! The program as one call: what it does with its words, its disk, its key, its script and its output.
//!
//! `integrity` of `Outside` is the call, and its contract is the promise. `specs/Top.antt` is the file to read first,
//! behind `run_model`'s `CommandRun.antt` and `command_model`'s `Given.antt`.
#![tactic(auto)]

mod carrying_out;
mod keyed;
mod top_call;

pub use command_ending::end_without_memory;
pub use command_run::{
    reopened_images_begin_with_what_a_cut_left, stored_tags_of_other_blocks_stay,
};
pub use top_call::{AsWorld, Outside};
