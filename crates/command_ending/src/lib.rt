//! What ends a command early: its status, and the line that it prints last.
//!
//! A contract sees an `Ended` as an ending of `run_model` (`specs/Ended.antt`, the file to read first).
#![tactic(auto)]

mod ended;
mod form_fault;
mod hexadecimal;
mod image_fault;
mod image_texts;
mod leg_texts;
mod line_refusal;
mod line_texts;
mod pieces;
mod refusal;
mod tag_text;

pub use ended::{Ended, end_without_memory};
pub use form_fault::FormFault;
pub use image_fault::ImageFault;
pub use line_refusal::LineRefusal;
pub use pieces::put_pieces;
pub use refusal::Refusal;
pub use run_model::{KeyRefusal, Outer};
pub use tag_text::{MOST_DIGITS, tag_digits};
