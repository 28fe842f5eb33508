//! How far long work on an image is, on one line of the standard error that is overwritten.
//!
//! `Progress` watches the disk of the program (`watched_disk`), and `ClearedOutput` is the standard output, before whose
//! text that line is wiped away. A contract sees of both that they change nothing: an output of this kind is the one under
//! it. Of what is written on the standard error it says that the place never goes back, and nothing else.
#![tactic(auto)]

mod cleared_output;
mod course;
mod pace;
mod progress;
mod report;

pub use cleared_output::ClearedOutput;
pub use course::Course;
pub use progress::Progress;
