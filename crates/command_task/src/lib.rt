//! What the words ask for, and what is said of it: what each task starts on, prints and leaves, and how it ends.
//!
//! Each command stands on this, and none on another. `specs/Outset.antt` is the file to read first: what a task starts
//! on; then `specs/Opening.antt` says what it tells and leaves, and `specs/Calls.antt` as the clause of a call. What each
//! command starts on, prints and leaves stands in `command_model`, whatever words asked for it.
#![tactic(auto)]

mod asked;
mod refusing;
mod telling;

pub use asked::{Asked, AskedMirror, Asking, Task, words_asked};
pub use refusing::{ended_by_opening, handed_back, head_fault};
pub use telling::{Telling, put_end};
