//! One line of a script, run on a mirror, and what it tells; and the levelling before the first line.
//!
//! A contract says of the legs which mirror of `mirror_model` they are, and what the line does to that one
//! (`specs/AskRun.antt`, the file to read first). A request is judged before anything is done; its text is told once
//! all that it does is done.
#![tactic(auto)]

mod answer;
mod asking;
mod levelling;
mod line_laws;
mod telling;

pub use asking::run_ask;
pub use levelling::run_level;
pub use line_laws::lines_of_a_mirror_are_read_once;
