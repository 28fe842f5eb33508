//! Takes the lines out of a script's source, within the bounds of a script and of a line.
//!
//! A contract sees a `LineReader` as a `Reading` (`specs/Reading.antt`), and what it finds by the lines that
//! are left of the script (`specs/Lines.antt`, the file to read first). The lines of a script are those of
//! `device_model`, `specs/ScriptBytes.antt`.
#![tactic(auto)]

mod line_reader;
mod next_line;
mod piece;

pub use line_reader::{LineReader, MOST_SCRIPT};
pub use next_line::NextLine;
