//! The lines of a script as values, and the text of what is told.
//!
//! A contract sees a line and a fault as those of the grammar (`specs/Line.antt`, the file to read first), and what
//! is told as its text (`specs/Told.antt`). The grammar itself stands in `device_model`, `specs/Grammar.antt`. That
//! any bytes are read by it is a law (`specs/Laws.antt`).
#![tactic(auto)]

mod grammar;
mod line;
mod line_end;
mod meaning_fault;
mod pieces;
mod places;
mod reading_laws;
mod reply;
mod runs;
mod singles;
mod stretches;
mod tags_found;
mod told;
mod values;
mod verb;
mod words;

pub use device_model::Actor;
pub use grammar::{MOST_LINE, read_ask_line, read_line};
pub use line::{Ask, Line, LineFault};
pub use line_end::LineEnd;
pub use meaning_fault::MeaningFault;
pub use reading_laws::{bytes_have_a_reading, quiet_lines_do_nothing, requests_are_read_once};
pub use reply::reply_text;
pub use runs::{Run, Runs};
pub use stretches::add_stretches;
pub use tags_found::TagsFound;
pub use told::Told;
