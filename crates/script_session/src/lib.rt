//! One line of a script, run on a device in any mode, and what it tells.
//!
//! A contract says of the device which one of `device_model` it is, and what the line does to that one
//! (`specs/LineRun.antt`, the file to read first). A line is judged before anything is done; its text is told once
//! all that it does is done. A request can also be run by itself, for its reply.
#![tactic(auto)]

mod asking;
mod asking_whole;
mod calling;
mod finishing;
mod line_answer;
mod meaning;
mod running;
mod stop;
mod telling;
mod tickets;

pub use asking::request_of;
pub use asking_whole::run_ask;
pub use meaning::ask_fault;
pub use running::run_line;
pub use script_text::{LineEnd, MeaningFault, TagsFound};
pub use stop::Stop;
pub use tickets::Tickets;
