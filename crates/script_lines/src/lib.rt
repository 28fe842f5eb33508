//! What each run of a script's lines does, whatever it runs them on: it takes the next line, and tells what ends it.
//!
//! `specs/Lines.antt` is the file to read first: what stands next in a script.
#![tactic(auto)]

mod advancing;
mod ending;
mod finding;

pub use advancing::advance;
pub use ending::{ended_by, ended_by_form};
pub use finding::either;
