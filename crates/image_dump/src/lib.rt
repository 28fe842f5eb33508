//! What a dump shows of an image: the fields of its superblock, where all lies on its disk, and the state of
//! its journal, each as a line of text.
//!
//! A contract sees a `Dump` as it is. What an image shows is a function of it, and so are its lines: both stand in
//! `dump_model`, of which `Dump.antt` is the file to read first. Nothing is written.
#![tactic(auto)]

mod dumping;
mod pieces;
mod texts;

pub use dump_model::{Dump, DumpJournal};
pub use dumping::dump;
pub use image_refusal::{CallFault, DumpFault};
pub use texts::dump_text;
