//! The work of a device in direct mode: a block is written or read, and all is flushed.
#![tactic(auto)]

mod flushing;
mod reading;
mod serving;
mod writing;

pub use flushing::flush;
pub use reading::read_block;
pub use serving::serve_block;
pub use writing::write_block;
