//! Recovery of a journal that was cut anywhere, in its own recovery too.
//!
//! A journal comes to it judged, and is read once more where it has entries that count. The newest of each block is
//! brought to its place, in the order of the replay: what differs there is written. Then the tags are written back, and
//! all is synced. A journal at rest goes on then, a blank one is filled, and any other is erased. What a recovery is
//! entered with, and what it leaves, is said in `specs/Recovery.antt`, the file to read first; what its calls tell by
//! these words, in `specs/Calls.antt`, and of entries that are placed, in `specs/Placing.antt`.
#![tactic(auto)]

mod emptying;
mod entering;
mod filling;
mod finishing;
mod place_run;
mod placing;
mod recovered;
mod recovery;
mod writing;

pub use emptying::empty;
pub use place_writer::Placer;
pub use recovered::Recovered;
pub use recovery::recover;
