//! The work of a device in bitmap mode, request by request: it is served, bits are cleared and regions recalculated in
//! the background, and all is flushed at its end.
//!
//! A device keeps its `Parts` and its `RegionStates` beside the disk. `specs/Device.antt`, the file to read first, says
//! which device of `device_model` that is; each call is then one event of it. No call asks whether the device works:
//! who calls does.
#![tactic(auto)]

mod closing;
mod held;
mod laws;
mod parts;
mod serving;
mod stepping;

pub use bitmap_mode::RegionStates;
pub use closing::close;
pub use laws::{quiet_events_are_kept, unwritten_tags_are_kept};
pub use parts::BitmapParts;
pub use serving::serve;
pub use stepping::step;
