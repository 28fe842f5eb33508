//! The work of a device in direct mode, request by request: it is served, regions are recalculated in the background,
//! and all is flushed at its end.
//!
//! A device keeps its `Parts` and its `Recalculation` beside the disk. `specs/Device.antt`, the file to read first,
//! says which device of `device_model` that is; each call is then one event of it. No call asks whether the device
//! works: who calls does.
#![tactic(auto)]

mod closing;
mod laws;
mod parts;
mod serving;
mod stepping;
mod taking;

pub use closing::close;
pub use laws::{direct_devices_rest, quiet_events_are_kept};
pub use parts::DirectParts;
pub use serving::serve;
pub use stepping::step;
