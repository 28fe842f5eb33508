//! A device in any mode, with up to sixteen requests in flight, over a disk that it is lent, and the chains of its
//! calls: an actor until it is idle, room made in a journal, and a request served to its end.
//!
//! A contract sees a device as what it keeps beside its disk, and what the disk tells of its content.
//! `specs/Device.antt`, the file to read first, says which device of `device_model` that is; each call is then one
//! event of it, and a chain a run of events, `specs/Run.antt`. The work of each mode stands in `direct_device`,
//! `journal_device`, `bitmap_device` and `recovery_device`. Whether the device is broken is judged here alone.
#![tactic(auto)]

mod closing;
mod device;
mod finishing;
mod making_room;
mod mode;
mod opening;
mod refused;
mod serving;
mod stepping;
mod submitting;

pub use device::Device;
pub use device_parts::{Actor, Moved, Served};
pub use finishing::{finish, serve, serve_with_room};
pub use image_judging::Consent;
pub use journal_device::JournalState;
pub use making_room::{make_room, step, step_until_idle};
pub use mode::{DeviceParts, Mode};
pub use opening::OpenMode;
pub use refused::Refused;
