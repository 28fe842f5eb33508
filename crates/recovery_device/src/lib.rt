//! The work of a device in recovery mode: it gives what stands in the places of its blocks, whatever their tags are.
//!
//! A device keeps the `Parts` that it keeps in every mode beside the disk. `specs/Device.antt`, the file to read first,
//! says which device of `device_model` that is; each call is then one event of it. No call writes to the disk or syncs
//! it: its moments are those at entry, also where a read fails. No call but `submit` asks whether the device works: who
//! calls does.
#![tactic(auto)]

mod laws;
mod serving;
mod stepping;
mod submitting;

pub use laws::{quiet_events_are_kept, recovery_devices_end, recovery_devices_rest};
pub use serving::serve;
pub use stepping::step;
pub use submitting::submit;
