//! The requests in flight of a session of the NBD transmission phase: judged, handed in to a device, served in rounds,
//! and replied to.
//!
//! What a session does stands in `nbd_model`, `specs/Session.antt`; a contract says of the device which one of
//! `device_model` it is, and that the deeds of a part of that session are done on it and told to the sink
//! (`specs/Deeds.antt`, the file to read first), or how far they came. No source is read here.
#![tactic(auto)]

mod asking;
mod buffers;
mod flight;
mod judging;
mod replying;
mod rounds;
mod stop;
mod whole;

pub use asking::ask;
pub use buffers::Buffers;
pub use flight::Flight;
pub use judging::{Asked, judge};
pub use rounds::until;
pub use stop::Stop;
pub use whole::Whole;
