//! Sixteen requests in flight: what is submitted and not taken, in which order it is served, and how far that is.
//!
//! A contract sees the `Slots` as a `Flight` (`specs/Flight.antt`, the file to read first): the requests that are
//! submitted and not taken, in order of submission, each with its bytes and what has come of it. It does no IO: a
//! device asks what is done next, does it, and tells what came of it. `specs/InFlight.antt` says which list of
//! requests of `device_model` this is.
#![tactic(auto)]

mod block_range;
mod bytes;
mod reply;
mod request;
mod slot;
mod slots;
mod submit_fault;
mod ticket;
mod turn;

pub use block_range::BlockRange;
pub use bytes::Bytes;
pub use reply::Reply;
pub use request::Request;
pub use slots::{MOST_SLOTS, Slots};
pub use submit_fault::SubmitFault;
pub use ticket::Ticket;
pub use turn::Turn;
