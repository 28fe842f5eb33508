//! The requests of a stream of the NBD transmission phase, as their bytes come in pieces: each is judged, and told once
//! it is whole.
//!
//! What comes of the bytes of a stream stands in `specs/Taking.antt`, the file to read first, with the law that so much
//! is asked as the definitions of a session say; what an `Incoming` keeps of it stands in `specs/Incoming.antt`.
#![tactic(auto)]

mod incoming;
mod taken;
mod taking_laws;

pub use incoming::Incoming;
pub use taken::Taken;
pub use taking_laws::what_is_taken_are_the_requests_of_the_stream;
