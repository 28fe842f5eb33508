//! What came of the bytes that were taken out of a piece.
use nbd_flight::Whole;

/// What came of the bytes that were taken out of a piece.
#[derive(Drop)]
pub enum Taken {
    /// No request ended with them.
    Part,
    /// This request did.
    Whole(Whole),
    /// A request to disconnect did.
    Disconnected,
    /// They are in a message's place, and not the magic of a request.
    Wrong { magic: u32 },
}
