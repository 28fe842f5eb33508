//! What ends the requests of a stream within a piece.

/// What ends the requests of a stream within a piece. What stands behind it in the piece is not looked at.
#[derive(Clone, Copy, Debug, PartialEq, Eq)]
pub(crate) enum PieceEnd {
    /// A request to disconnect.
    Disconnected,
    /// Four bytes in a message's place are not the magic.
    Wrong { magic: u32 },
}
