//! What a sector of the journal bears.

/// What stands in the place of a journal sector's commit id.
#[derive(Clone, Copy, Debug, PartialEq, Eq)]
pub enum Cell {
    /// The id of the sector's own place under this commit number.
    Number(u8),
    /// Zeros, in a sector of 512 zero bytes.
    Zero,
    /// Another id.
    Other(u64),
}
