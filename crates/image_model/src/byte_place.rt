//! Where a byte of a disk stands.

/// A byte of a disk: the sector that holds it, and which byte of that it is, 0 to 511.
#[derive(Clone, Copy, Debug, PartialEq, Eq)]
pub struct BytePlace {
    pub sector: u64,
    pub byte: u64,
}
