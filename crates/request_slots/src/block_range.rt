//! The blocks of a request.

/// So many blocks of the device, from block `first` on.
#[derive(Clone, Copy, Debug, PartialEq, Eq)]
pub struct BlockRange {
    pub first: u64,
    pub count: u64,
}
