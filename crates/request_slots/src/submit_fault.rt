//! Why a request is refused.
use thiserror::Error;

/// Why a device does not take a request. The first that holds is told; nothing is changed.
#[derive(Clone, Copy, Debug, PartialEq, Eq, Error)]
pub enum SubmitFault {
    /// A disk has failed the device: it takes none until its image is opened again.
    #[error("the device is broken")]
    Broken,
    /// It is a write, and the device is open to be read alone.
    #[error("read only")]
    ReadOnly,
    /// It has no block, or one that the device has not, which has `blocks`.
    #[error("no such blocks")]
    Range { first: u64, count: u64, blocks: u64 },
    /// It came with `have` bytes, and its blocks have `need`.
    #[error("a wrong number of bytes")]
    Length { have: u64, need: u64 },
    /// As many requests as there are slots are submitted and not taken.
    #[error("no slot is left")]
    SlotsFull { slots: u64 },
}
