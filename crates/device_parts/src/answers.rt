//! What the calls of a device answer.
use thiserror::Error;

/// What a serve did.
#[derive(Clone, Copy, Debug, PartialEq, Eq)]
pub enum Served {
    /// Nothing: the request waits for the request of ticket `by`, which overlaps it, is unfinished, and was
    /// submitted earlier.
    Held { by: u64 },
    /// One block. More are to be served.
    Did,
    /// The request is done, and its reply can be taken.
    Done,
    /// Nothing: the next block is a write, and the journal has no room for it. A commit, places and a settle make
    /// some. Without a journal this never comes.
    NoRoom,
}

/// What a step did.
#[derive(Clone, Copy, Debug, PartialEq, Eq)]
pub enum Moved {
    /// It did something.
    Did,
    /// There was nothing to do.
    Idle,
}

/// Why a device did nothing, or not all.
#[derive(Clone, Copy, Debug, PartialEq, Eq, Error)]
pub enum StepFault {
    /// The disk failed in this call. The device is broken from then on.
    #[error("the disk has failed")]
    Disk,
    /// A disk has failed the device before: nothing was done.
    #[error("the device is broken")]
    Broken,
}
