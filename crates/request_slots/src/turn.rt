//! What is done next for a request.

/// What is done next for a request in flight.
#[derive(Clone, Copy, Debug, PartialEq, Eq)]
pub enum Turn {
    /// Nothing: it is done.
    Finished,
    /// Nothing: it waits for the request of ticket `by`, which overlaps it, is unfinished, and was submitted earlier.
    Held { by: u64 },
    /// Block `block` is read.
    Read { block: u64 },
    /// Block `block` is written, and then all is flushed, where it is so.
    Write { block: u64, is_flushed: bool },
    /// All is flushed.
    Flush,
}
