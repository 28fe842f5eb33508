//! What stops a session among its requests.

/// What stops a session where requests are handed in, served and replied to.
#[derive(Clone, Copy, Debug, PartialEq, Eq)]
pub enum Stop {
    /// There is no memory for a request.
    Memory,
    /// The disk failed. The device is broken then.
    Disk,
    /// The sink failed. The last reply may be written in part.
    Sink,
}
