//! What is asked of a device.
ghost use Rattle.std.specs.Prelude.{◌≡◌, length};

use crate::Bytes;

/// A request, with the bytes that come with it.
#[derive(Drop)]
pub enum Request {
    /// To read `count` blocks from block `first` on into a buffer of as many bytes as they have.
    Read {
        first: u64,
        count: u64,
        buffer: Bytes,
    },
    /// To write `count` blocks from block `first` on, of these bytes; with `fua` all is flushed once the last is
    /// written.
    Write {
        first: u64,
        count: u64,
        bytes: Bytes,
        fua: bool,
    },
    /// To flush all that was written.
    Flush,
}

impl Request {
    ghost use Rattle.request_slots.specs.Flight.{first_in, count_in, bytes_in};

    /// The first block. A flush has none, and tells 0.
    pub(crate) fn first(&self) -> u64
        ensures { result ≡ first_in self.now }
    {
        match self {
            Request::Read { first, .. } | Request::Write { first, .. } => *first,
            Request::Flush => 0,
        }
    }

    /// How many blocks it has.
    pub(crate) fn count(&self) -> u64
        ensures { result ≡ count_in self.now }
    {
        match self {
            Request::Read { count, .. } | Request::Write { count, .. } => *count,
            Request::Flush => 0,
        }
    }

    /// The bytes that came with it.
    pub(crate) fn bytes(&self) -> &[u8]
        ensures { result.now ≡ bytes_in self.now }
    {
        match self {
            Request::Read { buffer, .. } => buffer.as_slice(),
            Request::Write { bytes, .. } => bytes.as_slice(),
            Request::Flush => &[],
        }
    }
}
