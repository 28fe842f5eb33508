//! How a session ends.
ghost use Rattle.std.specs.Prelude.{◌≡◌};
ghost use Rattle.nbd_session.specs.Serving.{fault_of};

use nbd_flight::Stop;

/// How a session came to its end.
#[derive(Clone, Copy, Debug, PartialEq, Eq)]
pub enum Ended {
    /// A request to disconnect, or the end of the source: all is replied to, and the device is closed. `eio`: one of
    /// the replies told a damaged block.
    Closed { eio: bool },
    /// Four bytes in a message's place are not the magic. All before them is replied to, and the device is not closed.
    Wrong { magic: u32 },
    /// The stream goes past its bound. All within it is replied to, and the device is not closed.
    Long,
}

/// What ended a session before that. What had been asked for is done as far as `specs/Session.antt` says.
#[derive(Clone, Copy, Debug, PartialEq, Eq)]
pub enum SessionFault {
    /// There was no memory for a request, or for the session itself.
    Memory,
    /// The disk failed.
    Disk,
    /// The source failed.
    Source,
    /// The sink failed. The last reply may be written in part.
    Sink,
}

/// What a stop among the requests is to the session.
pub(crate) fn fault_of_stop(stop: Stop) -> SessionFault
    ensures { result ≡ fault_of stop }
{
    match stop {
        Stop::Memory => SessionFault::Memory,
        Stop::Disk => SessionFault::Disk,
        Stop::Sink => SessionFault::Sink,
    }
}
