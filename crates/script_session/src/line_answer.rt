//! What a line is answered.
use request_slots::Reply;

/// What the last call that a line makes of a device answered, as far as it is told.
#[derive(Drop)]
pub(crate) enum LineAnswer {
    /// Nothing is told.
    Nothing,
    /// A request was submitted, and has this ticket.
    Ticket {
        ticket: u64,
    },
    /// No slot is left for a request.
    SlotsFull,
    /// The device takes no writes.
    ReadOnly,
    /// The request is held by the one of ticket `by`.
    HeldBy {
        by: u64,
    },
    /// The journal has no room for the request's block.
    NoRoom,
    /// A serve or a step did something.
    Did,
    /// The request is done.
    Done,
    /// An actor had nothing to do.
    Idle,
    /// The request has no reply yet.
    NotDone,
    /// The reply to a request for `count` blocks from block `first` on.
    Replied {
        first: u64,
        count: u64,
        reply: Reply,
    },
}
