//! What a script is told of a line.

/// What is printed of a line, or of the device's end.
#[derive(Clone, Copy, Debug)]
pub enum Told<'a> {
    /// A write of `count` blocks from block `first` on is done.
    Write {
        first: u64,
        count: u64,
    },
    /// A read of `count` blocks from block `first` on gave these bytes.
    Read {
        first: u64,
        count: u64,
        bytes: &'a [u8],
    },
    /// A flush is done.
    Flush,
    /// A read found a block whose stored tag is not the one computed of its bytes.
    Fault {
        block: u64,
        stored: &'a [u8],
        computed: &'a [u8],
    },
    /// A read of a mirror found a block whose stored tag is on neither leg the one computed of its bytes.
    MirrorFault {
        block: u64,
        stored: &'a [u8],
        computed: &'a [u8],
        second_stored: &'a [u8],
        second_computed: &'a [u8],
    },
    /// The levelling of a mirror has written so many blocks.
    Level {
        written: u64,
    },
    /// A request was submitted, and has this ticket.
    Ticket {
        ticket: u64,
    },
    /// A serve or a step did something.
    Did,
    /// The request is done.
    Done,
    /// The request is held by the earlier one of this ticket.
    HeldBy {
        by: u64,
    },
    /// The journal has no room for the next block.
    NoRoom,
    /// The request is not done, so that it has no reply yet.
    NotDone,
    /// An actor had nothing to do.
    Idle,
    /// So many requests are in flight that no other is taken.
    SlotsFull,
    /// The device takes no writes.
    ReadOnly,
    /// The device is closed.
    Closed,
}
