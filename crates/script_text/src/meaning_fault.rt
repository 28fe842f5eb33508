//! Why a line that was read has no meaning on a device.

/// Why a line that was read is refused. The first that holds is told.
#[derive(Clone, Copy, Debug, PartialEq, Eq)]
pub enum MeaningFault {
    /// No request in flight has this ticket.
    Ticket { ticket: u64 },
    /// So many bytes are no whole number of blocks.
    Length { length: u128 },
    /// So many blocks are more than a line may move.
    Count { count: u128 },
    /// It has no block, or one that the device has not.
    Range { first: u64, count: u64 },
}
