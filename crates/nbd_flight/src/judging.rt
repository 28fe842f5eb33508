//! What a request of the stream asks of a device, or that it cannot be.
ghost use Rattle.std.specs.Prelude.{◌≡◌, ◌<◌};
ghost use Rattle.nbd_flight.specs.Judging.{OnBlocks, asked_in, range_in};

use nbd_wire::{DISCONNECT, FLUSH, NbdRequest, READ, WRITE};

/// The flag of a write that is to be flushed once it is done.
///
/// Source: the NBD protocol, `doc/proto.md`, "Command flags", `NBD_CMD_FLAG_FUA`.
const FUA: u16 = 1;

/// The most blocks of one request.
///
/// Own: as many as a line of a script may move.
pub(crate) const MOST_BLOCKS: u64 = 1024;

/// What a request asks for.
#[derive(Clone, Copy, Drop)]
pub enum Asked {
    /// To read blocks.
    Read { first: u64, count: u64 },
    /// To write blocks.
    Write { first: u64, count: u64, fua: bool },
    /// To flush.
    Flush,
    /// To end the session.
    Disconnect,
    /// What cannot be.
    Refused,
}

/// What a request asks of a device of so many blocks of so many bytes.
pub fn judge(request: &NbdRequest, blocks: u64, block_size: u64) -> Asked
    requires { 0 < block_size }

    ensures { OnBlocks blocks block_size (λ b. result ≡ asked_in b request.now) }
{
    match request.kind {
        READ => match range_of(request, blocks, block_size) {
            Some((first, count)) => Asked::Read { first, count },
            None => Asked::Refused,
        },
        WRITE => match range_of(request, blocks, block_size) {
            Some((first, count)) => Asked::Write {
                first,
                count,
                fua: request.flags & FUA != 0,
            },
            None => Asked::Refused,
        },
        DISCONNECT => Asked::Disconnect,
        FLUSH => Asked::Flush,
        _ => Asked::Refused,
    }
}

/// The first block of a request, and how many it has. None where it has none, no whole number of them, too many, or one
/// that is not on the device.
fn range_of(request: &NbdRequest, blocks: u64, block_size: u64) -> Option<(u64, u64)>
    requires { 0 < block_size }

    ensures { OnBlocks blocks block_size (λ b. result ≡ range_in b request.now) }
{
    let length = u64::from(request.length);
    if length == 0 || length % block_size != 0 || request.offset % block_size != 0 {
        return None;
    }
    let first = request.offset / block_size;
    let count = length / block_size;
    if count > MOST_BLOCKS || first > blocks || count > blocks - first {
        return None;
    }
    Some((first, count))
}
