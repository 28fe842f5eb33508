//! Replies, written into a sink.
ghost use Rattle.std.specs.Prelude.{◌≡◌, OnErr, OnOk};
ghost use Rattle.disk_model.specs.Causes.{HasCause};
ghost use Rattle.stream_io.specs.Stream.{AddsPrefix};
ghost use Rattle.nbd_model.specs.Judged.{refusal_bytes};
ghost use Rattle.nbd_flight.specs.Deeds.{held_with};
ghost use Rattle.nbd_flight.specs.Replying.{bytes_told, error_told, read_told, tells_damage};

use nbd_wire::write_reply;
use request_slots::Reply;
use sector_disk::Failed;
use stream_io::{Sink, put_all};

/// The error of a request that is done.
const NO_ERROR: u32 = 0;

/// The error of a read that met a block whose stored tag is not that of its bytes.
///
/// Source: the NBD protocol, `doc/proto.md`, "Error values", `NBD_EIO`.
const EIO: u32 = 5;

/// The error of a request that cannot be.
///
/// Source: the NBD protocol, `doc/proto.md`, "Error values", `NBD_EINVAL`.
const EINVAL: u32 = 22;

/// Refuses the request with this cookie.
///
/// # Errors
///
/// - `Failed`: the sink failed. The first of the reply is written, not all.
pub(crate) fn refuse<O: Sink>(sink: &mut O, cookie: u64) -> Result<(), Failed>
    ensures written { OnOk result (O.held sink.new ≡ held_with (refusal_bytes cookie) (O.held sink.old)) }

    ensures cause { HasCause (O.faults sink.old) (O.faults sink.new) result }
    ensures err { OnErr result (AddsPrefix (refusal_bytes cookie) (O.held sink.old) (O.held sink.new)) }
{
    put_all(sink, &write_reply(EINVAL, cookie))
}

/// Writes the reply to the request with this cookie. What was read is written from where it stands.
///
/// # Errors
///
/// - `Failed`: the sink failed. The first of the reply is written, not all.
pub(crate) fn put_reply<O: Sink>(sink: &mut O, cookie: u64, reply: &Reply) -> Result<(), Failed>
    ensures written { OnOk result (O.held sink.new
        ≡ held_with (bytes_told cookie reply.now) (O.held sink.old)) }

    ensures cause { HasCause (O.faults sink.old) (O.faults sink.new) result }
    ensures err { OnErr result (AddsPrefix (bytes_told cookie reply.now) (O.held sink.old) (O.held sink.new)) }
{
    put_all(sink, &write_reply(error_of(reply), cookie))?;
    put_all(sink, read_in(reply))
}

/// Whether a reply tells a damaged block.
pub(crate) fn is_damage(reply: &Reply) -> bool
    ensures { result ≡ tells_damage reply.now }
{
    matches!(reply, Reply::TagFault { .. })
}

/// The error that a reply bears.
fn error_of(reply: &Reply) -> u32
    ensures { result ≡ error_told reply.now }
{
    match reply {
        Reply::TagFault { .. } => EIO,
        _ => NO_ERROR,
    }
}

/// What was read, if anything was.
fn read_in(reply: &Reply) -> &[u8]
    ensures { result.now ≡ read_told reply.now }
{
    match reply {
        Reply::Read { buffer } => buffer.as_slice(),
        _ => &[],
    }
}
