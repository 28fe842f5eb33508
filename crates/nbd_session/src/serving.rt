//! The session: pieces of the source, one after the other.
ghost use Rattle.std.specs.Prelude.{◌≡◌, ◌<◌, [], IfErr, IfOk, OnOk, length};
ghost use Rattle.disk_model.specs.Causes.{HasCause};
ghost use Rattle.device.specs.Calls.{LeavesAtRest, Works};
ghost use Rattle.device.specs.Device.{any_mode};
ghost use Rattle.device_parts.specs.Device.{Ends};
ghost use Rattle.device_parts.specs.declared.condition.Condition.TheVariants.{Working};
ghost use Rattle.nbd_model.specs.Session.{most_piece};
ghost use Rattle.nbd_flight.specs.Deeds.{scene_of};
ghost use Rattle.nbd_session.specs.Serving.{IsFirst, ServesStream, end_in_piece};
ghost use Rattle.nbd_session.specs.Session.{HasSessionCauses, LeavesClosed, ReadsStream, ServesSession, StopsSession, outside_of};

use crate::ended::fault_of_stop;
use crate::{Ended, PieceEnd, SessionFault, serve_piece};
use device::Device;
use nbd_flight::{Buffers, Flight};
use nbd_incoming::Incoming;
use sector_disk::{Disk, Memory};
use std::alloc::Global;
use stream_io::{Sink, Source};

/// How many bytes are read at a time, at most.
///
/// Own: one call of a source gives them, with few requests between two calls.
const MOST_PIECE: usize = 65_536;

/// How many bytes of a stream are looked at.
///
/// Own: a tebibyte, so that every session ends.
const MOST_STREAM: u64 = 0x100_0000_0000;

/// What ends the requests of a stream.
#[derive(Clone, Copy, Drop)]
enum StreamEnd {
    /// A request to disconnect.
    Disconnected,
    /// The end of the source, maybe within a message.
    Ended,
    /// Four bytes in a message's place are not the magic.
    Wrong { magic: u32 },
    /// The bound on the stream.
    Long,
}

/// Serves a stream of requests on a device that works and has taken none, and closes it at a request to disconnect and
/// at the stream's end. A piece of the stream is read only where no request is in flight. The disk comes back.
///
/// # Errors
///
/// - `Memory`: there is none for the session, or for a request.
/// - `Disk`: the disk failed.
/// - `Source`: the source failed. All that came before is replied to.
/// - `Sink`: the sink failed. The last reply may be written in part.
///
/// Source: the NBD protocol, `doc/proto.md`, "Transmission phase".
pub fn session<'d, 'p, D: Disk, S: Source, O: Sink>(
    alloc: Global,
    mut device: Device<'d, 'p, D>,
    source: &mut S,
    sink: &mut O,
) -> (Result<Ended, SessionFault>, &'d mut D)
    requires works { Works D.identity D.moments device.condition device.parts device.disk.now }
    requires number { device.parts.common.slots.submitted ≡ 0 }

    ensures served { ServesSession result.0 (S.left source.old)
        (scene_of D.moments O.held device.entry.parts device.entry.disk.now sink.old)
        (outside_of D.moments O.held result.1.now sink.new) }

    ensures stopped { StopsSession result.0 (S.left source.old)
        (scene_of D.moments O.held device.entry.parts device.entry.disk.now sink.old)
        (outside_of D.moments O.held result.1.now sink.new) }
    ensures cause { HasSessionCauses (D.faults device.entry.disk.now) (D.faults result.1.now)
        (S.faults source.old) (S.faults source.new) (O.faults sink.old) (O.faults sink.new) result.0 }

    ensures read { ReadsStream (S.left source.old) (S.left source.new)
        (S.faults source.old < S.faults source.new)
        (scene_of D.moments O.held device.entry.parts device.entry.disk.now sink.old) (O.held sink.new) }
    ensures identity { D.identity result.1.now ≡ D.identity device.entry.disk.now }
    ensures same_disk { result.1.ghost_name ≡ device.entry.disk.ghost_name }
{
    let mut flight = match Flight::new(alloc) {
        Ok(flight) => flight,
        Err(_) => return (Err(SessionFault::Memory), device.give_back()),
    };
    match serve_stream(alloc, &mut device, &mut flight, source, sink) {
        Ok(StreamEnd::Disconnected) => close(device, flight.has_damage()),
        Ok(StreamEnd::Ended) => close(device, flight.has_damage()),
        Ok(StreamEnd::Wrong { magic }) => (Ok(Ended::Wrong { magic }), device.give_back()),
        Ok(StreamEnd::Long) => (Ok(Ended::Long), device.give_back()),
        Err(fault) => (Err(fault), device.give_back()),
    }
}

/// Closes the device of a session in which all is replied to.
///
/// # Errors
///
/// - `Disk`: the disk failed.
fn close<'d, 'p, D: Disk>(
    device: Device<'d, 'p, D>,
    eio: bool,
) -> (Result<Ended, SessionFault>, &'d mut D)
    requires works { Works D.identity D.moments device.condition device.parts device.disk.now }

    ensures closed { IfOk result.0 (λ ended. ended ≡ Ended.Closed eio) }
    ensures ends { Ends any_mode device.entry.parts
        (D.moments device.entry.disk.now) (D.moments result.1.now) result.0 }

    ensures rests { LeavesAtRest result.0 Working device.entry.parts
        (D.moments device.entry.disk.now) (D.moments result.1.now) }

    ensures failed { IfErr result.0 (λ fault. fault ≡ SessionFault.Disk) }
    ensures cause { HasCause (D.faults device.entry.disk.now) (D.faults result.1.now) result.0 }

    ensures leaves { LeavesClosed device.entry.parts
        (D.moments device.entry.disk.now) (D.moments result.1.now) }
    ensures identity { D.identity result.1.now ≡ D.identity device.entry.disk.now }
    ensures same_disk { result.1.ghost_name ≡ device.entry.disk.ghost_name }
{
    let (closed, disk) = device.close();
    if closed.is_err() {
        return (Err(SessionFault::Disk), disk);
    }
    (Ok(Ended::Closed { eio }), disk)
}

/// Serves the requests of a stream, piece by piece, and tells what ends them. None is in flight then.
///
/// # Errors
///
/// As `session`.
fn serve_stream<'d, 'p, D: Disk, S: Source, O: Sink>(
    alloc: Global,
    device: &mut Device<'d, 'p, D>,
    flight: &mut Flight,
    source: &mut S,
    sink: &mut O,
) -> Result<StreamEnd, SessionFault>
    requires works { Works D.identity D.moments device.old.condition device.old.parts device.old.disk.now }
    requires number { device.old.parts.common.slots.submitted ≡ 0 }
    requires none { flight.old.waiting.items ≡ [] }

    ensures served { ServesStream result (S.left source.old) flight.old flight.new
        (scene_of D.moments O.held device.old.parts device.old.disk.now sink.old)
        (scene_of D.moments O.held device.new.parts device.new.disk.now sink.new) }
    ensures works { OnOk result (Works D.identity D.moments device.new.condition device.new.parts
        device.new.disk.now) }

    ensures stopped { StopsSession result (S.left source.old)
        (scene_of D.moments O.held device.old.parts device.old.disk.now sink.old)
        (outside_of D.moments O.held device.new.disk.now sink.new) }
    ensures cause { HasSessionCauses (D.faults device.old.disk.now) (D.faults device.new.disk.now)
        (S.faults source.old) (S.faults source.new) (O.faults sink.old) (O.faults sink.new) result }

    ensures read { ReadsStream (S.left source.old) (S.left source.new)
        (S.faults source.old < S.faults source.new)
        (scene_of D.moments O.held device.old.parts device.old.disk.now sink.old) (O.held sink.new) }
    ensures identity { D.identity device.new.disk.now ≡ D.identity device.old.disk.now }
    ensures same_disk { device.new.disk.ghost_name ≡ device.old.disk.ghost_name }
{
    let blocks = device.blocks();
    let block_size = device.block_size();
    let Ok(mut room) = Room::new(alloc, block_size) else {
        return Err(SessionFault::Memory);
    };
    let mut incoming = Incoming::new(blocks, block_size as u64);
    serve_pieces(
        device,
        flight,
        &mut room.buffers,
        &mut incoming,
        room.piece.as_mut_slice(),
        source,
        sink,
    )
}

/// Reads pieces of a stream, as large as the buffer at most, and serves the requests that end in each, up to what ends
/// them.
///
/// # Errors
///
/// - `Memory`: there is none for a request.
/// - `Disk`, `Source`, `Sink`: as `session`.
fn serve_pieces<'d, 'p, D: Disk, S: Source, O: Sink>(
    device: &mut Device<'d, 'p, D>,
    flight: &mut Flight,
    buffers: &mut Buffers,
    incoming: &mut Incoming,
    buffer: &mut [u8],
    source: &mut S,
    sink: &mut O,
) -> Result<StreamEnd, SessionFault>
    requires works { Works D.identity D.moments device.old.condition device.old.parts device.old.disk.now }
    requires number { device.old.parts.common.slots.submitted ≡ 0 }
    requires none { flight.old.waiting.items ≡ [] }
    requires first { IsFirst incoming.old device.old.parts.common.slots }
    requires size { length buffer.old ≡ most_piece }

    ensures served { ServesStream result (S.left source.old) flight.old flight.new
        (scene_of D.moments O.held device.old.parts device.old.disk.now sink.old)
        (scene_of D.moments O.held device.new.parts device.new.disk.now sink.new) }
    ensures works { OnOk result (Works D.identity D.moments device.new.condition device.new.parts
        device.new.disk.now) }

    ensures stopped { StopsSession result (S.left source.old)
        (scene_of D.moments O.held device.old.parts device.old.disk.now sink.old)
        (outside_of D.moments O.held device.new.disk.now sink.new) }
    ensures cause { HasSessionCauses (D.faults device.old.disk.now) (D.faults device.new.disk.now)
        (S.faults source.old) (S.faults source.new) (O.faults sink.old) (O.faults sink.new) result }

    ensures read { ReadsStream (S.left source.old) (S.left source.new)
        (S.faults source.old < S.faults source.new)
        (scene_of D.moments O.held device.old.parts device.old.disk.now sink.old) (O.held sink.new) }
    ensures identity { D.identity device.new.disk.now ≡ D.identity device.old.disk.now }
    ensures same_disk { device.new.disk.ghost_name ≡ device.old.disk.ghost_name }
{
    let mut left = MOST_STREAM;
    loop {
        let count = match source.read(buffer) {
            Ok(count) => count,
            Err(_) => return Err(SessionFault::Source),
        };
        if count == 0 {
            return Ok(StreamEnd::Ended);
        }
        let within = count.min(left as usize);
        match serve_piece(device, flight, buffers, incoming, &buffer[..within], sink) {
            Ok(Some(end)) => return Ok(end_of_piece(end)),
            Ok(None) => {}
            Err(stop) => return Err(fault_of_stop(stop)),
        }
        if within < count {
            return Ok(StreamEnd::Long);
        }
        left -= within as u64;
    }
}

/// The memory of a session: room for a piece of the stream, and the buffers of requests.
#[derive(Drop)]
struct Room {
    piece: Vec<u8>,
    buffers: Buffers,
}

impl Room {
    /// That for blocks of so many bytes.
    ///
    /// # Errors
    ///
    /// - `Memory`: there is none.
    fn new(alloc: Global, block_size: usize) -> Result<Room, Memory>
        ensures { IfOk result (λ room. length room.piece.items ≡ most_piece) }
    {
        let piece = Vec::from_elem(alloc, 0, MOST_PIECE)?;
        let buffers = Buffers::new(alloc, block_size)?;
        Ok(Room { piece, buffers })
    }
}

/// What ends the requests of a stream, where it stands in one of its pieces.
fn end_of_piece(end: PieceEnd) -> StreamEnd
    ensures { result ≡ end_in_piece end }
{
    match end {
        PieceEnd::Disconnected => StreamEnd::Disconnected,
        PieceEnd::Wrong { magic } => StreamEnd::Wrong { magic },
    }
}
