//! The requests of one piece of a stream.
ghost use Rattle.std.specs.Prelude.{◌≡◌, ◌+◌, ◌<◌, ◌^◌, None, Ok, OnOk, length};
ghost use Rattle.device.specs.Calls.{Works};
ghost use Rattle.nbd_flight.specs.Deeds.{scene_of};
ghost use Rattle.nbd_flight.specs.Flight.{AreHeld};
ghost use Rattle.nbd_flight.specs.Rounds.{HasCauses, Stays};
ghost use Rattle.nbd_session.specs.Piece.{Asks, IsFor, StopsPiece, TakesPiece};

use crate::PieceEnd;
use device::Device;
use nbd_flight::{Buffers, Flight, Stop, ask, until};
use nbd_incoming::{Incoming, Taken};
use sector_disk::Disk;
use stream_io::Sink;

/// How many requests may be in flight where more is taken: one fewer than a device takes.
///
/// Own: rounds come before a request that would be one too many.
const MOST_WAITING: usize = 15;

/// Serves all requests that end in a piece. It tells what ends the requests, where that is in it. None is in flight
/// then.
///
/// # Errors
///
/// - `Memory`: there is none for a request.
/// - `Disk`: the disk failed. The device is broken then.
/// - `Sink`: the sink failed.
pub(crate) fn serve_piece<'d, 'p, D: Disk, O: Sink>(
    device: &mut Device<'d, 'p, D>,
    flight: &mut Flight,
    buffers: &mut Buffers,
    incoming: &mut Incoming,
    piece: &[u8],
    sink: &mut O,
) -> Result<Option<PieceEnd>, Stop>
    requires works { Works D.identity D.moments device.old.condition device.old.parts device.old.disk.now }
    requires held { AreHeld 0 flight.old.waiting.items device.old.parts.common.slots }
    requires incoming { IsFor incoming.old device.old.parts.common.slots }
    requires number { device.old.parts.common.slots.submitted + length piece.now < 2 ^ 64 }

    ensures taken { TakesPiece result piece.now flight.old flight.new incoming.old incoming.new
        (scene_of D.moments O.held device.old.parts device.old.disk.now sink.old)
        (scene_of D.moments O.held device.new.parts device.new.disk.now sink.new) }

    ensures stopped { StopsPiece result piece.now flight.old incoming.old
        (scene_of D.moments O.held device.old.parts device.old.disk.now sink.old)
        (scene_of D.moments O.held device.new.parts device.new.disk.now sink.new) }
    ensures cause { HasCauses (D.faults device.old.disk.now) (D.faults device.new.disk.now)
        (O.faults sink.old) (O.faults sink.new) result }

    ensures stays { OnOk result (Stays (length piece.now) D.identity D.moments device.new.condition
        device.old.parts device.new.parts device.new.disk.now flight.new) }
    ensures left { result ≡ Ok None → IsFor incoming.new device.new.parts.common.slots }
    ensures identity { D.identity device.new.disk.now ≡ D.identity device.old.disk.now }
    ensures same_disk { device.new.disk.ghost_name ≡ device.old.disk.ghost_name }
{
    let end = take_piece(device, flight, buffers, incoming, piece, sink)?;
    until(device, flight, buffers, sink, 0)?;
    Ok(end)
}

/// Asks for all requests that end in a piece, as far as slots are free; where none is, rounds are made before more is
/// taken. It tells what ends the requests, where that is in it.
///
/// # Errors
///
/// As `serve_piece`.
fn take_piece<'d, 'p, D: Disk, O: Sink>(
    device: &mut Device<'d, 'p, D>,
    flight: &mut Flight,
    buffers: &mut Buffers,
    incoming: &mut Incoming,
    piece: &[u8],
    sink: &mut O,
) -> Result<Option<PieceEnd>, Stop>
    requires works { Works D.identity D.moments device.old.condition device.old.parts device.old.disk.now }
    requires held { AreHeld 0 flight.old.waiting.items device.old.parts.common.slots }
    requires incoming { IsFor incoming.old device.old.parts.common.slots }
    requires number { device.old.parts.common.slots.submitted + length piece.now < 2 ^ 64 }

    ensures asked { Asks result piece.now flight.old flight.new incoming.old incoming.new
        (scene_of D.moments O.held device.old.parts device.old.disk.now sink.old)
        (scene_of D.moments O.held device.new.parts device.new.disk.now sink.new) }

    ensures stopped { StopsPiece result piece.now flight.old incoming.old
        (scene_of D.moments O.held device.old.parts device.old.disk.now sink.old)
        (scene_of D.moments O.held device.new.parts device.new.disk.now sink.new) }
    ensures cause { HasCauses (D.faults device.old.disk.now) (D.faults device.new.disk.now)
        (O.faults sink.old) (O.faults sink.new) result }

    ensures stays { OnOk result (Stays (length piece.now) D.identity D.moments device.new.condition
        device.old.parts device.new.parts device.new.disk.now flight.new) }
    ensures left { result ≡ Ok None → IsFor incoming.new device.new.parts.common.slots }
    ensures identity { D.identity device.new.disk.now ≡ D.identity device.old.disk.now }
    ensures same_disk { device.new.disk.ghost_name ≡ device.old.disk.ghost_name }
{
    let mut at = 0;
    while at < piece.len() {
        until(device, flight, buffers, sink, MOST_WAITING)?;
        let Ok((count, taken)) = incoming.take(buffers, &piece[at..]) else {
            return Err(Stop::Memory);
        };
        match taken {
            Taken::Part => {}
            Taken::Whole(whole) => ask(device, flight, buffers, sink, whole)?,
            Taken::Disconnected => return Ok(Some(PieceEnd::Disconnected)),
            Taken::Wrong { magic } => return Ok(Some(PieceEnd::Wrong { magic })),
        }
        at += count;
    }
    Ok(None)
}
