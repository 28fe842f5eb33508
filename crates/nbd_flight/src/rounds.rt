//! Rounds of the requests in flight, in each of which every one is served once.
ghost use Rattle.std.specs.Prelude.{◌≡◌, ◌≢◌, ◌<◌, Err, IfOk, OnOk, vec_len};
ghost use Rattle.std.specs.List.{remove};
ghost use Rattle.device.specs.Calls.{Works};
ghost use Rattle.nbd_flight.specs.Deeds.{scene_of};
ghost use Rattle.nbd_flight.specs.Flight.{AreHeld};
ghost use Rattle.nbd_flight.specs.Rounds.{HasCauses, Makes, MakesRounds, RepliesTo, Serves, Stays, StopsIn, StopsReplying};
ghost use Rattle.nbd_flight.specs.Rounds.{StopsRounds, StopsServing, one_round, places_behind, waiting_after};

use crate::flight::Waiting;
use crate::replying::{is_damage, put_reply};
use crate::{Buffers, Flight, Stop};
use device::{Device, serve_with_room};
use device_parts::Served;
use sector_disk::Disk;
use stream_io::Sink;

/// What came of a request that was served.
#[derive(Drop)]
enum Turn {
    /// It stays in flight.
    Waits,
    /// It is done and replied to.
    Over,
}

/// Makes rounds as long as more than so many are in flight. In each of them the first one goes on, since none holds it.
///
/// # Errors
///
/// - `Disk`: the disk failed. The device is broken then.
/// - `Sink`: the sink failed.
pub fn until<'d, 'p, D: Disk, O: Sink>(
    device: &mut Device<'d, 'p, D>,
    flight: &mut Flight,
    buffers: &mut Buffers,
    sink: &mut O,
    most: usize,
) -> Result<(), Stop>
    requires works { Works D.identity D.moments device.old.condition device.old.parts device.old.disk.now }
    requires held { AreHeld 0 flight.old.waiting.items device.old.parts.common.slots }

    ensures ran { MakesRounds most result flight.old flight.new
        (scene_of D.moments O.held device.old.parts device.old.disk.now sink.old)
        (scene_of D.moments O.held device.new.parts device.new.disk.now sink.new) }

    ensures stopped { StopsRounds most result flight.old
        (scene_of D.moments O.held device.old.parts device.old.disk.now sink.old)
        (scene_of D.moments O.held device.new.parts device.new.disk.now sink.new) }
    ensures cause { HasCauses (D.faults device.old.disk.now) (D.faults device.new.disk.now)
        (O.faults sink.old) (O.faults sink.new) result }
    ensures memory { result ≢ Err Stop.Memory }

    ensures stays { OnOk result (Stays 0 D.identity D.moments device.new.condition device.old.parts device.new.parts
        device.new.disk.now flight.new) }
    ensures identity { D.identity device.new.disk.now ≡ D.identity device.old.disk.now }
    ensures same_disk { device.new.disk.ghost_name ≡ device.old.disk.ghost_name }
{
    for _round in 0..u64::MAX {
        if flight.waiting.len() <= most {
            return Ok(());
        }
        round(device, flight, buffers, sink)?;
    }
    Ok(())
}

/// Serves each request in flight once, in order of submission, and replies to those that are done.
///
/// # Errors
///
/// - `Disk`: the disk failed. The device is broken then.
/// - `Sink`: the sink failed.
fn round<'d, 'p, D: Disk, O: Sink>(
    device: &mut Device<'d, 'p, D>,
    flight: &mut Flight,
    buffers: &mut Buffers,
    sink: &mut O,
) -> Result<(), Stop>
    requires works { Works D.identity D.moments device.old.condition device.old.parts device.old.disk.now }
    requires held { AreHeld 0 flight.old.waiting.items device.old.parts.common.slots }

    ensures ran { Makes one_round result flight.old flight.new
        (scene_of D.moments O.held device.old.parts device.old.disk.now sink.old)
        (scene_of D.moments O.held device.new.parts device.new.disk.now sink.new) }

    ensures stopped { StopsIn one_round result flight.old
        (scene_of D.moments O.held device.old.parts device.old.disk.now sink.old)
        (scene_of D.moments O.held device.new.parts device.new.disk.now sink.new) }
    ensures cause { HasCauses (D.faults device.old.disk.now) (D.faults device.new.disk.now)
        (O.faults sink.old) (O.faults sink.new) result }
    ensures memory { result ≢ Err Stop.Memory }

    ensures stays { OnOk result (Stays 0 D.identity D.moments device.new.condition device.old.parts device.new.parts
        device.new.disk.now flight.new) }
    ensures identity { D.identity device.new.disk.now ≡ D.identity device.old.disk.now }
    ensures same_disk { device.new.disk.ghost_name ≡ device.old.disk.ghost_name }
{
    let mut at = 0;
    while at < flight.waiting.len() {
        let turn = serve(device, flight, buffers, sink, at)?;
        at += places(turn);
    }
    Ok(())
}

/// How many places behind a request that was served the next one is.
fn places(turn: Turn) -> usize
    ensures { result ≡ places_behind turn }
{
    match turn {
        Turn::Waits => 1,
        Turn::Over => 0,
    }
}

/// Serves the request at a place once, and replies to it where it is done. Room is made where the journal has none.
///
/// # Errors
///
/// - `Disk`: the disk failed. The device is broken then.
/// - `Sink`: the sink failed.
fn serve<'d, 'p, D: Disk, O: Sink>(
    device: &mut Device<'d, 'p, D>,
    flight: &mut Flight,
    buffers: &mut Buffers,
    sink: &mut O,
    at: usize,
) -> Result<Turn, Stop>
    requires works { Works D.identity D.moments device.old.condition device.old.parts device.old.disk.now }
    requires held { AreHeld 0 flight.old.waiting.items device.old.parts.common.slots }
    requires at { at < vec_len flight.old.waiting }

    ensures served { Serves at result flight.old flight.new
        (scene_of D.moments O.held device.old.parts device.old.disk.now sink.old)
        (scene_of D.moments O.held device.new.parts device.new.disk.now sink.new) }

    ensures stopped { StopsServing at result flight.old
        (scene_of D.moments O.held device.old.parts device.old.disk.now sink.old)
        (scene_of D.moments O.held device.new.parts device.new.disk.now sink.new) }
    ensures cause { HasCauses (D.faults device.old.disk.now) (D.faults device.new.disk.now)
        (O.faults sink.old) (O.faults sink.new) result }
    ensures memory { result ≢ Err Stop.Memory }

    ensures left { IfOk result (λ turn. flight.new.waiting.items
        ≡ waiting_after turn at flight.old.waiting.items) }
    ensures stays { OnOk result (Stays 0 D.identity D.moments device.new.condition device.old.parts device.new.parts
        device.new.disk.now flight.new) }
    ensures identity { D.identity device.new.disk.now ≡ D.identity device.old.disk.now }
    ensures same_disk { device.new.disk.ghost_name ≡ device.old.disk.ghost_name }
{
    let served = match serve_with_room(device, &flight.waiting[at].ticket) {
        Ok(served) => served,
        Err(_) => return Err(Stop::Disk),
    };
    match served {
        Served::Done => {
            reply(device, flight, buffers, sink, at)?;
            Ok(Turn::Over)
        }
        _ => Ok(Turn::Waits),
    }
}

/// Takes the reply of the request at a place, which is done, and writes it. Its buffer may be used again then.
///
/// # Errors
///
/// - `Sink`: the sink failed.
fn reply<'d, 'p, D: Disk, O: Sink>(
    device: &mut Device<'d, 'p, D>,
    flight: &mut Flight,
    buffers: &mut Buffers,
    sink: &mut O,
    at: usize,
) -> Result<(), Stop>
    requires works { Works D.identity D.moments device.old.condition device.old.parts device.old.disk.now }
    requires held { AreHeld 0 flight.old.waiting.items device.old.parts.common.slots }
    requires at { at < vec_len flight.old.waiting }

    ensures replied { RepliesTo at result flight.old flight.new
        (scene_of D.moments O.held device.old.parts device.old.disk.now sink.old)
        (scene_of D.moments O.held device.new.parts device.new.disk.now sink.new) }

    ensures stopped { StopsReplying at result flight.old
        (scene_of D.moments O.held device.old.parts device.old.disk.now sink.old)
        (scene_of D.moments O.held device.new.parts device.new.disk.now sink.new) }
    ensures cause { HasCauses (D.faults device.old.disk.now) (D.faults device.new.disk.now)
        (O.faults sink.old) (O.faults sink.new) result }
    ensures memory { result ≢ Err Stop.Memory }

    ensures left { flight.new.waiting.items ≡ remove flight.old.waiting.items at }
    ensures stays { OnOk result (Stays 0 D.identity D.moments device.new.condition device.old.parts device.new.parts
        device.new.disk.now flight.new) }
    ensures identity { D.identity device.new.disk.now ≡ D.identity device.old.disk.now }
    ensures same_disk { device.new.disk.ghost_name ≡ device.old.disk.ghost_name }
{
    let Waiting { ticket, cookie } = flight.waiting.remove(at);
    match device.take(ticket) {
        Ok(reply) => {
            flight.eio |= is_damage(&reply);
            match put_reply(sink, cookie, &reply) {
                Ok(()) => {
                    buffers.take_back(reply);
                    Ok(())
                }
                Err(_) => Err(Stop::Sink),
            }
        }
        Err(_) => Ok(()),
    }
}
