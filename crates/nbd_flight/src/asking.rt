//! A request that came whole, refused or handed in to the device.
ghost use Rattle.std.specs.Prelude.{◌≡◌, ◌+◌, ◌<◌, ◌^◌, ℕ, IfOk, List, OnOk, Option, option_map, replicate, vec_capacity, vec_len};
ghost use Rattle.device.specs.Calls.{Works};
ghost use Rattle.request_slots.specs.InFlight.{as_submission};
ghost use Rattle.nbd_flight.specs.Asking.{Asks, StopsAsking, Submits, handed_for};
ghost use Rattle.nbd_flight.specs.Deeds.{scene_of, scene_with};
ghost use Rattle.nbd_flight.specs.Flight.{AreHeld};
ghost use Rattle.nbd_flight.specs.Rounds.{HasCauses, Stays};

use crate::flight::Waiting;
use crate::replying::refuse;
use crate::{Asked, Buffers, Flight, Stop, Whole};
use device::Device;
use request_slots::{Bytes, Request};
use sector_disk::{Disk, Memory};
use stream_io::Sink;

/// Refuses a request that came whole, or hands it in. No disk is called.
///
/// # Errors
///
/// - `Memory`: there is none for the request, which is not handed in.
/// - `Sink`: the sink failed.
pub fn ask<'d, 'p, D: Disk, O: Sink>(
    device: &mut Device<'d, 'p, D>,
    flight: &mut Flight,
    buffers: &mut Buffers,
    sink: &mut O,
    whole: Whole,
) -> Result<(), Stop>
    requires works { Works D.identity D.moments device.old.condition device.old.parts device.old.disk.now }
    requires held { AreHeld 0 flight.old.waiting.items device.old.parts.common.slots }
    requires number { device.old.parts.common.slots.submitted + 1 < 2 ^ 64 }

    ensures asked { Asks whole result flight.old flight.new
        (scene_of D.moments O.held device.old.parts device.old.disk.now sink.old)
        (scene_of D.moments O.held device.new.parts device.new.disk.now sink.new) }

    ensures stopped { StopsAsking whole result flight.old
        (scene_of D.moments O.held device.old.parts device.old.disk.now sink.old)
        (scene_of D.moments O.held device.new.parts device.new.disk.now sink.new) }
    ensures cause { HasCauses (D.faults device.old.disk.now) (D.faults device.new.disk.now)
        (O.faults sink.old) (O.faults sink.new) result }

    ensures stays { OnOk result (Stays 1 D.identity D.moments device.new.condition device.old.parts device.new.parts
        device.new.disk.now flight.new) }
    ensures disk { device.new.disk.now ≡ device.old.disk.now }
    ensures same_disk { device.new.disk.ghost_name ≡ device.old.disk.ghost_name }
{
    let cookie = whole.request.cookie;
    let Ok(()) = flight.make_room() else {
        return Err(Stop::Memory);
    };
    match request_of(buffers, whole) {
        Ok(Some(request)) => {
            submit(device, flight, request, cookie);
            Ok(())
        }
        Ok(None) => match refuse(sink, cookie) {
            Ok(()) => Ok(()),
            Err(_) => Err(Stop::Sink),
        },
        Err(_) => Err(Stop::Memory),
    }
}

/// What is handed in for a request that came whole, if it is not refused. A read brings zeros.
///
/// # Errors
///
/// - `Memory`: there is none for a read's buffer.
fn request_of(buffers: &mut Buffers, whole: Whole) -> Result<Option<Request>, Memory>
    ensures { IfOk result (λ request. option_map as_submission request
        ≡ handed_for whole.asked whole.request.length whole.bytes.items) }
{
    let Whole {
        request,
        asked,
        bytes,
    } = whole;
    match asked {
        Asked::Read { first, count } => {
            let buffer = zeros(buffers, request.length)?;
            Ok(Some(Request::Read {
                first,
                count,
                buffer,
            }))
        }
        Asked::Write { first, count, fua } => Ok(Some(Request::Write {
            first,
            count,
            bytes: Bytes::from_vec(bytes),
            fua,
        })),
        Asked::Flush => Ok(Some(Request::Flush)),
        Asked::Disconnect | Asked::Refused => Ok(None),
    }
}

/// So many zeros.
fn zeros(buffers: &mut Buffers, length: u32) -> Result<Bytes, Memory>
    ensures { IfOk result (λ bytes. bytes ≡ replicate length 0) }
{
    let mut bytes = buffers.next(length as usize)?;
    match bytes.resize(length as usize, 0) {
        Ok(()) => Ok(Bytes::from_vec(bytes)),
        Err(_) => Err(Memory),
    }
}

/// Hands a request in. Where it gets a ticket it is in flight, behind all others; there is room for it.
fn submit<'d, 'p, D: Disk>(
    device: &mut Device<'d, 'p, D>,
    flight: &mut Flight,
    request: Request,
    cookie: u64,
)
    requires works { Works D.identity D.moments device.old.condition device.old.parts device.old.disk.now }
    requires held { AreHeld 0 flight.old.waiting.items device.old.parts.common.slots }
    requires number { device.old.parts.common.slots.submitted + 1 < 2 ^ 64 }
    requires room { vec_len flight.old.waiting < vec_capacity flight.old.waiting }

    ensures submitted { (held : Option (List ℕ)) → Submits flight.old flight.new (as_submission request) cookie
        (scene_with held D.moments device.old.parts device.old.disk.now)
        (scene_with held D.moments device.new.parts device.new.disk.now) }

    ensures stays { Stays 1 D.identity D.moments device.new.condition device.old.parts device.new.parts
        device.new.disk.now flight.new }
    ensures disk { device.new.disk.now ≡ device.old.disk.now }
    ensures same_disk { device.new.disk.ghost_name ≡ device.old.disk.ghost_name }
{
    match device.submit(request) {
        Ok(ticket) => flight.waiting.push_reserved(Waiting { ticket, cookie }),
        Err(refusal) => drop(refusal),
    }
}
