//! Serving a request: once, with room made for it, and to its end.
ghost use Rattle.std.specs.Prelude.{◌≡◌, IfOk, false, true};
ghost use Rattle.disk_model.specs.Causes.{HasCause};
ghost use Rattle.device_model.specs.Progress.{Serve};
ghost use Rattle.request_slots.specs.Flight.{is_in_flight};
ghost use Rattle.device_parts.specs.Answers.{condition_by, served_answer};
ghost use Rattle.device.specs.Calls.{AnswersEvent, AnswersLast, HasFewerTurns, Runs, Works};
ghost use Rattle.device.specs.Run.{all_turns, one_serve, one_turn};
ghost use Rattle.device.specs.Telling.{Finishes, Tells, has_room_in};

use crate::{Device, make_room};
use device_parts::Served;
use request_slots::Ticket;
use sector_disk::{Disk, Failed};

/// Does what is next for a request.
///
/// # Errors
///
/// - `Failed`: the disk failed. The device is broken then.
pub fn serve<'d, 'p, D: Disk>(
    device: &mut Device<'d, 'p, D>,
    ticket: &Ticket,
) -> Result<Served, Failed>
    requires works { Works D.identity D.moments device.old.condition device.old.parts device.old.disk.now }
    requires there { is_in_flight ticket.now device.old.parts.common.slots ≡ true }

    ensures runs { Runs D.identity D.moments (one_serve ticket.now) device.old.parts device.new.parts
        device.old.disk.now device.new.disk.now result }
    ensures turn { device.new.condition ≡ condition_by result }
    ensures answers { AnswersEvent (Serve ticket.now) served_answer device.old.parts
        (D.moments device.old.disk.now) result }
    ensures goes_on { IfOk result (λ served. served ≡ Served.Did
        → HasFewerTurns ticket.now device.old.parts device.new.parts) }
    ensures no_room { IfOk result (λ served. served ≡ Served.NoRoom → device.new.parts ≡ device.old.parts) }
    ensures tells { Tells ticket.now device.old.parts device.new.parts
        (has_room_in device.old.parts.mode ≡ false) result }

    ensures cause { HasCause (D.faults device.old.disk.now) (D.faults device.new.disk.now) result }
    ensures same_disk { device.new.disk.ghost_name ≡ device.old.disk.ghost_name }
{
    match device.serve(ticket) {
        Ok(served) => Ok(served),
        Err(_) => Err(Failed),
    }
}

/// Does what is next for a request; where the journal has no room for it, room is made, and it is served again.
///
/// # Errors
///
/// - `Failed`: the disk failed. The device is broken then.
pub fn serve_with_room<'d, 'p, D: Disk>(
    device: &mut Device<'d, 'p, D>,
    ticket: &Ticket,
) -> Result<Served, Failed>
    requires works { Works D.identity D.moments device.old.condition device.old.parts device.old.disk.now }
    requires there { is_in_flight ticket.now device.old.parts.common.slots ≡ true }

    ensures runs { Runs D.identity D.moments (one_turn ticket.now) device.old.parts device.new.parts
        device.old.disk.now device.new.disk.now result }
    ensures turn { device.new.condition ≡ condition_by result }
    ensures answers { AnswersLast (one_turn ticket.now) served_answer device.old.parts
        (D.moments device.old.disk.now) result }
    ensures goes_on { IfOk result (λ served. served ≡ Served.Did
        → HasFewerTurns ticket.now device.old.parts device.new.parts) }
    ensures tells { Tells ticket.now device.old.parts device.new.parts ⊥ result }

    ensures cause { HasCause (D.faults device.old.disk.now) (D.faults device.new.disk.now) result }
    ensures same_disk { device.new.disk.ghost_name ≡ device.old.disk.ghost_name }
{
    match serve(device, ticket)? {
        Served::NoRoom => {
            make_room(device)?;
            serve(device, ticket)
        }
        served => Ok(served),
    }
}

/// Serves a request until it is done, or waits for another one. Room is made where the journal has none.
///
/// # Errors
///
/// - `Failed`: the disk failed. The device is broken then.
pub fn finish<'d, 'p, D: Disk>(
    device: &mut Device<'d, 'p, D>,
    ticket: &Ticket,
) -> Result<(), Failed>
    requires works { Works D.identity D.moments device.old.condition device.old.parts device.old.disk.now }
    requires there { is_in_flight ticket.now device.old.parts.common.slots ≡ true }

    ensures runs { Runs D.identity D.moments (all_turns ticket.now) device.old.parts device.new.parts
        device.old.disk.now device.new.disk.now result }
    ensures turn { device.new.condition ≡ condition_by result }
    ensures finishes { Finishes ticket.now device.old.parts device.new.parts result }

    ensures cause { HasCause (D.faults device.old.disk.now) (D.faults device.new.disk.now) result }
    ensures same_disk { device.new.disk.ghost_name ≡ device.old.disk.ghost_name }
{
    'turns: loop {
        match serve_with_room(device, ticket)? {
            Served::Did => {}
            Served::Held { .. } | Served::Done | Served::NoRoom => return Ok(()),
        }
    }
}
