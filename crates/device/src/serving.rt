//! Serving a request, in the device's mode.
ghost use Rattle.std.specs.Prelude.{◌≡◌, Ok, false, true};
ghost use Rattle.disk_model.specs.Causes.{HasCause};
ghost use Rattle.request_slots.specs.Flight.{is_in_flight, turn_of};
ghost use Rattle.device_parts.specs.Answers.{HasStepCause, ServesNext, TurnsBroken};
ghost use Rattle.device_parts.specs.declared.answers.Served.TheVariants.{Did, NoRoom};
ghost use Rattle.device_parts.specs.declared.condition.Condition.TheVariants.{Working};
ghost use Rattle.device_model.specs.Progress.{FailedServe};
ghost use Rattle.device.specs.Answers.{KeepsClearTags, WritesInServe, NeedsNoRead};
ghost use Rattle.device.specs.Calls.{HasFewerTurns, Keeps, Serves, WritesServing};
ghost use Rattle.device.specs.Device.{IsReady, any_mode};
ghost use Rattle.device.specs.Telling.{Tells, has_room_in};

use crate::{DeviceParts, Mode};
use device_parts::{Condition, Served, StepFault};
use request_slots::Ticket;
use sector_disk::{Disk, Failed};

/// Does what is next for a request. A broken device makes no call of its disk.
///
/// # Errors
///
/// - `Disk`: the disk failed. The device is broken from then on.
/// - `Broken`: the device is.
pub(crate) fn serve<D: Disk>(
    disk: &mut D,
    parts: &mut DeviceParts<'_>,
    condition: &mut Condition,
    ticket: &Ticket,
) -> Result<Served, StepFault>
    requires ready { IsReady condition.old parts.old (D.identity disk.old) (D.moments disk.old) }
    requires there { is_in_flight ticket.now parts.old.common.slots ≡ true }

    ensures served { Serves ticket.now result condition.old parts.old parts.new
        (D.moments disk.old) (D.moments disk.new) }
    ensures goes_on { result ≡ Ok Did → HasFewerTurns ticket.now parts.old parts.new }
    ensures no_room { result ≡ Ok NoRoom
        → (parts.new ≡ parts.old) × (D.moments disk.new ≡ D.moments disk.old) }
    ensures tells { Tells ticket.now parts.old parts.new (has_room_in parts.old.mode ≡ false) result }

    ensures cause { HasStepCause (D.faults disk.old) (D.faults disk.new) result }
    ensures condition { TurnsBroken condition.old condition.new result disk.old disk.new }

    ensures keeps { Keeps result parts.old parts.new
        (D.identity disk.old) (D.identity disk.new) (D.moments disk.new) }
    ensures unread { NeedsNoRead parts.old.mode (turn_of parts.old.common.slots ticket.now)
        → D.reads disk.new ≡ D.reads disk.old }
    ensures tags { KeepsClearTags parts.old.mode parts.old.common (FailedServe ticket.now)
        (D.moments disk.old) (D.moments disk.new) }
    ensures writes { WritesServing condition.old ticket.now parts.old parts.new
        (D.moments disk.old) (D.moments disk.new) }
{
    match *condition {
        Condition::Broken => Err(StepFault::Broken),
        Condition::Working => match serve_next(disk, parts, ticket) {
            Ok(served) => Ok(served),
            Err(_) => {
                *condition = Condition::Broken;
                Err(StepFault::Disk)
            }
        },
    }
}

/// Does what is next for a request of a device that works, as its mode does it.
///
/// # Errors
///
/// - `Failed`: the disk failed. The device is broken then.
fn serve_next<D: Disk>(
    disk: &mut D,
    parts: &mut DeviceParts<'_>,
    ticket: &Ticket,
) -> Result<Served, Failed>
    requires ready { IsReady Working parts.old (D.identity disk.old) (D.moments disk.old) }
    requires there { is_in_flight ticket.now parts.old.common.slots ≡ true }

    ensures next { ServesNext any_mode ticket.now parts.old parts.new
        (D.moments disk.old) (D.moments disk.new) result }
    ensures tells { Tells ticket.now parts.old parts.new (has_room_in parts.old.mode ≡ false) result }

    ensures cause { HasCause (D.faults disk.old) (D.faults disk.new) result }

    ensures keeps { Keeps result parts.old parts.new
        (D.identity disk.old) (D.identity disk.new) (D.moments disk.new) }
    ensures unread { NeedsNoRead parts.old.mode (turn_of parts.old.common.slots ticket.now)
        → D.reads disk.new ≡ D.reads disk.old }
    ensures tags { KeepsClearTags parts.old.mode parts.old.common (FailedServe ticket.now)
        (D.moments disk.old) (D.moments disk.new) }
    ensures writes { WritesInServe parts.old.mode ticket.now parts.old.common parts.new.common
        (D.moments disk.old) (D.moments disk.new) }
{
    match &mut parts.mode {
        Mode::Direct(recalculation) => {
            direct_device::serve(disk, &mut parts.common, recalculation, ticket)
        }
        Mode::Journal(state) => journal_device::serve(disk, &mut parts.common, state, ticket),
        Mode::Bitmap(regions) => bitmap_device::serve(disk, &mut parts.common, regions, ticket),
        Mode::Recovery => recovery_device::serve(disk, &mut parts.common, ticket),
    }
}
