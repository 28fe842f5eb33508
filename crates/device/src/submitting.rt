//! Taking requests in, which recovery mode does of those that are no write, and giving replies out. No disk is called
//! for it.
ghost use Rattle.std.specs.Prelude.{◌≡◌, ◌+◌, ◌<◌, ◌^◌, suc, List, true};
ghost use Rattle.disk_model.specs.Disk.{Content};
ghost use Rattle.request_slots.specs.Flight.{is_in_flight, slot_of};
ghost use Rattle.request_slots.specs.Taking.{after_take, taken_by};
ghost use Rattle.request_slots.specs.Submitting.{answer_by};
ghost use Rattle.device_parts.specs.declared.condition.Condition.{Condition};
ghost use Rattle.device.specs.Calls.{GivesSerial, Submits, Takes, refusal_to, with_submitted};
ghost use Rattle.device.specs.Device.{with_slots};

use crate::{DeviceParts, Mode};
use device_parts::Condition;
use request_slots::{Reply, Request, SubmitFault, Ticket};

/// Takes a request, which comes last in order.
///
/// # Errors
///
/// The request comes back with `Broken` where the device is, with `ReadOnly` where it is a write in recovery mode, and
/// else as `Slots::submit` tells.
pub(crate) fn submit(
    parts: &mut DeviceParts<'_>,
    condition: Condition,
    request: Request,
) -> Result<Ticket, (Request, SubmitFault)>
    requires { parts.old.common.slots.submitted + 1 < 2 ^ 64 }

    ensures answer { result ≡ answer_by (refusal_to parts.old condition request)
        (suc parts.old.common.slots.submitted) request }
    ensures submitted { parts.new ≡ with_submitted parts.old condition request }
    ensures done { (moments : List Content) → Submits request condition parts.old parts.new moments moments }
{
    match parts.mode {
        Mode::Recovery => recovery_device::submit(&mut parts.common, condition, request),
        _ => device_parts::submit(&mut parts.common, condition, request),
    }
}

/// Takes the reply to the request of this ticket.
///
/// # Errors
///
/// The ticket comes back where the request is not done.
pub(crate) fn take(parts: &mut DeviceParts<'_>, ticket: Ticket) -> Result<Reply, Ticket>
    requires there { is_in_flight ticket parts.old.common.slots ≡ true }

    ensures reply { result ≡ taken_by ticket (slot_of ticket parts.old.common.slots) }
    ensures taken { parts.new ≡ with_slots parts.old
        (after_take ticket (slot_of ticket parts.old.common.slots) parts.old.common.slots) }
    ensures done { (condition : Condition) (moments : List Content)
        → Takes ticket result condition parts.old parts.new moments moments }
    ensures serial { (condition : Condition) (moments : List Content)
        → GivesSerial ticket condition parts.old moments result }
{
    device_parts::take(&mut parts.common, ticket)
}
