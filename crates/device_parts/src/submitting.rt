//! Taking requests in, and giving replies out. No disk is called for it, and no mode matters.
ghost use Rattle.std.specs.Prelude.{◌≡◌, ◌+◌, ◌<◌, ◌^◌, true};
ghost use Rattle.request_slots.specs.Flight.{is_in_flight, slot_of};
ghost use Rattle.request_slots.specs.Taking.{after_take, taken_by};
ghost use Rattle.device_parts.specs.Answers.{after_submission, submit_result};

use crate::{Condition, Parts};
use request_slots::{Reply, Request, SubmitFault, Ticket};

/// Takes a request, which comes last in order.
///
/// # Errors
///
/// The request comes back with `Broken` where the device is, and else as `Slots::submit` tells.
pub fn submit(
    parts: &mut Parts,
    condition: Condition,
    request: Request,
) -> Result<Ticket, (Request, SubmitFault)>
    requires { parts.old.slots.submitted + 1 < 2 ^ 64 }

    ensures answer { result ≡ submit_result condition parts.old.slots request }
    ensures submitted { parts.new ≡ record parts.old { slots = after_submission condition request parts.old.slots } }
{
    match condition {
        Condition::Broken => Err((request, SubmitFault::Broken)),
        Condition::Working => parts.slots.submit(request),
    }
}

/// Takes the reply to the request of this ticket.
///
/// # Errors
///
/// The ticket comes back where the request is not done.
pub fn take(parts: &mut Parts, ticket: Ticket) -> Result<Reply, Ticket>
    requires there { is_in_flight ticket parts.old.slots ≡ true }

    ensures reply { result ≡ taken_by ticket (slot_of ticket parts.old.slots) }
    ensures taken { parts.new ≡ record parts.old {
      slots =
          after_take ticket (slot_of ticket parts.old.slots) parts.old.slots;
    } }
{
    parts.slots.take(ticket)
}
