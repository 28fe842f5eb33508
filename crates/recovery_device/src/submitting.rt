//! Taking requests in: each that is no write. No disk is called for it.
ghost use Rattle.std.specs.Prelude.{◌≡◌, ◌+◌, ◌<◌, ◌^◌, suc, List};
ghost use Rattle.disk_model.specs.Disk.{Content};
ghost use Rattle.disk_model.specs.Identity.{DiskIdentity};
ghost use Rattle.request_slots.specs.Submitting.{after_submit, answer_by};
ghost use Rattle.recovery_device.specs.Answers.{Submits, own_refusal, refusal_of};
ghost use Rattle.recovery_device.specs.Device.{IsReady};

use device_parts::{Condition, Parts};
use request_slots::{Request, SubmitFault, Ticket};

/// Takes a request, which comes last in order.
///
/// # Errors
///
/// The request comes back with the first of these, and nothing is changed.
///
/// - `Broken`: the device is.
/// - `ReadOnly`: it is a write, whatever else is against it.
/// - `Range`, `Length`, `SlotsFull`: as `Slots::submit` tells.
pub fn submit(
    parts: &mut Parts,
    condition: Condition,
    request: Request,
) -> Result<Ticket, (Request, SubmitFault)>
    requires { parts.old.slots.submitted + 1 < 2 ^ 64 }

    ensures answer { result ≡ answer_by (refusal_of condition parts.old.slots request)
        (suc parts.old.slots.submitted) request }
    ensures submitted { parts.new ≡ record parts.old {
      slots =
          after_submit (refusal_of condition parts.old.slots request) request parts.old.slots;
    } }
    ensures done { (moments : List Content) → Submits request condition parts.old parts.new moments }

    ensures ready { (disk : DiskIdentity) (moments : List Content)
        → IsReady parts.old disk moments → IsReady parts.new disk moments }
{
    if let Some(fault) = own_refusal(condition, &request) {
        return Err((request, fault));
    }
    parts.slots.submit(request)
}

/// Why a request is refused whatever its blocks are, if it is.
fn own_refusal(condition: Condition, request: &Request) -> Option<SubmitFault>
    ensures { result ≡ own_refusal condition request.now }
{
    match (condition, request) {
        (Condition::Broken, _) => Some(SubmitFault::Broken),
        (_, Request::Write { .. }) => Some(SubmitFault::ReadOnly),
        _ => None,
    }
}
