//! Runs one request whole on a device that has none in flight.
ghost use Rattle.std.specs.Prelude.{◌≡◌, ◌+◌, ◌<◌, ◌^◌, IfOk, OnOk, None};
ghost use Rattle.disk_model.specs.Causes.{HasCause};
ghost use Rattle.device.specs.Calls.{refusal_to};
ghost use Rattle.request_slots.specs.InFlight.{as_submission};
ghost use Rattle.mirror_core.specs.Answered.{IsReplyTo};
ghost use Rattle.mirror_core.specs.Stands.{IsLeg};
ghost use Rattle.mirror_core.specs.Whole.{LeavesOn, RunsOn};

use device::{Device, finish};
use request_slots::{Reply, Request};
use sector_disk::{Disk, Failed};

/// Submits a request that is not refused, serves it to its end, with room made where the journal has none, and takes
/// its reply.
///
/// # Errors
///
/// - `Failed`: the disk failed. The device is broken then.
pub(crate) fn run_whole<'d, 'p, D: Disk>(
    device: &mut Device<'d, 'p, D>,
    request: Request,
) -> Result<Reply, Failed>
    requires leg { IsLeg D.identity D.moments device.old.condition device.old.parts device.old.disk.now }
    requires few { device.old.parts.common.slots.submitted + 1 < 2 ^ 64 }
    requires taken { refusal_to device.old.parts device.old.condition request ≡ None }

    ensures ran { IfOk result (λ reply. RunsOn (as_submission request) reply device.old.parts device.new.parts
        (D.moments device.old.disk.now) (D.moments device.new.disk.now)) }
    ensures answered { IfOk result (IsReplyTo request) }
    ensures leg { OnOk result (IsLeg D.identity D.moments device.new.condition device.new.parts device.new.disk.now) }
    ensures submitted { OnOk result (device.new.parts.common.slots.submitted
        ≡ device.old.parts.common.slots.submitted + 1) }

    ensures cause { HasCause (D.faults device.old.disk.now) (D.faults device.new.disk.now) result }

    ensures blocks { device.new.parts.common.slots.blocks ≡ device.old.parts.common.slots.blocks }
    ensures size { device.new.parts.common.slots.block_size ≡ device.old.parts.common.slots.block_size }
    ensures same_disk { device.new.disk.ghost_name ≡ device.old.disk.ghost_name }
    ensures identity { D.identity device.new.disk.now ≡ D.identity device.old.disk.now }

    ensures left { LeavesOn (as_submission request) device.old.parts
        (D.moments device.old.disk.now) (D.moments device.new.disk.now) }
{
    let ticket = match device.submit(request) {
        Ok(ticket) => ticket,
        Err(_) => unreachable!(),
    };
    finish(device, &ticket)?;
    match device.take(ticket) {
        Ok(reply) => Ok(reply),
        Err(_) => unreachable!(),
    }
}
