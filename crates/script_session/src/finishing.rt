//! Serves the requests in flight until they are done.
ghost use Rattle.std.specs.Prelude.{◌≡◌};
ghost use Rattle.disk_model.specs.Causes.{HasCause};
ghost use Rattle.device_parts.specs.Answers.{condition_by};
ghost use Rattle.device.specs.Calls.{Runs, Works};
ghost use Rattle.script_session.specs.LineRun.{all_finishes};
ghost use Rattle.script_session.specs.Tickets.{AreInFlight};

use crate::Tickets;
use device::{Device, finish};
use sector_disk::{Disk, Failed};

/// Serves each request in flight until it is done, in order. Room is made where the journal has none.
///
/// # Errors
///
/// - `Failed`: the disk failed. The device is broken then.
pub(crate) fn finish_all<'d, 'p, D: Disk>(
    device: &mut Device<'d, 'p, D>,
    tickets: &Tickets,
) -> Result<(), Failed>
    requires works { Works D.identity D.moments device.old.condition device.old.parts device.old.disk.now }
    requires tickets { AreInFlight tickets.now device.old.parts.common.slots }

    ensures runs { Runs D.identity D.moments all_finishes device.old.parts device.new.parts
        device.old.disk.now device.new.disk.now result }
    ensures turn { device.new.condition ≡ condition_by result }

    ensures cause { HasCause (D.faults device.old.disk.now) (D.faults device.new.disk.now) result }
    ensures same_disk { device.new.disk.ghost_name ≡ device.old.disk.ghost_name }
{
    for waiting in &tickets.waiting {
        finish(device, &waiting.ticket)?;
    }
    Ok(())
}
