//! Runs one line of a script, read from its bytes.
ghost use Rattle.std.specs.Prelude.{◌≡◌, ◌+◌, ◌<◌, ◌^◌, IfErr, OnOk};
ghost use Rattle.device_parts.specs.declared.condition.Condition.TheVariants.{Working};
ghost use Rattle.device.specs.Calls.{Works};
ghost use Rattle.script_session.specs.Calls.{StaysOn};
ghost use Rattle.script_session.specs.Tickets.{AreInFlight};
ghost use Rattle.command_task.specs.Calls.{HasCauseOfTask, IsCountedInTask};
ghost use Rattle.command_run.specs.Lines.{RunsBytes, StopsAtBytes};
ghost use Rattle.script_lines.specs.Ends.{EndsScript};

use command_ending::{Ended, FormFault, LineRefusal, Refusal};
use device::Device;
use script_lines::ended_by;
use script_session::{Tickets, run_line};
use script_text::{TagsFound, read_line};
use sector_disk::Disk;
use std::alloc::Global;
use stream_io::Sink;

/// Runs the line that these bytes are, which has this number, and prints what it is told.
///
/// # Errors
///
/// - `Line`: the bytes are no line, or one that has no meaning here.
/// - `Disk`, `Sink`: that failed.
/// - `Memory`: there is none for what the line needs.
pub(crate) fn run_bytes<'d, 'p, D: Disk, O: Sink>(
    alloc: Global,
    device: &mut Device<'d, 'p, D>,
    tickets: &mut Tickets,
    bytes: &[u8],
    number: u64,
    out: &mut O,
) -> Result<TagsFound, Ended>
    requires works { Works D.identity D.moments device.old.condition device.old.parts device.old.disk.now }
    requires tickets { AreInFlight tickets.old device.old.parts.common.slots }
    requires number { device.old.parts.common.slots.submitted + 1 < 2 ^ 64 }

    ensures ran { RunsBytes D.moments O.held bytes.now result device.old.parts device.new.parts
        device.old.disk.now device.new.disk.now out.old out.new }

    ensures stopped { StopsAtBytes D.moments O.held number bytes.now result device.old.parts
        device.old.disk.now device.new.disk.now out.old out.new }

    ensures ends { IfErr result EndsScript }
    ensures cause { HasCauseOfTask D.faults O.faults result device.old.disk.now device.new.disk.now out.old out.new }
    ensures counted { IsCountedInTask D.faults O.faults result
        device.old.disk.now device.new.disk.now out.old out.new }

    ensures works { OnOk result (device.new.condition ≡ Working) }
    ensures stays { StaysOn D.identity D.moments device.new.condition device.old.parts device.new.parts
        tickets.new device.old.disk.now device.new.disk.now }
    ensures same_disk { device.new.disk.ghost_name ≡ device.old.disk.ghost_name }
{
    match read_line(bytes) {
        Ok(line) => match run_line(alloc, device, tickets, &line, out) {
            Ok(found) => Ok(found),
            Err(end) => Err(ended_by(end, number)),
        },
        Err(fault) => match FormFault::of(alloc, fault) {
            Ok(fault) => Err(Ended::Refused(Refusal::Line {
                number,
                refusal: LineRefusal::Form(fault),
            })),
            Err(_) => Err(Ended::Memory),
        },
    }
}
