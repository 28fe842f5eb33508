//! Runs the lines of a script, one after the other: each is run, and its text printed whole, before the next
//! one is taken.
ghost use Rattle.std.specs.Prelude.{◌≡◌, IfErr, OnOk};
ghost use Rattle.device_parts.specs.declared.condition.Condition.TheVariants.{Working};
ghost use Rattle.device.specs.Calls.{Works};
ghost use Rattle.device.specs.Device.{IsReady};
ghost use Rattle.command_run.specs.Lines.{BeginsScript, ReadsLines, RunsLines, StopsLines};
ghost use Rattle.command_task.specs.Calls.{HasCauseOfRun, IsCountedInRun};
ghost use Rattle.script_lines.specs.Ends.{EndsScript};

use crate::lines::run_bytes;
use command_ending::Ended;
use device::Device;
use script_lines::{advance, either};
use script_reader::LineReader;
use script_session::Tickets;
use script_text::TagsFound;
use sector_disk::Disk;
use std::alloc::Global;
use stream_io::{Sink, Source};

/// Runs the lines of a script on a device that has just been opened, up to the last. It tells whether one of
/// them told a block whose stored tag differs.
///
/// # Errors
///
/// - `Line`, `Length`: the script is refused from there on.
/// - `Disk`, `Script`, `Sink`: that failed.
/// - `Memory`: there is none for what a line needs.
pub(crate) fn run_lines<'d, 'p, D: Disk, S: Source, O: Sink>(
    alloc: Global,
    device: &mut Device<'d, 'p, D>,
    reader: &mut LineReader,
    script: &mut S,
    out: &mut O,
) -> Result<TagsFound, Ended>
    requires works { Works D.identity D.moments device.old.condition device.old.parts device.old.disk.now }
    requires begins { BeginsScript device.old.parts.common.slots reader.old }

    ensures lines { RunsLines D.moments S.left O.held result device.old.parts device.new.parts
        device.old.disk.now device.new.disk.now script.old out.old out.new }

    ensures stopped { StopsLines D.moments S.left O.held result device.old.parts
        device.old.disk.now device.new.disk.now script.old out.old out.new }
    ensures ends { IfErr result EndsScript }
    ensures cause { HasCauseOfRun D.faults S.faults O.faults result
        device.old.disk.now device.new.disk.now script.old script.new out.old out.new }
    ensures counted { IsCountedInRun D.faults S.faults O.faults result
        device.old.disk.now device.new.disk.now script.old script.new out.old out.new }

    ensures taken { ReadsLines D.moments S.left O.held S.faults result device.old.parts device.old.disk.now
        script.old script.new out.old out.new }
    ensures works { OnOk result (device.new.condition ≡ Working) }
    ensures ready { IsReady device.new.condition device.new.parts
        (D.identity device.new.disk.now) (D.moments device.new.disk.now) }
    ensures identity { D.identity device.new.disk.now ≡ D.identity device.old.disk.now }
    ensures same_disk { device.new.disk.ghost_name ≡ device.old.disk.ghost_name }
{
    let mut tickets = Tickets::new(alloc);
    let mut found = TagsFound::Matching;
    let mut number = 1;
    while advance(reader, script, number)? {
        let told = run_bytes(alloc, device, &mut tickets, reader.line(), number, out)?;
        found = either(found, told);
        number += 1;
    }
    Ok(found)
}
