//! Runs a script on a mirror that has just been made, and closes it.
ghost use Rattle.std.specs.Prelude.{◌≡◌, [], false, IfErr};
ghost use Rattle.disk_model.specs.Causes.{Rose};
ghost use Rattle.mirror_core.specs.Stands.{IsLeg};
ghost use Rattle.script_lines.specs.Ends.{EndsScript, IsCounted};
ghost use Rattle.command_mirror.specs.Calls.{HasCauseOfMirror, IsCountedInMirror, ReadsOnLegs};
ghost use Rattle.command_mirror.specs.Calls.{RunsOnLegs, TellsClosed, ending_by, shown_of};

use command_ending::{Ended, Outer};
use mirror_core::{Mirror, close, give_back};
use mirror_run::run_script;
use script_reader::LineReader;
use script_text::TagsFound;
use sector_disk::Disk;
use std::alloc::Global;
use stream_io::{Sink, Source, put_all};

/// Levels a mirror, runs the lines of a script on it, closes it, and prints `closed`. It gives the disks back, and tells
/// in `ended` how that ended.
pub(crate) fn run_mirror<'a, 'b, 'p, 'q, D: Disk, E: Disk, S: Source, O: Sink>(
    alloc: Global,
    mut mirror: Mirror<'a, 'b, 'p, 'q, D, E>,
    reader: &mut LineReader,
    script: &mut S,
    out: &mut O,
    ended: &mut Result<TagsFound, Ended>,
) -> (&'a mut D, &'b mut E)
    requires unbroken { mirror.broken ≡ false }
    requires first { IsLeg D.identity D.moments
        mirror.a.device.condition mirror.a.device.parts mirror.a.device.disk.now }
    requires second { IsLeg E.identity E.moments
        mirror.b.device.condition mirror.b.device.parts mirror.b.device.disk.now }
    requires unasked { mirror.a.device.parts.common.slots.submitted ≡ 0 }
    requires second_unasked { mirror.b.device.parts.common.slots.submitted ≡ 0 }
    requires blocks { mirror.a.device.parts.common.slots.blocks ≡ mirror.b.device.parts.common.slots.blocks }
    requires sizes { mirror.a.device.parts.common.slots.block_size ≡ mirror.b.device.parts.common.slots.block_size }
    requires reader { reader.old ≡ record { unread = []; line = []; taken = 0 } }

    ensures ran { RunsOnLegs (shown_of mirror.entry.a.device.parts mirror.entry.b.device.parts
        (D.moments mirror.entry.a.device.disk.now) (E.moments mirror.entry.b.device.disk.now))
        (record { first = D.moments result.0.now; second = E.moments result.1.now })
        S.left O.held (ending_by ended.new) script.old out.old out.new }

    ensures ends { IfErr ended.new EndsScript }
    ensures cause { HasCauseOfMirror D.faults E.faults S.faults O.faults ended.new
        mirror.entry.a.device.disk.now result.0.now mirror.entry.b.device.disk.now result.1.now
        script.old script.new out.old out.new }
    ensures counted { IsCountedInMirror D.faults E.faults S.faults O.faults ended.new
        mirror.entry.a.device.disk.now result.0.now mirror.entry.b.device.disk.now result.1.now
        script.old script.new out.old out.new }

    ensures read { ReadsOnLegs (shown_of mirror.entry.a.device.parts mirror.entry.b.device.parts
        (D.moments mirror.entry.a.device.disk.now) (E.moments mirror.entry.b.device.disk.now))
        S.left O.held S.faults script.old script.new out.old out.new }
    ensures same_disk { result.0.ghost_name ≡ mirror.entry.a.device.disk.ghost_name }
    ensures same_second { result.1.ghost_name ≡ mirror.entry.b.device.disk.ghost_name }
    ensures identity { D.identity result.0.now ≡ D.identity mirror.entry.a.device.disk.now }
    ensures second_identity { E.identity result.1.now ≡ E.identity mirror.entry.b.device.disk.now }
{
    match run_script(alloc, &mut mirror, reader, script, out) {
        Err(fault) => {
            *ended = Err(fault);
            give_back(mirror)
        }
        Ok(found) => {
            let (closed, disk, second) = close(mirror);
            match closed {
                Ok(()) => {
                    *ended = told_closed(found, out);
                    (disk, second)
                }
                Err(_) => {
                    *ended = Err(Ended::Failed(Outer::Disk));
                    (disk, second)
                }
            }
        }
    }
}

/// Prints `closed`.
///
/// # Errors
///
/// - `Sink`: the sink failed.
fn told_closed<O: Sink>(found: TagsFound, out: &mut O) -> Result<TagsFound, Ended>
    ensures told { TellsClosed found (O.held out.old) (O.held out.new) result }

    ensures cause { IfErr result (λ ended. (ended ≡ Ended.Failed Outer.Sink)
        × Rose (O.faults out.old) (O.faults out.new)) }
    ensures counted { IsCounted Outer.Sink (O.faults out.old) (O.faults out.new) result }
{
    match put_all(out, b"closed\n") {
        Ok(()) => Ok(found),
        Err(_) => Err(Ended::Failed(Outer::Sink)),
    }
}
