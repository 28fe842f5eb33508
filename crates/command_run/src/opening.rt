//! Opens a device on an image, and runs a script on it.
ghost use Rattle.std.specs.Prelude.{◌≡◌, [], IfErr};
ghost use Rattle.disk_model.specs.Identity.{IsBound};
ghost use Rattle.hmac_tag.specs.TagMaker.{key_of};
ghost use Rattle.command_task.specs.Calls.{HasCauseOfRun, IsCountedInRun, LeavesUnread, ReadsOnlyRun, RunsScript};
ghost use Rattle.command_task.specs.declared.asked.Task.TheVariants.{Run};
ghost use Rattle.command_task.specs.Closed.{ClosesTask};
ghost use Rattle.command_run.specs.Closing.{ended_close};
ghost use Rattle.command_task.specs.Opening.{EndsImage};
ghost use Rattle.command_task.specs.Outset.{run_outset};
ghost use Rattle.command_task.specs.Running.{ending_by};
ghost use Rattle.command_model.specs.Taken.{HasTaken};
ghost use Rattle.device_model.specs.ScriptBytes.{most_taken};

use crate::closing::{CloseFault, close};
use crate::running::run_lines;
use command_ending::Ended;
use command_task::{ended_by_opening, handed_back};
use device::{Device, OpenMode};
use hmac_tag::Hash;
use image_judging::images_that_open_have_no_fault;
use script_reader::LineReader;
use script_text::TagsFound;
use sector_disk::Disk;
use sector_pool::Region;
use std::alloc::Global;
use stream_io::{Sink, Source};

/// Opens a device with this hash and in this mode on the image that the disk is bound to, runs a script on it, and
/// closes it. It tells whether a line told a block whose stored tag differs.
///
/// # Errors
///
/// - `Memory`: there is none for a reader of lines, for the device, or for what a line needs.
/// - `Image`: the image is refused.
/// - `Line`, `Length`: the script is refused.
/// - `Disk`, `Script`, `Sink`: that failed.
pub fn run_image<D: Disk, S: Source, O: Sink>(
    alloc: Global,
    disk: &mut D,
    hash: Hash,
    mode: OpenMode,
    script: &mut S,
    out: &mut O,
) -> Result<TagsFound, Ended>
    requires { IsBound (D.identity disk.old).name }

    ensures runs { RunsScript D.identity D.moments S.left O.held mode (key_of hash) (ending_by result)
        disk.old disk.new script.old out.old out.new }
    ensures closed { ClosesTask D.identity D.moments S.left (Run mode) (key_of hash) result
        disk.old disk.new script.old }

    ensures ends { IfErr result EndsImage }
    ensures cause { HasCauseOfRun D.faults S.faults O.faults result
        disk.old disk.new script.old script.new out.old out.new }
    ensures counted { IsCountedInRun D.faults S.faults O.faults result
        disk.old disk.new script.old script.new out.old out.new }

    ensures unread { LeavesUnread D.moments S.left (Run mode) result disk.old disk.new script.old script.new }
    ensures taken { HasTaken most_taken (S.left script.old) (S.left script.new) }
    ensures ahead { ReadsOnlyRun D.identity D.moments S.left O.held S.faults (run_outset mode (key_of hash))
        disk.old script.old script.new out.old out.new }
    ensures identity { D.identity disk.new ≡ D.identity disk.old }
{
    let Ok(mut reader) = LineReader::new(alloc) else {
        return Err(Ended::Memory);
    };
    let mut region = Region::new();
    let mut ended = Err(Ended::Memory);
    let _ = run_device(
        alloc,
        disk,
        &mut region,
        hash,
        mode,
        &mut reader,
        script,
        out,
        &mut ended,
    );
    ended
}

/// Does that with a reader that has read nothing, and with memory for the journal's sectors, none at first. It gives
/// the disk back, and tells in `ended` how the run ended.
///
/// # Errors
///
/// - `Memory`: there is none for the device, or for what a line needs.
/// - `Image`: the image is refused.
/// - `Line`, `Length`: the script is refused.
/// - `Disk`, `Script`, `Sink`: that failed.
fn run_device<'d, D: Disk, S: Source, O: Sink>(
    alloc: Global,
    disk: &'d mut D,
    pool: &mut Region,
    hash: Hash,
    mode: OpenMode,
    reader: &mut LineReader,
    script: &mut S,
    out: &mut O,
    ended: &mut Result<TagsFound, Ended>,
) -> &'d mut D
    requires bound { IsBound (D.identity disk.old).name }
    requires reader { reader.old ≡ record { unread = []; line = []; taken = 0 } }

    ensures runs { RunsScript D.identity D.moments S.left O.held mode (key_of hash) (ending_by ended.new)
        disk.old result.now script.old out.old out.new }
    ensures closed { ClosesTask D.identity D.moments S.left (Run mode) (key_of hash) ended.new
        disk.old result.now script.old }

    ensures ends { IfErr ended.new EndsImage }
    ensures cause { HasCauseOfRun D.faults S.faults O.faults ended.new
        disk.old result.now script.old script.new out.old out.new }
    ensures counted { IsCountedInRun D.faults S.faults O.faults ended.new
        disk.old result.now script.old script.new out.old out.new }

    ensures unread { LeavesUnread D.moments S.left (Run mode) ended.new disk.old result.now script.old script.new }
    ensures taken { HasTaken most_taken (S.left script.old) (S.left script.new) }
    ensures ahead { ReadsOnlyRun D.identity D.moments S.left O.held S.faults (run_outset mode (key_of hash))
        disk.old script.old script.new out.old out.new }
    ensures identity { D.identity result.now ≡ D.identity disk.old }
    ensures same_disk { result.ghost_name ≡ disk.entry.ghost_name }
{
    // What has no fault can be opened.
    images_that_open_have_no_fault();
    match Device::open(alloc, disk, pool, hash, mode) {
        Err(refused) => {
            let (fault, disk) = handed_back(refused);
            *ended = Err(ended_by_opening(fault));
            disk
        }
        Ok(mut device) => match run_lines(alloc, &mut device, reader, script, out) {
            Ok(found) => {
                let (closed, disk) = close(device, found, out);
                *ended = ended_by_close(closed);
                disk
            }
            Err(fault) => {
                *ended = Err(fault);
                device.give_back()
            }
        },
    }
}

/// How a run ended at its close.
fn ended_by_close(closed: Result<TagsFound, CloseFault>) -> Result<TagsFound, Ended>
    ensures { result ≡ ended_close closed }
{
    match closed {
        Ok(found) => Ok(found),
        Err(fault) => Err(fault.ended()),
    }
}
