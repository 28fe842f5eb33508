//! Prints what an image shows.
ghost use Rattle.std.specs.Prelude.{◌≡◌, IfErr, None};
ghost use Rattle.disk_model.specs.Identity.{IsBound};
ghost use Rattle.command_task.specs.declared.asked.Task.TheVariants.{Dump};
ghost use Rattle.command_task.specs.Calls.{HasCauseOfTask, IsCountedInTask, RunsTask};
ghost use Rattle.command_task.specs.Dumping.{ended_by_dump};
ghost use Rattle.command_image.specs.Tasks.{EndsTask, ending_done};

use command_ending::{Ended, ImageFault, Outer, Refusal};
use command_task::head_fault;
use image_dump::{dump, dump_text};
use image_refusal::{CallFault, DumpFault, JournalFault};
use sector_disk::Disk;
use std::alloc::Global;
use stream_io::{Sink, put_all};

/// Prints what the image shows that the disk is bound to. Nothing is written to the disk.
///
/// # Errors
///
/// - `Image`: the image is refused.
/// - `Memory`: there is none for the numbers of its journal, or for the text.
/// - `Disk`, `Sink`: that failed.
pub fn print_image<D: Disk, O: Sink>(alloc: Global, disk: &mut D, out: &mut O) -> Result<(), Ended>
    requires { IsBound (D.identity disk.old).name }

    ensures runs { RunsTask D.identity D.moments O.held Dump None (ending_done result)
        disk.old disk.new out.old out.new }

    ensures ends { IfErr result EndsTask }
    ensures cause { HasCauseOfTask D.faults O.faults result disk.old disk.new out.old out.new }
    ensures counted { IsCountedInTask D.faults O.faults result disk.old disk.new out.old out.new }

    ensures identity { D.identity disk.new ≡ D.identity disk.old }
    ensures kept { D.moments disk.new ≡ D.moments disk.old }
{
    let shown = match dump(alloc, disk) {
        Ok(shown) => shown,
        Err(fault) => return Err(ended_by(fault)),
    };
    let Ok(text) = dump_text(alloc, &shown) else {
        return Err(Ended::Memory);
    };
    match put_all(out, &text) {
        Ok(()) => Ok(()),
        Err(_) => Err(Ended::Failed(Outer::Sink)),
    }
}

/// What ends a dump whose image is not shown.
fn ended_by(fault: CallFault<DumpFault>) -> Ended
    ensures { result ≡ ended_by_dump fault }
{
    match fault {
        CallFault::Memory => Ended::Memory,
        CallFault::Disk => Ended::Failed(Outer::Disk),
        CallFault::Refused(DumpFault::Head(fault)) => Ended::Refused(Refusal::Image(head_fault(
            fault,
        ))),
        CallFault::Refused(DumpFault::Scan(fault)) => {
            Ended::Refused(Refusal::Image(ImageFault::Journal(JournalFault::Scan(fault))))
        }
    }
}
