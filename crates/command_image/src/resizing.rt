//! Makes an image use all sectors of its disk, and tells how many it provided and provides.
ghost use Rattle.std.specs.Prelude.{◌≡◌, IfErr};
ghost use Rattle.disk_model.specs.Causes.{HasCause};
ghost use Rattle.disk_model.specs.Identity.{IsBound};
ghost use Rattle.hmac_tag.specs.TagMaker.{key_of};
ghost use Rattle.resize_model.specs.Resized.{resized_text};
ghost use Rattle.command_ending.specs.Ended.{Puts};
ghost use Rattle.command_task.specs.declared.asked.Task.TheVariants as Tasks;
ghost use Rattle.command_task.specs.Calls.{HasCauseOfTask, IsCountedInTask, PassesMoments, RunsTask};
ghost use Rattle.command_task.specs.Resizing.{ended_by_resize};
ghost use Rattle.command_image.specs.Tasks.{EndsTask, ending_done};

use command_ending::{Ended, ImageFault, Outer, Refusal, put_pieces};
use command_task::head_fault;
use hmac_tag::Hash;
use image_refusal::{CallFault, ResizeFault};
use image_resizing::resize;
use itoa::Buffer;
use sector_disk::{Disk, Failed};
use std::alloc::Global;
use stream_io::Sink;

/// Makes the image that the disk is bound to use all its sectors, and prints how many it provided and how many it
/// provides. All memory is taken before the first write.
///
/// # Errors
///
/// - `Image`: the superblock, the geometry, or without a bitmap the journal is refused, or the bitmap has no room for
///   the bits of all that the disk can provide.
/// - `Memory`: there is none for what is kept of the journal, or for what is written at once.
/// - `Disk`, `Sink`: that failed.
pub fn resize_image<D: Disk, O: Sink>(
    alloc: Global,
    disk: &mut D,
    hash: Hash,
    out: &mut O,
) -> Result<(), Ended>
    requires { IsBound (D.identity disk.old).name }

    ensures runs { RunsTask D.identity D.moments O.held Tasks.Resize (key_of hash) (ending_done result)
        disk.old disk.new out.old out.new }
    ensures moments { PassesMoments D.identity D.moments Tasks.Resize (key_of hash) disk.old disk.new }

    ensures ends { IfErr result EndsTask }
    ensures cause { HasCauseOfTask D.faults O.faults result disk.old disk.new out.old out.new }
    ensures counted { IsCountedInTask D.faults O.faults result disk.old disk.new out.old out.new }

    ensures identity { D.identity disk.new ≡ D.identity disk.old }
{
    match resize(alloc, disk, hash) {
        Err(fault) => Err(ended_by_resize(fault)),
        Ok((provided, resized)) => match put_resized(out, provided, resized) {
            Ok(()) => Ok(()),
            Err(_) => Err(Ended::Failed(Outer::Sink)),
        },
    }
}

/// Writes the line of an image that is resized.
///
/// # Errors
///
/// - `Failed`: the sink failed. It has taken some of the line from the front, or none, and not all.
fn put_resized<O: Sink>(out: &mut O, provided: u64, resized: u64) -> Result<(), Failed>
    ensures line { Puts (resized_text provided resized) (O.held out.old) (O.held out.new) result }
    ensures cause { HasCause (O.faults out.old) (O.faults out.new) result }
{
    let mut provided_digits = Buffer::new();
    let mut resized_digits = Buffer::new();
    let provided = provided_digits.format(provided).as_bytes();
    let resized = resized_digits.format(resized).as_bytes();
    put_pieces(out, &[b"provided ", provided, b" to ", resized, b"\n"])
}

/// What ends the resize of an image that is not resized.
fn ended_by_resize(fault: CallFault<ResizeFault>) -> Ended
    ensures { result ≡ ended_by_resize fault }
{
    match fault {
        CallFault::Memory => Ended::Memory,
        CallFault::Disk => Ended::Failed(Outer::Disk),
        CallFault::Refused(ResizeFault::Head(fault)) => Ended::Refused(Refusal::Image(head_fault(
            fault,
        ))),
        CallFault::Refused(ResizeFault::Growth(fault)) => Ended::Refused(Refusal::Image(
            ImageFault::Geom(fault),
        )),
        CallFault::Refused(ResizeFault::Journal(fault)) => Ended::Refused(Refusal::Image(
            ImageFault::Journal(fault),
        )),
    }
}
