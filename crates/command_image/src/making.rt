//! Makes a new image, and tells how many sectors it provides.
ghost use Rattle.std.specs.Prelude.{◌≡◌, IfErr};
ghost use Rattle.disk_model.specs.Causes.{HasCause};
ghost use Rattle.disk_model.specs.Identity.{IsBound};
ghost use Rattle.hmac_tag.specs.TagMaker.{key_of};
ghost use Rattle.formatting_model.specs.NewImage.{IsNewImage};
ghost use Rattle.command_ending.specs.Ended.{Puts};
ghost use Rattle.command_task.specs.declared.asked.Task.TheVariants.{Format};
ghost use Rattle.command_task.specs.Calls.{HasCauseOfTask, IsCountedInTask, PassesMoments, RunsTask};
ghost use Rattle.command_task.specs.Making.{ended_by_format};
ghost use Rattle.command_model.specs.Making.{formatted_text};
ghost use Rattle.command_image.specs.Tasks.{EndsTask, ending_done};

use command_ending::{Ended, ImageFault, Outer, Refusal, put_pieces};
use hmac_tag::Hash;
use image_formatting::{NewImage, format};
use image_model::GeomFault;
use image_refusal::CallFault;
use itoa::Buffer;
use sector_disk::{Disk, Failed};
use std::alloc::Global;
use stream_io::Sink;

/// Makes a new image on the disk, and prints how many sectors it provides. All memory is taken before the first write.
///
/// # Errors
///
/// - `Image`: the disk has no room for the image.
/// - `Memory`: there is none for what is written at once.
/// - `Disk`, `Sink`: that failed.
pub fn make_image<D: Disk, O: Sink>(
    alloc: Global,
    disk: &mut D,
    hash: Hash,
    new: NewImage,
    out: &mut O,
) -> Result<(), Ended>
    requires bound { IsBound (D.identity disk.old).name }
    requires new { IsNewImage new }

    ensures runs { RunsTask D.identity D.moments O.held (Format new) (key_of hash) (ending_done result)
        disk.old disk.new out.old out.new }
    ensures moments { PassesMoments D.identity D.moments (Format new) (key_of hash) disk.old disk.new }

    ensures ends { IfErr result EndsTask }
    ensures cause { HasCauseOfTask D.faults O.faults result disk.old disk.new out.old out.new }
    ensures counted { IsCountedInTask D.faults O.faults result disk.old disk.new out.old out.new }

    ensures identity { D.identity disk.new ≡ D.identity disk.old }
{
    match format(alloc, disk, hash, new) {
        Err(fault) => Err(ended_by_format(fault)),
        Ok(provided) => match put_provided(out, provided) {
            Ok(()) => Ok(()),
            Err(_) => Err(Ended::Failed(Outer::Sink)),
        },
    }
}

/// Writes the line of a new image.
///
/// # Errors
///
/// - `Failed`: the sink failed. It has taken some of the line from the front, or none, and not all.
fn put_provided<O: Sink>(out: &mut O, provided: u64) -> Result<(), Failed>
    ensures line { Puts (formatted_text provided) (O.held out.old) (O.held out.new) result }
    ensures cause { HasCause (O.faults out.old) (O.faults out.new) result }
{
    let mut digits = Buffer::new();
    let digits = digits.format(provided).as_bytes();
    put_pieces(out, &[b"formatted provided ", digits, b"\n"])
}

/// What ends the making of an image that is not made.
pub(crate) fn ended_by_format(fault: CallFault<GeomFault>) -> Ended
    ensures { result ≡ ended_by_format fault }
{
    match fault {
        CallFault::Memory => Ended::Memory,
        CallFault::Disk => Ended::Failed(Outer::Disk),
        CallFault::Refused(fault) => Ended::Refused(Refusal::Image(ImageFault::Geom(fault))),
    }
}
