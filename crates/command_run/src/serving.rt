//! Opens a device on an image, and serves a stream of requests on it.
ghost use Rattle.std.specs.Prelude.{◌≡◌, IfErr};
ghost use Rattle.disk_model.specs.Identity.{IsBound};
ghost use Rattle.hmac_tag.specs.TagMaker.{key_of};
ghost use Rattle.command_task.specs.Calls.{HasCauseOfRun, IsCountedInRun, LeavesUnread, ReadsOnlyRun, RunsAsked};
ghost use Rattle.command_task.specs.declared.asked.Task.TheVariants.{Serve};
ghost use Rattle.command_task.specs.Closed.{ClosesTask};
ghost use Rattle.command_task.specs.Opening.{EndsImage};
ghost use Rattle.command_task.specs.Outset.{task_outset};
ghost use Rattle.command_task.specs.Running.{ending_by};
ghost use Rattle.command_model.specs.Taken.{HasTaken};
ghost use Rattle.command_task.specs.Serving.{most_taken_at};
ghost use Rattle.command_run.specs.Serving.{ended_by_session};
ghost use Rattle.command_task.specs.Words.{MayWrite};

use command_ending::{Ended, Outer, Refusal};
use command_task::{Telling, ended_by_opening, handed_back};
use device::{Device, OpenMode};
use hmac_tag::Hash;
use image_judging::images_that_open_have_no_fault;
use nbd_session::{Ended as SessionEnded, SessionFault, session};
use script_text::TagsFound;
use sector_disk::Disk;
use sector_pool::Region;
use std::alloc::Global;
use stream_io::{Sink, Source};

/// Opens a device with this hash and in this mode on the image that the disk is bound to, serves the stream of requests
/// on it, and closes it where the stream ends or disconnects. It tells whether a reply told a block whose stored tag
/// differs, and in `telling` whether the session has begun.
///
/// # Errors
///
/// - `Memory`: there is none for the device, for the session, or for a request.
/// - `Image`: the image is refused.
/// - `Length`: the stream is refused: it has a wrong magic, or goes past its bound.
/// - `Disk`, `Script`, `Sink`: that failed.
pub fn serve_image<D: Disk, S: Source, O: Sink>(
    alloc: Global,
    disk: &mut D,
    hash: Hash,
    mode: OpenMode,
    script: &mut S,
    out: &mut O,
    telling: &mut Telling,
) -> Result<TagsFound, Ended>
    requires bound { IsBound (D.identity disk.old).name }
    requires writes { MayWrite mode }

    ensures runs { RunsAsked D.identity D.moments S.left O.held (Serve mode) (key_of hash) telling.new
        (ending_by result) disk.old disk.new script.old out.old out.new }
    ensures closed { ClosesTask D.identity D.moments S.left (Serve mode) (key_of hash) result
        disk.old disk.new script.old }

    ensures ends { IfErr result EndsImage }
    ensures cause { HasCauseOfRun D.faults S.faults O.faults result
        disk.old disk.new script.old script.new out.old out.new }
    ensures counted { IsCountedInRun D.faults S.faults O.faults result
        disk.old disk.new script.old script.new out.old out.new }

    ensures unread { LeavesUnread D.moments S.left (Serve mode) result disk.old disk.new script.old script.new }
    ensures taken { HasTaken (most_taken_at (Serve mode)) (S.left script.old) (S.left script.new) }
    ensures ahead { ReadsOnlyRun D.identity D.moments S.left O.held S.faults (task_outset (Serve mode) (key_of hash))
        disk.old script.old script.new out.old out.new }
    ensures identity { D.identity disk.new ≡ D.identity disk.old }
{
    let mut region = Region::new();
    let mut ended = Err(Ended::Memory);
    let _ = serve_device(
        alloc,
        disk,
        &mut region,
        hash,
        mode,
        script,
        out,
        telling,
        &mut ended,
    );
    ended
}

/// Does that with memory for the journal's sectors, none at first. It gives the disk back, and tells in `ended` how the
/// command ended.
///
/// # Errors
///
/// As `serve_image`.
fn serve_device<'d, D: Disk, S: Source, O: Sink>(
    alloc: Global,
    disk: &'d mut D,
    pool: &mut Region,
    hash: Hash,
    mode: OpenMode,
    script: &mut S,
    out: &mut O,
    telling: &mut Telling,
    ended: &mut Result<TagsFound, Ended>,
) -> &'d mut D
    requires bound { IsBound (D.identity disk.old).name }
    requires writes { MayWrite mode }

    ensures runs { RunsAsked D.identity D.moments S.left O.held (Serve mode) (key_of hash) telling.new
        (ending_by ended.new) disk.old result.now script.old out.old out.new }
    ensures closed { ClosesTask D.identity D.moments S.left (Serve mode) (key_of hash) ended.new
        disk.old result.now script.old }

    ensures ends { IfErr ended.new EndsImage }
    ensures cause { HasCauseOfRun D.faults S.faults O.faults ended.new
        disk.old result.now script.old script.new out.old out.new }
    ensures counted { IsCountedInRun D.faults S.faults O.faults ended.new
        disk.old result.now script.old script.new out.old out.new }

    ensures unread { LeavesUnread D.moments S.left (Serve mode) ended.new disk.old result.now script.old script.new }
    ensures taken { HasTaken (most_taken_at (Serve mode)) (S.left script.old) (S.left script.new) }
    ensures ahead { ReadsOnlyRun D.identity D.moments S.left O.held S.faults (task_outset (Serve mode) (key_of hash))
        disk.old script.old script.new out.old out.new }
    ensures identity { D.identity result.now ≡ D.identity disk.old }
    ensures same_disk { result.ghost_name ≡ disk.entry.ghost_name }
{
    // What has no fault can be opened.
    images_that_open_have_no_fault();
    match Device::open(alloc, disk, pool, hash, mode) {
        Err(refused) => {
            *telling = Telling::Lines;
            let (fault, disk) = handed_back(refused);
            *ended = Err(ended_by_opening(fault));
            disk
        }
        Ok(device) => {
            *telling = Telling::Replies;
            let (served, disk) = session(alloc, device, script, out);
            *ended = ended_by_session(served);
            disk
        }
    }
}

/// How a session ended, as the end of a run. A stream that is refused ends it as a script does that is refused as a
/// whole.
fn ended_by_session(served: Result<SessionEnded, SessionFault>) -> Result<TagsFound, Ended>
    ensures { result ≡ ended_by_session served }
{
    match served {
        Ok(SessionEnded::Closed { eio: false }) => Ok(TagsFound::Matching),
        Ok(SessionEnded::Closed { eio: true }) => Ok(TagsFound::Differing),
        Ok(SessionEnded::Wrong { .. } | SessionEnded::Long) => Err(Ended::Refused(Refusal::Length)),
        Err(SessionFault::Memory) => Err(Ended::Memory),
        Err(SessionFault::Disk) => Err(Ended::Failed(Outer::Disk)),
        Err(SessionFault::Source) => Err(Ended::Failed(Outer::Script)),
        Err(SessionFault::Sink) => Err(Ended::Failed(Outer::Sink)),
    }
}
