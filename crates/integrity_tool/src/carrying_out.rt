//! Does what is asked on the image that the disk is bound to.
ghost use Rattle.std.specs.Prelude.{◌≡◌, IfErr};
ghost use Rattle.disk_model.specs.Identity.{IsBound};
ghost use Rattle.hmac_tag.specs.TagMaker.{key_of};
ghost use Rattle.command_task.specs.Calls.{HasCauseOfRun, IsCountedInRun, LeavesUnread, ReadsOnlyRun, RunsAsked};
ghost use Rattle.command_task.specs.Closed.{ClosesTask};
ghost use Rattle.command_task.specs.Opening.{EndsImage};
ghost use Rattle.command_task.specs.Outset.{task_outset};
ghost use Rattle.command_task.specs.Running.{ending_by};
ghost use Rattle.command_model.specs.Taken.{HasTaken};
ghost use Rattle.command_task.specs.Serving.{most_taken_at};
ghost use Rattle.command_image.specs.Tasks.{found_by};
ghost use Rattle.command_task.specs.Words.{IsTask};

use command_ending::Ended;
use command_image::{
    exercise_image, make_image, print_check, print_image, print_salvage, resize_image,
};
use command_run::{run_image, serve_image};
use command_task::{Task, Telling};
use hmac_tag::Hash;
use script_text::TagsFound;
use sector_disk::Disk;
use std::alloc::Global;
use stream_io::{Sink, Source};

/// Does what is asked on the image that the disk is bound to. It tells whether a line told a block whose stored tag
/// differs, and in `telling` whether a session has begun. What has no script reads none.
///
/// # Errors
///
/// - `Memory`: there is none for what is asked.
/// - `Image`: the image is refused.
/// - `Line`, `Length`: the script is refused, or the stream of a session.
/// - `Disk`, `Script`, `Sink`: that failed.
pub(crate) fn carry_out<D: Disk, S: Source, O: Sink>(
    alloc: Global,
    disk: &mut D,
    hash: Hash,
    task: Task,
    script: &mut S,
    out: &mut O,
    telling: &mut Telling,
) -> Result<TagsFound, Ended>
    requires bound { IsBound (D.identity disk.old).name }
    requires task { IsTask task }
    requires lines { telling.old ≡ Telling.Lines }

    ensures runs { RunsAsked D.identity D.moments S.left O.held task (key_of hash) telling.new (ending_by result)
        disk.old disk.new script.old out.old out.new }
    ensures closed { ClosesTask D.identity D.moments S.left task (key_of hash) result disk.old disk.new script.old }

    ensures ends { IfErr result EndsImage }
    ensures cause { HasCauseOfRun D.faults S.faults O.faults result
        disk.old disk.new script.old script.new out.old out.new }
    ensures counted { IsCountedInRun D.faults S.faults O.faults result
        disk.old disk.new script.old script.new out.old out.new }

    ensures unread { LeavesUnread D.moments S.left task result disk.old disk.new script.old script.new }
    ensures taken { HasTaken (most_taken_at task) (S.left script.old) (S.left script.new) }
    ensures ahead { ReadsOnlyRun D.identity D.moments S.left O.held S.faults (task_outset task (key_of hash))
        disk.old script.old script.new out.old out.new }
    ensures identity { D.identity disk.new ≡ D.identity disk.old }
{
    match task {
        Task::Run(mode) => run_image(alloc, disk, hash, mode, script, out),
        Task::Serve(mode) => serve_image(alloc, disk, hash, mode, script, out, telling),
        Task::Dump => done(print_image(alloc, disk, out)),
        Task::Check(what) => print_check(alloc, disk, hash, what, out),
        Task::Salvage => print_salvage(alloc, disk, hash, out),
        Task::Resize => done(resize_image(alloc, disk, hash, out)),
        Task::Format(new) => done(make_image(alloc, disk, hash, new, out)),
        Task::Exercise { seed, count } => exercise_image(alloc, disk, seed, count, out),
    }
}

/// How what has no script ended: it told no block whose stored tag differs.
fn done(ended: Result<(), Ended>) -> Result<TagsFound, Ended>
    ensures { result ≡ found_by ended }
{
    match ended {
        Ok(()) => Ok(TagsFound::Matching),
        Err(ended) => Err(ended),
    }
}
