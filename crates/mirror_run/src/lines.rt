//! Reads and runs one line of a script on a mirror.
ghost use Rattle.std.specs.Prelude.{◌≡◌, false, IfErr, OnOk};
ghost use Rattle.mirror_calls.specs.Calls.{HasAsked, MayAskAll, StaysReady, Works};
ghost use Rattle.script_lines.specs.Ends.{EndsScript};
ghost use Rattle.mirror_run.specs.Calls.{HasCauseOfLine, IsCountedInLine, RunsBytes, StopsAtBytes};
ghost use Rattle.mirror_run.specs.Standing.{cuts_by, shown_by};

use command_ending::Ended;
use mirror_calls::{Leg, Mirror};
use mirror_session::run_ask;
use script_lines::{ended_by, ended_by_form};
use script_text::{TagsFound, read_ask_line};
use std::alloc::Global;
use stream_io::Sink;

/// Runs the line that these bytes are, which has this number, and prints what it is told.
///
/// # Errors
///
/// - `Line`: the bytes are no line of a mirror, or a request that has no meaning here.
/// - `Disk`, `Sink`: that failed. By a disk the mirror is broken.
/// - `Memory`: there is none for what the line needs.
pub(crate) fn run_bytes<A: Leg, B: Leg, O: Sink>(
    alloc: Global,
    mirror: &mut Mirror<A, B>,
    bytes: &[u8],
    number: u64,
    out: &mut O,
) -> Result<TagsFound, Ended>
    requires works { Works A.ready A.blocks A.block_size B.ready B.blocks B.block_size
        mirror.old.broken mirror.old.a mirror.old.b }
    requires few { MayAskAll A.submitted B.submitted mirror.old.a mirror.old.b }

    ensures ran { RunsBytes (cuts_by A.may_be_left B.may_be_left)
        (shown_by A.stands_for B.stands_for A.moments B.moments) O.held bytes.now result
        mirror.old.a mirror.old.b mirror.new.a mirror.new.b out.old out.new }
    ensures asked { OnOk result (HasAsked A.submitted B.submitted 2049
        mirror.old.a mirror.old.b mirror.new.a mirror.new.b) }

    ensures stopped { StopsAtBytes (cuts_by A.may_be_left B.may_be_left)
        (shown_by A.stands_for B.stands_for A.moments B.moments) O.held number bytes.now result
        mirror.old.a mirror.old.b mirror.new.a mirror.new.b out.old out.new }
    ensures ends { IfErr result EndsScript }
    ensures cause { HasCauseOfLine A.faults B.faults O.faults result
        mirror.old.a mirror.old.b mirror.new.a mirror.new.b out.old out.new }
    ensures counted { IsCountedInLine A.faults B.faults O.faults result
        mirror.old.a mirror.old.b mirror.new.a mirror.new.b out.old out.new }

    ensures works { OnOk result (mirror.new.broken ≡ false) }
    ensures stays { StaysReady A.ready A.blocks A.block_size A.name B.ready B.blocks B.block_size B.name
        mirror.old.a mirror.old.b mirror.new.broken mirror.new.a mirror.new.b }
{
    A::legs_are_left_as_told();
    B::legs_are_left_as_told();
    match read_ask_line(bytes) {
        Ok(Some(ask)) => match run_ask(alloc, mirror, &ask, out) {
            Ok(found) => Ok(found),
            Err(end) => Err(ended_by(end, number)),
        },
        Ok(None) => Ok(TagsFound::Matching),
        Err(fault) => Err(ended_by_form(alloc, fault, number)),
    }
}
