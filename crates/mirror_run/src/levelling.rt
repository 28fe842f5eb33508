//! Levels a mirror before the first line of its script.
ghost use Rattle.std.specs.Prelude.{◌≡◌, ◌+◌, ◌*◌, false, IfErr, OnOk};
ghost use Rattle.mirror_calls.specs.Calls.{HasAsked, MayAskAll, StaysReady, Works};
ghost use Rattle.script_lines.specs.Ends.{EndsScript};
ghost use Rattle.mirror_run.specs.Calls.{HasCauseOfLine, IsCountedInLine, LevelsFirst, StopsLevel};
ghost use Rattle.mirror_run.specs.Standing.{cuts_by, shown_by};

use command_ending::Ended;
use mirror_calls::{Leg, Mirror};
use mirror_session::run_level;
use script_lines::ended_by;
use std::alloc::Global;
use stream_io::Sink;

/// Levels a mirror, and prints how many blocks that has written.
///
/// # Errors
///
/// - `Disk`, `Sink`: that failed. By a disk the mirror is broken.
/// - `Memory`: there is none for the levelling, or for what is printed.
pub(crate) fn level<A: Leg, B: Leg, O: Sink>(
    alloc: Global,
    mirror: &mut Mirror<A, B>,
    out: &mut O,
) -> Result<(), Ended>
    requires works { Works A.ready A.blocks A.block_size B.ready B.blocks B.block_size
        mirror.old.broken mirror.old.a mirror.old.b }
    requires few { MayAskAll A.submitted B.submitted mirror.old.a mirror.old.b }

    ensures levelled { LevelsFirst (cuts_by A.may_be_left B.may_be_left)
        (shown_by A.stands_for B.stands_for A.moments B.moments) O.held result
        mirror.old.a mirror.old.b mirror.new.a mirror.new.b out.old out.new }
    ensures asked { OnOk result (HasAsked A.submitted B.submitted (3 * A.blocks mirror.old.a + 1)
        mirror.old.a mirror.old.b mirror.new.a mirror.new.b) }

    ensures stopped { StopsLevel (cuts_by A.may_be_left B.may_be_left)
        (shown_by A.stands_for B.stands_for A.moments B.moments) O.held result
        mirror.old.a mirror.old.b mirror.new.a mirror.new.b out.old out.new }
    ensures ends { IfErr result EndsScript }
    ensures cause { HasCauseOfLine A.faults B.faults O.faults result
        mirror.old.a mirror.old.b mirror.new.a mirror.new.b out.old out.new }
    ensures counted { IsCountedInLine A.faults B.faults O.faults result
        mirror.old.a mirror.old.b mirror.new.a mirror.new.b out.old out.new }

    ensures works { OnOk result (mirror.new.broken ≡ false) }
    ensures stays { StaysReady A.ready A.blocks A.block_size A.name B.ready B.blocks B.block_size B.name
        mirror.old.a mirror.old.b mirror.new.broken mirror.new.a mirror.new.b }
{
    A::legs_are_left_as_told();
    B::legs_are_left_as_told();
    match run_level(alloc, mirror, out) {
        Ok(()) => Ok(()),
        // No levelling is refused, so no line is named.
        Err(end) => Err(ended_by(end, 0)),
    }
}
