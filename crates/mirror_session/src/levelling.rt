//! Levels a mirror, and tells it.
ghost use Rattle.std.specs.Prelude.{◌≡◌, ◌+◌, ◌*◌, None, OnOk};
ghost use Rattle.mirror_calls.specs.Calls.{HasAsked, LeavesFirst, LeavesSecond, MayAskAll, StaysReady, Works};
ghost use Rattle.mirror_calls.specs.Calls.{levelling_all};
ghost use Rattle.mirror_session.specs.Answering.{TurnsAt};
ghost use Rattle.mirror_session.specs.AskRun.{HasAskCause};
ghost use Rattle.mirror_session.specs.Calls.{EndsLevel, PrintsNothing, RunsLevel, ended_by, refusal_in};

use crate::answer::stop_by;
use crate::telling::{TellFault, tell};
use mirror_calls::{Leg, Mirror};
use script_session::Stop;
use script_text::{LineEnd, Told};
use std::alloc::Global;
use stream_io::Sink;

/// Levels a mirror that works, and prints how many blocks it has written.
///
/// # Errors
///
/// - `Disk`: the disk of a leg failed. Nothing is printed, and the mirror is broken.
/// - `Sink`: `out` failed. All is done, and a part of the text is printed.
/// - `Memory`: there is none for the blocks that are read at once, or for the text. Nothing is printed. All is done, or
///   nothing.
pub fn run_level<A: Leg, B: Leg, O: Sink>(
    alloc: Global,
    mirror: &mut Mirror<A, B>,
    out: &mut O,
) -> Result<(), LineEnd>
    requires works { Works A.ready A.blocks A.block_size B.ready B.blocks B.block_size
        mirror.old.broken mirror.old.a mirror.old.b }
    requires few { MayAskAll A.submitted B.submitted mirror.old.a mirror.old.b }

    ensures levelled { RunsLevel A.stands_for B.stands_for O.held result
        mirror.old.a mirror.old.b mirror.new.a mirror.new.b out.old out.new }
    ensures asked { OnOk result (HasAsked A.submitted B.submitted (3 * A.blocks mirror.old.a + 1)
        mirror.old.a mirror.old.b mirror.new.a mirror.new.b) }

    ensures ended { EndsLevel A.stands_for B.stands_for O.held result
        mirror.old.a mirror.old.b mirror.new.a mirror.new.b out.old out.new }
    ensures unrefused { refusal_in result ≡ None }
    ensures untold { PrintsNothing result out.old out.new }
    ensures cause { HasAskCause (A.faults mirror.old.a) (A.faults mirror.new.a)
        (B.faults mirror.old.b) (B.faults mirror.new.b) (O.faults out.old) (O.faults out.new) result }

    ensures turns { TurnsAt LineEnd.Disk mirror.new.broken result }
    ensures stays { StaysReady A.ready A.blocks A.block_size A.name B.ready B.blocks B.block_size B.name
        mirror.old.a mirror.old.b mirror.new.broken mirror.new.a mirror.new.b }

    ensures first_moments { LeavesFirst A.stands_for B.stands_for A.may_be_left A.moments levelling_all
        mirror.old.a mirror.old.b mirror.new.a }
    ensures second_moments { LeavesSecond A.stands_for B.stands_for B.may_be_left B.moments levelling_all
        mirror.old.a mirror.old.b mirror.new.b }
{
    let written = match mirror.level(alloc) {
        Ok(written) => written,
        Err(fault) => return Err(end_of(stop_by(fault))),
    };
    match tell(alloc, &Told::Level { written }, out) {
        Ok(()) => Ok(()),
        Err(TellFault::Memory) => Err(LineEnd::Memory),
        Err(TellFault::Sink) => Err(LineEnd::Sink),
    }
}

/// What a stop ends.
fn end_of(stop: Stop) -> LineEnd
    ensures { result ≡ ended_by stop }
{
    match stop {
        Stop::Disk => LineEnd::Disk,
        Stop::Memory => LineEnd::Memory,
    }
}
