//! Runs one request of a script on a mirror.
ghost use Rattle.std.specs.Prelude.{OnOk};
ghost use Rattle.mirror_calls.specs.Calls.{HasAsked, LeavesFirst, LeavesSecond, MayAskAll, StaysReady, Works};
ghost use Rattle.script_text.specs.Line.{ask_of};
ghost use Rattle.mirror_session.specs.Answering.{TurnsAt};
ghost use Rattle.mirror_session.specs.AskRun.{HasAskCause, asking};
ghost use Rattle.mirror_session.specs.Calls.{EndsAsk, PrintsNothing, Refuses, RunsAsk};

use crate::answer::answer_of;
use crate::telling::{TellFault, tags_found, tell, told_of};
use mirror_calls::{Leg, Mirror};
use script_session::{Stop, ask_fault, request_of};
use script_text::{Ask, LineEnd, TagsFound};
use std::alloc::Global;
use stream_io::Sink;

/// Runs a request on a mirror that works, and prints what it is told. It is judged first, and its text is printed once
/// all that it does is done.
///
/// # Errors
///
/// - `Refused`: it has no meaning here. Nothing was done.
/// - `Disk`: the disk of a leg failed. Nothing is printed, and the mirror is broken.
/// - `Sink`: `out` failed. All is done, and a part of the text is printed.
/// - `Memory`: there is none for the request or for the text. Nothing is printed. All is done, or nothing.
pub fn run_ask<A: Leg, B: Leg, O: Sink>(
    alloc: Global,
    mirror: &mut Mirror<A, B>,
    ask: &Ask<'_>,
    out: &mut O,
) -> Result<TagsFound, LineEnd>
    requires works { Works A.ready A.blocks A.block_size B.ready B.blocks B.block_size
        mirror.old.broken mirror.old.a mirror.old.b }
    requires few { MayAskAll A.submitted B.submitted mirror.old.a mirror.old.b }

    ensures ran { RunsAsk A.stands_for B.stands_for O.held (ask_of ask.now) result
        mirror.old.a mirror.old.b mirror.new.a mirror.new.b out.old out.new }
    ensures asked { OnOk result (HasAsked A.submitted B.submitted 2049
        mirror.old.a mirror.old.b mirror.new.a mirror.new.b) }

    ensures ended { EndsAsk A.stands_for B.stands_for O.held (ask_of ask.now) result
        mirror.old.a mirror.old.b mirror.new.a mirror.new.b out.old out.new }
    ensures refused { Refuses (A.blocks mirror.old.a) (A.block_size mirror.old.a) (ask_of ask.now) result
        mirror.old mirror.new out.old out.new }
    ensures untold { PrintsNothing result out.old out.new }
    ensures cause { HasAskCause (A.faults mirror.old.a) (A.faults mirror.new.a)
        (B.faults mirror.old.b) (B.faults mirror.new.b) (O.faults out.old) (O.faults out.new) result }

    ensures turns { TurnsAt LineEnd.Disk mirror.new.broken result }
    ensures stays { StaysReady A.ready A.blocks A.block_size A.name B.ready B.blocks B.block_size B.name
        mirror.old.a mirror.old.b mirror.new.broken mirror.new.a mirror.new.b }

    ensures first_moments { LeavesFirst A.stands_for B.stands_for A.may_be_left A.moments (asking (ask_of ask.now))
        mirror.old.a mirror.old.b mirror.new.a }
    ensures second_moments { LeavesSecond A.stands_for B.stands_for B.may_be_left B.moments (asking (ask_of ask.now))
        mirror.old.a mirror.old.b mirror.new.b }
{
    if let Some(fault) = ask_fault(ask, mirror.blocks(), mirror.block_size()) {
        return Err(LineEnd::Refused(fault));
    }
    let request = match request_of(alloc, ask, mirror.block_size()) {
        Ok(request) => request,
        Err(_) => return Err(LineEnd::Memory),
    };
    let answer = match answer_of(alloc, mirror, request) {
        Ok(answer) => answer,
        Err(Stop::Disk) => return Err(LineEnd::Disk),
        Err(Stop::Memory) => return Err(LineEnd::Memory),
    };
    match tell(alloc, &told_of(&answer), out) {
        Ok(()) => Ok(tags_found(&answer)),
        Err(TellFault::Memory) => Err(LineEnd::Memory),
        Err(TellFault::Sink) => Err(LineEnd::Sink),
    }
}
