//! What a mirror is asked for, and what it answers.
ghost use Rattle.std.specs.Prelude.{◌≡◌, ◌+◌, ◌*◌, Err, OnOk};
ghost use Rattle.mirror_calls.specs.Calls.{HasAsked, LeavesFirst, LeavesSecond, MayAskAll, StaysReady, Works};
ghost use Rattle.mirror_calls.specs.Faults.{IsOfCall};
ghost use Rattle.request_slots.specs.InFlight.{as_submission};
ghost use Rattle.mirror_session.specs.Answering.{AnswersWell, HasStopCause, IsTaken, TurnsAt, changes_by, count_of};
ghost use Rattle.mirror_session.specs.Answering.{stop_of};

use mirror_calls::{Leg, Mirror, MirrorFault, MirrorReply};
use request_slots::Request;
use script_session::Stop;
use std::alloc::Global;

/// What a mirror has answered.
#[derive(Drop)]
pub(crate) enum MirrorAnswer {
    /// `count` blocks were read from block `first` on, up to the first that matches on neither leg.
    Read {
        first: u64,
        count: u64,
        reply: MirrorReply,
    },
    /// `count` blocks were written from block `first` on.
    Written {
        first: u64,
        count: u64,
    },
    /// All that was written is flushed.
    Flushed,
}

/// Asks a mirror for a request that it does not refuse.
///
/// # Errors
///
/// - `Disk`: the disk of a leg failed. The mirror is broken then.
/// - `Memory`: there is none for a read. Nothing was done.
pub(crate) fn answer_of<A: Leg, B: Leg>(
    alloc: Global,
    mirror: &mut Mirror<A, B>,
    request: Request,
) -> Result<MirrorAnswer, Stop>
    requires works { Works A.ready A.blocks A.block_size B.ready B.blocks B.block_size
        mirror.old.broken mirror.old.a mirror.old.b }
    requires few { MayAskAll A.submitted B.submitted mirror.old.a mirror.old.b }
    requires taken { IsTaken (A.blocks mirror.old.a) (A.block_size mirror.old.a) (as_submission request) }

    ensures answered { AnswersWell A.stands_for B.stands_for (as_submission request) result
        mirror.old.a mirror.old.b mirror.new.a mirror.new.b }
    ensures asked { OnOk result (HasAsked A.submitted B.submitted (2 * count_of (as_submission request) + 1)
        mirror.old.a mirror.old.b mirror.new.a mirror.new.b) }

    ensures cause { HasStopCause (A.faults mirror.old.a) (A.faults mirror.new.a)
        (B.faults mirror.old.b) (B.faults mirror.new.b) result }
    ensures memory { result ≡ Err Stop.Memory → mirror.new ≡ mirror.old }

    ensures turns { TurnsAt Stop.Disk mirror.new.broken result }
    ensures stays { StaysReady A.ready A.blocks A.block_size A.name B.ready B.blocks B.block_size B.name
        mirror.old.a mirror.old.b mirror.new.broken mirror.new.a mirror.new.b }

    ensures first_moments { LeavesFirst A.stands_for B.stands_for A.may_be_left A.moments
        (changes_by (as_submission request)) mirror.old.a mirror.old.b mirror.new.a }
    ensures second_moments { LeavesSecond A.stands_for B.stands_for B.may_be_left B.moments
        (changes_by (as_submission request)) mirror.old.a mirror.old.b mirror.new.b }
{
    match request {
        Request::Read {
            first,
            count,
            buffer,
        } => match mirror.read(alloc, first, count, buffer) {
            Ok(reply) => Ok(MirrorAnswer::Read {
                first,
                count,
                reply,
            }),
            Err(fault) => Err(stop_by(fault)),
        },
        Request::Write {
            first,
            count,
            bytes,
            fua,
        } => match mirror.write(first, count, bytes, fua) {
            Ok(bytes) => {
                drop(bytes);
                Ok(MirrorAnswer::Written { first, count })
            }
            Err(fault) => Err(stop_by(fault)),
        },
        Request::Flush => match mirror.flush() {
            Ok(()) => Ok(MirrorAnswer::Flushed),
            Err(fault) => Err(stop_by(fault)),
        },
    }
}

/// What a fault of a mirror stops that works, and that was asked for what it has.
pub(crate) fn stop_by(fault: MirrorFault) -> Stop
    requires { IsOfCall fault }

    ensures { result ≡ stop_of fault }
{
    match fault {
        MirrorFault::Memory => Stop::Memory,
        MirrorFault::Disk { .. } => Stop::Disk,
        MirrorFault::Broken | MirrorFault::Range { .. } | MirrorFault::Length { .. } => {
            unreachable!()
        }
    }
}
