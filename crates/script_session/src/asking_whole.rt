//! Runs one request as a plain line of a script does, and hands out its reply.
ghost use Rattle.std.specs.Prelude.{◌≡◌, ◌+◌, ◌<◌, ◌^◌, Err, None, false};
ghost use Rattle.device_model.specs.Script.{AskLine};
ghost use Rattle.device.specs.Calls.{Works};
ghost use Rattle.script_text.specs.Line.{ask_of};
ghost use Rattle.script_session.specs.Calls.{RunsAsk, StaysOn, StopsSo, TurnsAt, fault_in, of_ask};
ghost use Rattle.script_session.specs.Stop.{HasStopCause};
ghost use Rattle.script_session.specs.Tickets.{AreInFlight};
ghost use Rattle.script_session.specs.Told.{reply_in};

use crate::line_answer::LineAnswer;
use crate::running::ask_whole;
use crate::{Stop, Tickets};
use device::Device;
use request_slots::Reply;
use script_text::Ask;
use sector_disk::Disk;
use std::alloc::Global;

/// Runs a request on a device that works, as a plain line of a script does: what is in flight is served to its end,
/// then the request is submitted, served to its end, and its reply taken and handed out. None where it got no reply.
/// Nothing is printed.
///
/// # Errors
///
/// - `Disk`: the disk failed. The device is broken then.
/// - `Memory`: there is none for the request. The first of what it does is done, and the device works.
pub fn run_ask<'d, 'p, D: Disk>(
    alloc: Global,
    device: &mut Device<'d, 'p, D>,
    tickets: &mut Tickets,
    ask: &Ask<'_>,
) -> Result<Option<Reply>, Stop>
    requires works { Works D.identity D.moments device.old.condition device.old.parts device.old.disk.now }
    requires tickets { AreInFlight tickets.old device.old.parts.common.slots }
    requires number { device.old.parts.common.slots.submitted + 1 < 2 ^ 64 }
    requires runnable { fault_in device.old.parts.common.slots tickets.old (AskLine false (ask_of ask.now)) ≡ None }

    ensures ran { RunsAsk D.moments (ask_of ask.now) result device.old.parts device.new.parts
        device.old.disk.now device.new.disk.now }

    ensures stopped { StopsSo D.moments (of_ask (ask_of ask.now)) result device.old.parts device.new.parts
        device.old.disk.now device.new.disk.now }
    ensures cause { HasStopCause (D.faults device.old.disk.now) (D.faults device.new.disk.now) result }

    ensures turn { TurnsAt (Err Stop.Disk) result device.new.condition }
    ensures stays { StaysOn D.identity D.moments device.new.condition device.old.parts device.new.parts tickets.new
        device.old.disk.now device.new.disk.now }
    ensures same_disk { device.new.disk.ghost_name ≡ device.old.disk.ghost_name }
{
    match ask_whole(alloc, device, tickets, ask) {
        Ok(answer) => Ok(reply_of(answer)),
        Err(stop) => Err(stop),
    }
}

/// The reply of an answer, if it has one.
fn reply_of(answer: LineAnswer) -> Option<Reply>
    ensures { result ≡ reply_in answer }
{
    match answer {
        LineAnswer::Replied { reply, .. } => Some(reply),
        _ => None,
    }
}
