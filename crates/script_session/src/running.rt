//! Runs one line of a script.
ghost use Rattle.std.specs.Prelude.{◌≡◌, ◌+◌, ◌<◌, ◌^◌, ℕ, Err, IfOk, None, OnErr, true};
ghost use Rattle.std.specs.List.{list_any};
ghost use Rattle.disk_model.specs.Causes.{HasCause};
ghost use Rattle.device_parts.specs.declared.condition.Condition.TheVariants.{Working};
ghost use Rattle.device.specs.Calls.{Works};
ghost use Rattle.device.specs.Device.{mode_of};
ghost use Rattle.script_text.specs.Line.{ask_of, line_of};
ghost use Rattle.script_session.specs.declared.line_answer.LineAnswer.TheVariants.{Ticket};
ghost use Rattle.script_text.specs.declared.line_end.LineEnd.TheVariants as Ends;
ghost use Rattle.script_session.specs.Calls.{AnswersWell, BeginsOnly, EndsLine, FailsOnDisk, OnRefused, RunsLine};
ghost use Rattle.script_session.specs.Calls.{StaysOn, TellsAsked, TurnsAt, fault_in, of_ask, of_line, one_asked};
ghost use Rattle.script_session.specs.LineRun.{HasLineCause, ServesNone};
ghost use Rattle.script_session.specs.Stop.{HasStopCause};
ghost use Rattle.script_session.specs.Tickets.{AreInFlight, is_of};

use crate::calling::{serve_one, step, submit, take};
use crate::finishing::finish_all;
use crate::line_answer::LineAnswer;
use crate::stop::Stop;
use crate::telling::{TellFault, tags_found, tell};
use crate::{Tickets, asking, meaning};
use device::{Device, finish};
use script_text::{Ask, Line, LineEnd, TagsFound};
use sector_disk::{Disk, Memory};
use std::alloc::Global;
use stream_io::Sink;

/// Runs one line of a script on a device that works, and prints what it is told. It is judged first, and its
/// text is printed once all that it does is done. In direct mode nothing is written but sectors of tags, and those of
/// the data of blocks that it writes; in journal mode nothing but sectors of the journal, of tags, and of data.
///
/// # Errors
///
/// - `Refused`: it has no meaning here. Nothing was done.
/// - `Disk`: the disk failed. Nothing is printed, and the device is broken.
/// - `Sink`: `out` failed. All is done, and a part of the text is printed.
/// - `Memory`: there is none for a request or for the text. Nothing is printed. The first of what it does is
///   done, or all.
pub fn run_line<'d, 'p, D: Disk, O: Sink>(
    alloc: Global,
    device: &mut Device<'d, 'p, D>,
    tickets: &mut Tickets,
    line: &Line<'_>,
    out: &mut O,
) -> Result<TagsFound, LineEnd>
    requires works { Works D.identity D.moments device.old.condition device.old.parts device.old.disk.now }
    requires tickets { AreInFlight tickets.old device.old.parts.common.slots }
    requires number { device.old.parts.common.slots.submitted + 1 < 2 ^ 64 }

    ensures ran { RunsLine D.moments O.held (line_of line.now) result device.old.parts device.new.parts
        device.old.disk.now device.new.disk.now out.old out.new }

    ensures ended { EndsLine D.moments O.held (line_of line.now) result device.old.parts device.new.parts
        device.old.disk.now device.new.disk.now out.old out.new }
    ensures refused { OnRefused result ((device.new.parts ≡ device.old.parts)
        × (device.new.disk.now ≡ device.old.disk.now)) }
    ensures untold { OnRefused result ((tickets.new ≡ tickets.old) × (out.new ≡ out.old)) }
    ensures cause { HasLineCause (D.faults device.old.disk.now) (D.faults device.new.disk.now)
        (O.faults out.old) (O.faults out.new) result }

    ensures quiet { ServesNone (mode_of device.old.parts.mode) (line_of line.now)
        → device.new.disk.now ≡ device.old.disk.now }
    ensures turn { TurnsAt (Err Ends.Disk) result device.new.condition }
    ensures stays { StaysOn D.identity D.moments device.new.condition device.old.parts device.new.parts tickets.new
        device.old.disk.now device.new.disk.now }
    ensures same_disk { device.new.disk.ghost_name ≡ device.old.disk.ghost_name }
{
    if let Some(fault) = meaning::fault_of(line, device.blocks(), device.block_size(), tickets) {
        return Err(LineEnd::Refused(fault));
    }
    let answer = match answer_of(alloc, device, tickets, line) {
        Ok(answer) => answer,
        Err(Stop::Disk) => return Err(LineEnd::Disk),
        Err(Stop::Memory) => return Err(LineEnd::Memory),
    };
    match tell(alloc, &answer, out) {
        Ok(()) => Ok(tags_found(&answer)),
        Err(TellFault::Memory) => Err(LineEnd::Memory),
        Err(TellFault::Sink) => Err(LineEnd::Sink),
    }
}

/// Does what a line asks for that is not refused.
///
/// # Errors
///
/// - `Disk`: the disk failed. The device is broken then.
/// - `Memory`: there is none for a request.
fn answer_of<'d, 'p, D: Disk>(
    alloc: Global,
    device: &mut Device<'d, 'p, D>,
    tickets: &mut Tickets,
    line: &Line<'_>,
) -> Result<LineAnswer, Stop>
    requires works { Works D.identity D.moments device.old.condition device.old.parts device.old.disk.now }
    requires tickets { AreInFlight tickets.old device.old.parts.common.slots }
    requires number { device.old.parts.common.slots.submitted + 1 < 2 ^ 64 }
    requires runnable { fault_in device.old.parts.common.slots tickets.old (line_of line.now) ≡ None }

    ensures answered { AnswersWell D.moments (of_line (line_of line.now)) result device.old.parts device.new.parts
        device.old.disk.now device.new.disk.now }

    ensures cause { HasStopCause (D.faults device.old.disk.now) (D.faults device.new.disk.now) result }
    ensures disk { FailsOnDisk D.moments (of_line (line_of line.now)) result device.old.parts device.new.parts
        device.old.disk.now device.new.disk.now }
    ensures memory { BeginsOnly D.moments (of_line (line_of line.now)) result device.old.parts device.new.parts
        device.old.disk.now device.new.disk.now }

    ensures quiet { ServesNone (mode_of device.old.parts.mode) (line_of line.now)
        → device.new.disk.now ≡ device.old.disk.now }
    ensures turn { TurnsAt (Err Stop.Disk) result device.new.condition }
    ensures stays { StaysOn D.identity D.moments device.new.condition device.old.parts device.new.parts tickets.new
        device.old.disk.now device.new.disk.now }
    ensures same_disk { device.new.disk.ghost_name ≡ device.old.disk.ghost_name }
{
    match *line {
        Line::Skip => Ok(LineAnswer::Nothing),
        Line::Ask { start: true, ask } => Ok(start(alloc, device, tickets, &ask)?),
        Line::Ask { start: false, ask } => ask_whole(alloc, device, tickets, &ask),
        Line::Serve { ticket } => Ok(serve_one(device, tickets, ticket)?),
        Line::Take { ticket } => Ok(take(device, tickets, ticket)),
        Line::Step { actor } => Ok(step(device, actor)?),
    }
}

/// Serves what is in flight to its end, then submits a request, serves it to its end and takes its reply.
///
/// # Errors
///
/// - `Disk`: the disk failed. The device is broken then.
/// - `Memory`: there is none for the request.
pub(crate) fn ask_whole<'d, 'p, D: Disk>(
    alloc: Global,
    device: &mut Device<'d, 'p, D>,
    tickets: &mut Tickets,
    ask: &Ask<'_>,
) -> Result<LineAnswer, Stop>
    requires works { Works D.identity D.moments device.old.condition device.old.parts device.old.disk.now }
    requires tickets { AreInFlight tickets.old device.old.parts.common.slots }
    requires number { device.old.parts.common.slots.submitted + 1 < 2 ^ 64 }

    ensures answered { AnswersWell D.moments (of_ask (ask_of ask.now)) result device.old.parts device.new.parts
        device.old.disk.now device.new.disk.now }

    ensures cause { HasStopCause (D.faults device.old.disk.now) (D.faults device.new.disk.now) result }
    ensures disk { FailsOnDisk D.moments (of_ask (ask_of ask.now)) result device.old.parts device.new.parts
        device.old.disk.now device.new.disk.now }
    ensures memory { BeginsOnly D.moments (of_ask (ask_of ask.now)) result device.old.parts device.new.parts
        device.old.disk.now device.new.disk.now }

    ensures turn { TurnsAt (Err Stop.Disk) result device.new.condition }
    ensures stays { StaysOn D.identity D.moments device.new.condition device.old.parts device.new.parts tickets.new
        device.old.disk.now device.new.disk.now }
    ensures same_disk { device.new.disk.ghost_name ≡ device.old.disk.ghost_name }
{
    finish_all(device, tickets)?;
    let answer = start(alloc, device, tickets, ask)?;
    let LineAnswer::Ticket { ticket } = answer else {
        return Ok(answer);
    };
    finish(device, tickets.ticket_of(ticket))?;
    Ok(take(device, tickets, ticket))
}

/// Submits the request of an ask.
///
/// # Errors
///
/// - `Memory`: there is none for it. Nothing was done.
fn start<'d, 'p, D: Disk>(
    alloc: Global,
    device: &mut Device<'d, 'p, D>,
    tickets: &mut Tickets,
    ask: &Ask<'_>,
) -> Result<LineAnswer, Memory>
    requires works { Works D.identity D.moments device.old.condition device.old.parts device.old.disk.now }
    requires tickets { AreInFlight tickets.old device.old.parts.common.slots }
    requires number { device.old.parts.common.slots.submitted + 1 < 2 ^ 64 }

    ensures answered { AnswersWell D.moments (one_asked (ask_of ask.now)) result device.old.parts device.new.parts
        device.old.disk.now device.new.disk.now }
    ensures ticket { TellsAsked D.moments (ask_of ask.now) result device.old.parts device.old.disk.now }
    ensures held { IfOk result (λ answer. (ticket : ℕ) → answer ≡ Ticket ticket
        → list_any (is_of ticket) tickets.new.waiting.items ≡ true) }

    ensures err { OnErr result (device.new.parts ≡ device.old.parts) }

    ensures works { device.new.condition ≡ Working }
    ensures stays { StaysOn D.identity D.moments device.new.condition device.old.parts device.new.parts tickets.new
        device.old.disk.now device.new.disk.now }
    ensures disk { device.new.disk.now ≡ device.old.disk.now }
    ensures same_disk { device.new.disk.ghost_name ≡ device.old.disk.ghost_name }
{
    tickets.make_room()?;
    let request = asking::request_of(alloc, ask, device.block_size())?;
    Ok(submit(device, tickets, request))
}
