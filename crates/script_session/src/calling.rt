//! The calls that a line makes of a device, one by one.
ghost use Rattle.std.specs.Prelude.{◌≡◌, ◌+◌, ◌<◌, ◌^◌, ℕ, true, vec_len, vec_capacity, OnErr, OnOk};
ghost use Rattle.std.specs.List.{list_any};
ghost use Rattle.disk_model.specs.Causes.{HasCause};
ghost use Rattle.device_parts.specs.declared.condition.Condition.TheVariants.{Broken, Working};
ghost use Rattle.device.specs.Answers.{HasNoWork};
ghost use Rattle.device.specs.Calls.{Works};
ghost use Rattle.device.specs.Device.{IsDevice, mode_of};
ghost use Rattle.device_parts.specs.Device.{Standing};
ghost use Rattle.device.specs.Run.{one_serve};
ghost use Rattle.request_slots.specs.Flight.{count_in, first_in};
ghost use Rattle.request_slots.specs.InFlight.{as_submission};
ghost use Rattle.device_model.specs.Actors.{actor_of};
ghost use Rattle.script_session.specs.declared.line_answer.LineAnswer.TheVariants.{Ticket};
ghost use Rattle.script_session.specs.Calls.{AnswersSo, AnswersWell, FailsSo, KeepsOn, StaysOn, one_step_of};
ghost use Rattle.script_session.specs.Calls.{one_submission, one_take};
ghost use Rattle.script_session.specs.LineRun.{TellsTicket};
ghost use Rattle.script_session.specs.Told.{moved_line, refused_answer, served_line};
ghost use Rattle.script_session.specs.Tickets.{AreInFlight, is_of};

use crate::Tickets;
use crate::line_answer::LineAnswer;
use crate::tickets::Waiting;
use device::{Device, serve};
use device_parts::{Actor, Moved, Served};
use request_slots::{Request, SubmitFault};
use sector_disk::{Disk, Failed};

/// Submits a request. Its ticket comes last, where it gets one; there is room for it.
pub(crate) fn submit<'d, 'p, D: Disk>(
    device: &mut Device<'d, 'p, D>,
    tickets: &mut Tickets,
    request: Request,
) -> LineAnswer
    requires works { Works D.identity D.moments device.old.condition device.old.parts device.old.disk.now }
    requires tickets { AreInFlight tickets.old device.old.parts.common.slots }
    requires room { vec_len tickets.old.waiting < vec_capacity tickets.old.waiting }
    requires number { device.old.parts.common.slots.submitted + 1 < 2 ^ 64 }

    ensures answered { AnswersSo D.moments (one_submission request) result device.old.parts device.new.parts
        device.old.disk.now device.new.disk.now }
    ensures ticket { (w : Standing) → IsDevice w Working device.old.parts (D.moments device.old.disk.now)
        → TellsTicket w (as_submission request) result }
    ensures held { (ticket : ℕ) → result ≡ Ticket ticket
        → list_any (is_of ticket) tickets.new.waiting.items ≡ true }

    ensures works { device.new.condition ≡ Working }
    ensures stays { StaysOn D.identity D.moments device.new.condition device.old.parts device.new.parts tickets.new
        device.old.disk.now device.new.disk.now }
    ensures disk { device.new.disk.now ≡ device.old.disk.now }
    ensures same_disk { device.new.disk.ghost_name ≡ device.old.disk.ghost_name }
{
    let (first, count) = blocks_of(&request);
    match device.submit(request) {
        Ok(ticket) => {
            let number = ticket.number();
            tickets.waiting.push_reserved(Waiting {
                ticket,
                first,
                count,
            });
            LineAnswer::Ticket { ticket: number }
        }
        Err(refusal) => refused(refusal.1),
    }
}

/// Serves the request of a ticket once. No room is made where the journal has none.
///
/// # Errors
///
/// - `Failed`: the disk failed. The device is broken then.
pub(crate) fn serve_one<'d, 'p, D: Disk>(
    device: &mut Device<'d, 'p, D>,
    tickets: &Tickets,
    number: u64,
) -> Result<LineAnswer, Failed>
    requires works { Works D.identity D.moments device.old.condition device.old.parts device.old.disk.now }
    requires tickets { AreInFlight tickets.now device.old.parts.common.slots }
    requires number { list_any (is_of number) tickets.now.waiting.items ≡ true }

    ensures answered { AnswersWell D.moments (one_serve number) result device.old.parts device.new.parts
        device.old.disk.now device.new.disk.now }

    ensures cause { HasCause (D.faults device.old.disk.now) (D.faults device.new.disk.now) result }
    ensures err { FailsSo D.moments (one_serve number) result device.old.parts device.new.parts
        device.old.disk.now device.new.disk.now }

    ensures works { OnOk result (device.new.condition ≡ Working) }
    ensures broken { OnErr result (device.new.condition ≡ Broken) }
    ensures stays { StaysOn D.identity D.moments device.new.condition device.old.parts device.new.parts tickets.now
        device.old.disk.now device.new.disk.now }
    ensures same_disk { device.new.disk.ghost_name ≡ device.old.disk.ghost_name }
{
    let served = serve(device, tickets.ticket_of(number))?;
    Ok(served_answer(served))
}

/// Takes the reply of the request of a ticket, which is then no more in flight. One that is not done stays so.
pub(crate) fn take<'d, 'p, D: Disk>(
    device: &mut Device<'d, 'p, D>,
    tickets: &mut Tickets,
    number: u64,
) -> LineAnswer
    requires works { Works D.identity D.moments device.old.condition device.old.parts device.old.disk.now }
    requires tickets { AreInFlight tickets.old device.old.parts.common.slots }
    requires number { list_any (is_of number) tickets.old.waiting.items ≡ true }

    ensures answered { AnswersSo D.moments (one_take number) result device.old.parts device.new.parts
        device.old.disk.now device.new.disk.now }

    ensures works { device.new.condition ≡ Working }
    ensures stays { StaysOn D.identity D.moments device.new.condition device.old.parts device.new.parts tickets.new
        device.old.disk.now device.new.disk.now }
    ensures submitted { device.new.parts.common.slots.submitted ≡ device.old.parts.common.slots.submitted }
    ensures disk { device.new.disk.now ≡ device.old.disk.now }
    ensures same_disk { device.new.disk.ghost_name ≡ device.old.disk.ghost_name }
{
    let place = tickets.place_of(number);
    let Waiting {
        ticket,
        first,
        count,
    } = tickets.waiting.remove(place);
    match device.take(ticket) {
        Ok(reply) => LineAnswer::Replied {
            first,
            count,
            reply,
        },
        Err(ticket) => {
            let waiting = Waiting {
                ticket,
                first,
                count,
            };
            tickets.waiting.insert(place, waiting).unwrap();
            LineAnswer::NotDone
        }
    }
}

/// Lets an actor do its next step.
///
/// # Errors
///
/// - `Failed`: the disk failed. The device is broken then.
pub(crate) fn step<'d, 'p, D: Disk>(
    device: &mut Device<'d, 'p, D>,
    actor: Actor,
) -> Result<LineAnswer, Failed>
    requires works { Works D.identity D.moments device.old.condition device.old.parts device.old.disk.now }

    ensures answered { AnswersWell D.moments (one_step_of actor) result device.old.parts device.new.parts
        device.old.disk.now device.new.disk.now }
    ensures cause { HasCause (D.faults device.old.disk.now) (D.faults device.new.disk.now) result }
    ensures err { FailsSo D.moments (one_step_of actor) result device.old.parts device.new.parts
        device.old.disk.now device.new.disk.now }

    ensures works { OnOk result (device.new.condition ≡ Working) }
    ensures broken { OnErr result (device.new.condition ≡ Broken) }
    ensures keeps { KeepsOn D.identity D.moments device.new.condition device.old.parts device.new.parts
        device.old.disk.now device.new.disk.now }
    ensures quiet { HasNoWork (mode_of device.old.parts.mode) (actor_of actor)
        → device.new.disk.now ≡ device.old.disk.now }
    ensures same_disk { device.new.disk.ghost_name ≡ device.old.disk.ghost_name }
{
    let moved = device::step(device, actor)?;
    Ok(moved_answer(moved))
}

/// What is told of a step.
fn moved_answer(moved: Moved) -> LineAnswer
    ensures { result ≡ moved_line moved }
{
    match moved {
        Moved::Did => LineAnswer::Did,
        Moved::Idle => LineAnswer::Idle,
    }
}

/// What is told of a serve.
fn served_answer(served: Served) -> LineAnswer
    ensures { result ≡ served_line served }
{
    match served {
        Served::Held { by } => LineAnswer::HeldBy { by },
        Served::Did => LineAnswer::Did,
        Served::Done => LineAnswer::Done,
        Served::NoRoom => LineAnswer::NoRoom,
    }
}

/// The blocks that a request is for: the first, and how many. A flush is for none, and tells 0 and 0.
fn blocks_of(request: &Request) -> (u64, u64)
    ensures first { result.0 ≡ first_in request.now }
    ensures count { result.1 ≡ count_in request.now }
{
    match request {
        Request::Read { first, count, .. } | Request::Write { first, count, .. } => {
            (*first, *count)
        }
        Request::Flush => (0, 0),
    }
}

/// What is told of a request that is refused. A line of a wrong range or length is refused before.
fn refused(fault: SubmitFault) -> LineAnswer
    ensures { result ≡ refused_answer fault }
{
    match fault {
        SubmitFault::ReadOnly => LineAnswer::ReadOnly,
        SubmitFault::SlotsFull { .. } => LineAnswer::SlotsFull,
        SubmitFault::Broken | SubmitFault::Range { .. } | SubmitFault::Length { .. } => {
            LineAnswer::Nothing
        }
    }
}
