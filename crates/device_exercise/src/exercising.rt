//! Runs the requests of an exercise, one by one, and counts what they are answered.
ghost use Rattle.std.specs.Prelude.{◌≡◌, ◌+◌, ◌<◌, ◌≤◌, ◌^◌, [], Err, IfOk, None, false};
ghost use Rattle.workload_model.specs.Exercise.{read_all};
ghost use Rattle.workload_model.specs.Workload.{workload_asks};
ghost use Rattle.device_model.specs.Script.{AskLine};
ghost use Rattle.device.specs.Calls.{Works};
ghost use Rattle.script_text.specs.Line.{ask_of};
ghost use Rattle.script_session.specs.Calls.{TurnsAt, fault_in};
ghost use Rattle.script_session.specs.Stop.{HasStopCause};
ghost use Rattle.script_session.specs.Tickets.{AreInFlight};
ghost use Rattle.workload.specs.Tally.{lines_in};
ghost use Rattle.device_exercise.specs.Calls.{CutsAsks, CutsExercise, Exercises, LeavesReady, RunsAsks, RunsWorkload};
ghost use Rattle.device_exercise.specs.Calls.{StaysIn, StaysRead, only};
ghost use Rattle.device_exercise.specs.Exercising.{with_reply_of};

use device::Device;
use request_slots::Reply;
use script_session::{Stop, Tickets, run_ask};
use script_text::Ask;
use sector_disk::Disk;
use std::alloc::Global;
use workload::{Tally, Workload};

/// Runs `count` requests of the workload of a seed on a device that works and has no request in flight, one by one, and
/// then a read of each block by itself, in order. It tells how many requests of the workload there were, and what all
/// replies brought. Nothing is printed, and the device stays open.
///
/// # Errors
///
/// - `Disk`: the disk failed. The device is broken then.
/// - `Memory`: there is none for a request. The first of what it does is done, and the device works.
///
/// Own: `docs/COMMANDS.md`, the exercise.
pub fn exercise<'d, 'p, D: Disk>(
    alloc: Global,
    device: &mut Device<'d, 'p, D>,
    seed: u64,
    count: u64,
) -> Result<Tally, Stop>
    requires works { Works D.identity D.moments device.old.condition device.old.parts device.old.disk.now }
    requires requests { device.old.parts.common.slots.slots ≡ [] }
    requires number { device.old.parts.common.slots.submitted + count + device.old.parts.common.slots.blocks < 2 ^ 64 }

    ensures ran { Exercises D.moments seed count result device.old.parts device.new.parts
        device.old.disk.now device.new.disk.now }

    ensures stopped { CutsExercise D.moments seed count result device.old.parts
        device.old.disk.now device.new.disk.now }
    ensures cause { HasStopCause (D.faults device.old.disk.now) (D.faults device.new.disk.now) result }

    ensures turn { TurnsAt (Err Stop.Disk) result device.new.condition }
    ensures leaves { LeavesReady D.identity D.moments device.new.condition device.old.parts device.new.parts
        device.old.disk.now device.new.disk.now }
    ensures same_disk { device.new.disk.ghost_name ≡ device.old.disk.ghost_name }
{
    let mut tickets = Tickets::new(alloc);
    let mut tally = run_workload(alloc, device, &mut tickets, seed, count)?;
    read_blocks(alloc, device, &mut tickets, &mut tally)?;
    Ok(tally)
}

/// Runs and counts `count` requests of the workload of a seed.
///
/// # Errors
///
/// - `Disk`: the disk failed. The device is broken then.
/// - `Memory`: there is none for a request.
fn run_workload<'d, 'p, D: Disk>(
    alloc: Global,
    device: &mut Device<'d, 'p, D>,
    tickets: &mut Tickets,
    seed: u64,
    count: u64,
) -> Result<Tally, Stop>
    requires works { Works D.identity D.moments device.old.condition device.old.parts device.old.disk.now }
    requires tickets { AreInFlight tickets.old device.old.parts.common.slots }
    requires number { device.old.parts.common.slots.submitted + count < 2 ^ 64 }

    ensures ran { RunsWorkload D.moments seed count result device.old.parts device.new.parts
        device.old.disk.now device.new.disk.now }
    ensures faults { IfOk result (λ tally. tally.faults ≤ count) }

    ensures stopped { CutsAsks D.moments (workload_asks count seed) result device.old.parts
        device.old.disk.now device.new.disk.now }
    ensures cause { HasStopCause (D.faults device.old.disk.now) (D.faults device.new.disk.now) result }

    ensures turn { TurnsAt (Err Stop.Disk) result device.new.condition }
    ensures stays { StaysIn count D.identity D.moments device.new.condition device.old.parts device.new.parts
        tickets.new device.old.disk.now device.new.disk.now }
    ensures same_disk { device.new.disk.ghost_name ≡ device.old.disk.ghost_name }
{
    let mut workload = Workload::new(seed, device.blocks());
    let mut tally = Tally::new();
    for _made in 0..count {
        let ask = workload.next_ask();
        tally.add_ask(&ask);
        run_counted(alloc, device, tickets, &mut tally, &ask)?;
    }
    Ok(tally)
}

/// Reads each block by itself, in order, and adds what its reply brings.
///
/// # Errors
///
/// - `Disk`: the disk failed. The device is broken then.
/// - `Memory`: there is none for a request.
fn read_blocks<'d, 'p, D: Disk>(
    alloc: Global,
    device: &mut Device<'d, 'p, D>,
    tickets: &mut Tickets,
    tally: &mut Tally,
) -> Result<(), Stop>
    requires works { Works D.identity D.moments device.old.condition device.old.parts device.old.disk.now }
    requires tickets { AreInFlight tickets.old device.old.parts.common.slots }
    requires number { device.old.parts.common.slots.submitted + device.old.parts.common.slots.blocks < 2 ^ 64 }
    requires faults { tally.old.faults + device.old.parts.common.slots.blocks < 2 ^ 64 }

    ensures ran { RunsAsks D.moments read_all result tally.old tally.new device.old.parts device.new.parts
        device.old.disk.now device.new.disk.now }

    ensures stopped { CutsAsks D.moments read_all result device.old.parts
        device.old.disk.now device.new.disk.now }
    ensures cause { HasStopCause (D.faults device.old.disk.now) (D.faults device.new.disk.now) result }

    ensures turn { TurnsAt (Err Stop.Disk) result device.new.condition }
    ensures stays { StaysRead D.identity D.moments device.new.condition device.old.parts device.new.parts
        tickets.new device.old.disk.now device.new.disk.now }
    ensures same_disk { device.new.disk.ghost_name ≡ device.old.disk.ghost_name }
{
    let blocks = device.blocks();
    for block in 0..blocks {
        let ask = Ask::Read {
            first: block,
            count: 1,
        };
        run_counted(alloc, device, tickets, tally, &ask)?;
    }
    Ok(())
}

/// Runs a request, and adds what its reply brings.
///
/// # Errors
///
/// - `Disk`: the disk failed. The device is broken then.
/// - `Memory`: there is none for the request.
fn run_counted<'d, 'p, D: Disk>(
    alloc: Global,
    device: &mut Device<'d, 'p, D>,
    tickets: &mut Tickets,
    tally: &mut Tally,
    ask: &Ask<'_>,
) -> Result<(), Stop>
    requires works { Works D.identity D.moments device.old.condition device.old.parts device.old.disk.now }
    requires tickets { AreInFlight tickets.old device.old.parts.common.slots }
    requires number { device.old.parts.common.slots.submitted + 1 < 2 ^ 64 }
    requires faults { tally.old.faults + 1 < 2 ^ 64 }
    requires runnable { fault_in device.old.parts.common.slots tickets.old (AskLine false (ask_of ask.now)) ≡ None }

    ensures ran { RunsAsks D.moments (only (ask_of ask.now)) result tally.old tally.new
        device.old.parts device.new.parts device.old.disk.now device.new.disk.now }

    ensures stopped { CutsAsks D.moments (only (ask_of ask.now)) result device.old.parts
        device.old.disk.now device.new.disk.now }
    ensures cause { HasStopCause (D.faults device.old.disk.now) (D.faults device.new.disk.now) result }

    ensures counts { (lines_in tally.new ≡ lines_in tally.old) × (tally.new.faults ≤ tally.old.faults + 1) }
    ensures turn { TurnsAt (Err Stop.Disk) result device.new.condition }
    ensures stays { StaysIn 1 D.identity D.moments device.new.condition device.old.parts device.new.parts
        tickets.new device.old.disk.now device.new.disk.now }
    ensures same_disk { device.new.disk.ghost_name ≡ device.old.disk.ghost_name }
{
    let reply = run_ask(alloc, device, tickets, ask)?;
    add_any(tally, &reply);
    Ok(())
}

/// Adds what a reply brings, if there is one.
fn add_any(tally: &mut Tally, reply: &Option<Reply>)
    requires { tally.old.faults + 1 < 2 ^ 64 }

    ensures added { tally.new ≡ with_reply_of reply.now tally.old }

    ensures lines { lines_in tally.new ≡ lines_in tally.old }
    ensures faults { tally.new.faults ≤ tally.old.faults + 1 }
{
    if let Some(reply) = reply {
        tally.add_reply(reply);
    }
}
