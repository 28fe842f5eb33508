//! Serving a request: one block is read or written, or all is flushed.
ghost use Rattle.std.specs.Prelude.{◌≡◌, ◌<◌, true, OnOk};
ghost use Rattle.disk_model.specs.Causes.{HasCause};
ghost use Rattle.request_slots.specs.Flight.{FitsFlight, is_in_flight, turn_of};
ghost use Rattle.request_slots.specs.declared.turn.Turn.TheVariants as Turns;
ghost use Rattle.device_parts.specs.Answers.{IsOfNoBlock};
ghost use Rattle.direct_device.specs.Answers.{Serves, WritesServed};
ghost use Rattle.direct_device.specs.Device.{IsReady, kept};

use crate::taking::take_to_read;
use device_parts::{Parts, Served};
use direct_mode::{flush, read_block, serve_block};
use recalculation::Recalculation;
use request_slots::{Ticket, Turn};
use sector_disk::{Disk, Failed};

/// Does what is next for a request: reads or writes one block, or flushes. It does nothing of one that is done, or that
/// waits for another one. A read recalculates its block's region first, where that awaits.
///
/// # Errors
///
/// - `Failed`: the disk failed.
pub fn serve<D: Disk>(
    disk: &mut D,
    parts: &mut Parts,
    recalculation: &mut Recalculation,
    ticket: &Ticket,
) -> Result<Served, Failed>
    requires ready { IsReady parts.old recalculation.old (D.identity disk.old) (D.moments disk.old) }
    requires there { is_in_flight ticket.now parts.old.slots ≡ true }

    ensures next { Serves ticket.now (kept parts.old recalculation.old) (kept parts.new recalculation.new)
        (D.moments disk.old) (D.moments disk.new) result }

    ensures cause { HasCause (D.faults disk.old) (D.faults disk.new) result }

    ensures ready { IsReady parts.new recalculation.new (D.identity disk.new) (D.moments disk.new) }
    ensures identity { D.identity disk.new ≡ D.identity disk.old }
    ensures unread { IsOfNoBlock (turn_of parts.old.slots ticket.now) → D.reads disk.new ≡ D.reads disk.old }
    ensures writes { WritesServed ticket.now parts.old parts.new (D.moments disk.old) (D.moments disk.new) }
{
    match parts.slots.turn(ticket) {
        Turn::Finished => Ok(Served::Done),
        Turn::Held { by } => Ok(Served::Held { by }),
        Turn::Read { block } => serve_read(disk, parts, recalculation, ticket, block),
        Turn::Write { block, is_flushed } => serve_write(
            disk,
            parts,
            recalculation,
            ticket,
            block,
            is_flushed,
        ),
        Turn::Flush => serve_flush(disk, parts, recalculation, ticket),
    }
}

/// Reads the next block of a read, and compares its tag. Where its region awaits, that is recalculated first.
fn serve_read<D: Disk>(
    disk: &mut D,
    parts: &mut Parts,
    recalculation: &mut Recalculation,
    ticket: &Ticket,
    block: u64,
) -> Result<Served, Failed>
    requires ready { IsReady parts.old recalculation.old (D.identity disk.old) (D.moments disk.old) }
    requires there { is_in_flight ticket.now parts.old.slots ≡ true }
    requires turn { turn_of parts.old.slots ticket.now ≡ Turns.Read block }
    requires within { block < parts.old.slots.blocks }
    requires fits { FitsFlight ticket.now parts.old.slots }

    ensures next { Serves ticket.now (kept parts.old recalculation.old) (kept parts.new recalculation.new)
        (D.moments disk.old) (D.moments disk.new) result }

    ensures cause { HasCause (D.faults disk.old) (D.faults disk.new) result }

    ensures ready { IsReady parts.new recalculation.new (D.identity disk.new) (D.moments disk.new) }
    ensures identity { D.identity disk.new ≡ D.identity disk.old }
    ensures writes { WritesServed ticket.now parts.old parts.new (D.moments disk.old) (D.moments disk.new) }
{
    take_to_read(disk, &mut parts.tags, &parts.maker, recalculation, block)?;
    let stored = read_block(disk, &mut parts.tags, block, &mut parts.buffer)?;
    Ok(parts.serve_read(ticket, block, stored))
}

/// Writes the next block of a write, and flushes all where that is asked.
fn serve_write<D: Disk>(
    disk: &mut D,
    parts: &mut Parts,
    recalculation: &Recalculation,
    ticket: &Ticket,
    block: u64,
    is_flushed: bool,
) -> Result<Served, Failed>
    requires ready { IsReady parts.old recalculation.now (D.identity disk.old) (D.moments disk.old) }
    requires there { is_in_flight ticket.now parts.old.slots ≡ true }
    requires turn { turn_of parts.old.slots ticket.now ≡ Turns.Write block is_flushed }
    requires within { block < parts.old.slots.blocks }
    requires fits { FitsFlight ticket.now parts.old.slots }

    ensures next { Serves ticket.now (kept parts.old recalculation.now) (kept parts.new recalculation.now)
        (D.moments disk.old) (D.moments disk.new) result }

    ensures cause { HasCause (D.faults disk.old) (D.faults disk.new) result }

    ensures ready { IsReady parts.new recalculation.now (D.identity disk.new) (D.moments disk.new) }
    ensures identity { D.identity disk.new ≡ D.identity disk.old }
    ensures writes { WritesServed ticket.now parts.old parts.new (D.moments disk.old) (D.moments disk.new) }
{
    // The regions are named in the contract alone: a write takes none.
    let _ = recalculation;
    let bytes = parts.slots.next_bytes(ticket);
    let tag = parts.maker.tag(block * parts.spb, bytes);
    serve_block(disk, &mut parts.tags, block, bytes, &tag, is_flushed)?;
    parts.slots.count_block(ticket);
    Ok(parts.served(ticket))
}

/// Flushes all that was written.
fn serve_flush<D: Disk>(
    disk: &mut D,
    parts: &mut Parts,
    recalculation: &Recalculation,
    ticket: &Ticket,
) -> Result<Served, Failed>
    requires ready { IsReady parts.old recalculation.now (D.identity disk.old) (D.moments disk.old) }
    requires there { is_in_flight ticket.now parts.old.slots ≡ true }
    requires turn { turn_of parts.old.slots ticket.now ≡ Turns.Flush }

    ensures next { Serves ticket.now (kept parts.old recalculation.now) (kept parts.new recalculation.now)
        (D.moments disk.old) (D.moments disk.new) result }

    ensures cause { HasCause (D.faults disk.old) (D.faults disk.new) result }

    ensures ready { IsReady parts.new recalculation.now (D.identity disk.new) (D.moments disk.new) }
    ensures identity { D.identity disk.new ≡ D.identity disk.old }
    ensures unread { D.reads disk.new ≡ D.reads disk.old }
    ensures writes { WritesServed ticket.now parts.old parts.new (D.moments disk.old) (D.moments disk.new) }
{
    // The regions are named in the contract alone: a flush takes none.
    let _ = recalculation;
    flush(disk, &mut parts.tags)?;
    parts.slots.finish(ticket);
    Ok(Served::Done)
}
