//! Serving a request: one block is read, or put into the journal, or all is flushed.
ghost use Rattle.std.specs.Prelude.{◌≡◌, ◌<◌, false, true};
ghost use Rattle.disk_model.specs.Causes.{HasCause};
ghost use Rattle.journal_model.specs.Ring.{has_room};
ghost use Rattle.request_slots.specs.Flight.{FitsFlight, is_in_flight, turn_of};
ghost use Rattle.request_slots.specs.declared.turn.Turn.TheVariants as Turns;
ghost use Rattle.device_parts.specs.Answers.{condition_by, IsOfNoRead};
ghost use Rattle.device_parts.specs.declared.condition.Condition.TheVariants.{Working};
ghost use Rattle.journal_device.specs.Answers.{Serves, WritesFor};
ghost use Rattle.journal_device.specs.Device.{IsReady, kept};
ghost use Rattle.journal_device.specs.Telling.{TellsOf};

use crate::JournalState;
use crate::taking::take_first;
use crate::writing::flush_if;
use device_parts::{Parts, Served};
use request_slots::{Ticket, Turn};
use sector_disk::{Disk, Failed};

/// Does what is next for a request: reads one block, puts one into the journal, or commits all. It does nothing of one
/// that is done, or that waits for another one, or whose block finds no room.
///
/// A read takes the newest entry of its block in the journal, and else what is placed, once the tags of its region are
/// recalculated where that awaits. The last block of a write that is to be flushed also commits all, as a flush does:
/// by two batches at most.
///
/// Source: Linux, `drivers/md/dm-integrity.c`, `dm_integrity_map_continue` and `integrity_commit`.
///
/// # Errors
///
/// - `Failed`: the disk failed.
pub fn serve<D: Disk>(
    disk: &mut D,
    parts: &mut Parts,
    state: &mut JournalState<'_>,
    ticket: &Ticket,
) -> Result<Served, Failed>
    requires ready { IsReady Working parts.old state.old (D.identity disk.old) (D.moments disk.old) }
    requires there { is_in_flight ticket.now parts.old.slots ≡ true }

    ensures next { Serves ticket.now (kept parts.old state.old) (kept parts.new state.new)
        (D.moments disk.old) (D.moments disk.new) result }
    ensures tells { TellsOf ticket.now parts.old.slots parts.new.slots
        (has_room state.old.journal.ring ≡ false) result }

    ensures cause { HasCause (D.faults disk.old) (D.faults disk.new) result }

    ensures ready { IsReady (condition_by result) parts.new state.new (D.identity disk.new) (D.moments disk.new) }
    ensures identity { D.identity disk.new ≡ D.identity disk.old }
    ensures unread { IsOfNoRead (turn_of parts.old.slots ticket.now) → D.reads disk.new ≡ D.reads disk.old }
    ensures writes { WritesFor (turn_of parts.old.slots ticket.now) parts.old state.old
        (D.moments disk.old) (D.moments disk.new) }
{
    match parts.slots.turn(ticket) {
        Turn::Finished => Ok(Served::Done),
        Turn::Held { by } => Ok(Served::Held { by }),
        Turn::Read { block } => serve_read(disk, parts, state, ticket, block),
        Turn::Write { block, is_flushed } => {
            serve_write(disk, parts, state, ticket, block, is_flushed)
        }
        Turn::Flush => serve_flush(disk, parts, state, ticket),
    }
}

/// Reads the next block of a read, and compares its tag. Its region is recalculated first, where that awaits and no
/// section that is not free holds the block.
fn serve_read<D: Disk>(
    disk: &mut D,
    parts: &mut Parts,
    state: &mut JournalState<'_>,
    ticket: &Ticket,
    block: u64,
) -> Result<Served, Failed>
    requires ready { IsReady Working parts.old state.old (D.identity disk.old) (D.moments disk.old) }
    requires there { is_in_flight ticket.now parts.old.slots ≡ true }
    requires turn { turn_of parts.old.slots ticket.now ≡ Turns.Read block }
    requires within { block < parts.old.slots.blocks }
    requires fits { FitsFlight ticket.now parts.old.slots }

    ensures next { Serves ticket.now (kept parts.old state.old) (kept parts.new state.new)
        (D.moments disk.old) (D.moments disk.new) result }
    ensures tells { TellsOf ticket.now parts.old.slots parts.new.slots
        (has_room state.old.journal.ring ≡ false) result }

    ensures cause { HasCause (D.faults disk.old) (D.faults disk.new) result }

    ensures ready { IsReady (condition_by result) parts.new state.new (D.identity disk.new) (D.moments disk.new) }
    ensures identity { D.identity disk.new ≡ D.identity disk.old }
    ensures writes { WritesFor (turn_of parts.old.slots ticket.now) parts.old state.old
        (D.moments disk.old) (D.moments disk.new) }
{
    take_first(disk, &mut parts.tags, &parts.maker, state, block)?;
    let stored = state
        .journal
        .read_block(disk, &mut parts.tags, block, &mut parts.buffer)?;
    Ok(parts.serve_read(ticket, block, stored))
}

/// Puts the next block of a write into the journal, where that has room for it, and commits all where that is asked.
fn serve_write<D: Disk>(
    disk: &mut D,
    parts: &mut Parts,
    state: &mut JournalState<'_>,
    ticket: &Ticket,
    block: u64,
    is_flushed: bool,
) -> Result<Served, Failed>
    requires ready { IsReady Working parts.old state.old (D.identity disk.old) (D.moments disk.old) }
    requires there { is_in_flight ticket.now parts.old.slots ≡ true }
    requires turn { turn_of parts.old.slots ticket.now ≡ Turns.Write block is_flushed }
    requires within { block < parts.old.slots.blocks }
    requires fits { FitsFlight ticket.now parts.old.slots }

    ensures next { Serves ticket.now (kept parts.old state.old) (kept parts.new state.new)
        (D.moments disk.old) (D.moments disk.new) result }
    ensures tells { TellsOf ticket.now parts.old.slots parts.new.slots
        (has_room state.old.journal.ring ≡ false) result }

    ensures cause { HasCause (D.faults disk.old) (D.faults disk.new) result }

    ensures ready { IsReady (condition_by result) parts.new state.new (D.identity disk.new) (D.moments disk.new) }
    ensures identity { D.identity disk.new ≡ D.identity disk.old }
    ensures unread { D.reads disk.new ≡ D.reads disk.old }
    ensures writes { WritesFor (turn_of parts.old.slots ticket.now) parts.old state.old
        (D.moments disk.old) (D.moments disk.new) }
{
    let bytes = parts.slots.next_bytes(ticket);
    let tag = parts.maker.tag(block * parts.spb, bytes);
    if state.journal.put(block, bytes, &tag).is_err() {
        return Ok(Served::NoRoom);
    }
    flush_if(disk, &parts.tags, &mut state.journal, is_flushed)?;
    parts.slots.count_block(ticket);
    Ok(parts.served(ticket))
}

/// Commits all that was put.
fn serve_flush<D: Disk>(
    disk: &mut D,
    parts: &mut Parts,
    state: &mut JournalState<'_>,
    ticket: &Ticket,
) -> Result<Served, Failed>
    requires ready { IsReady Working parts.old state.old (D.identity disk.old) (D.moments disk.old) }
    requires there { is_in_flight ticket.now parts.old.slots ≡ true }
    requires turn { turn_of parts.old.slots ticket.now ≡ Turns.Flush }

    ensures next { Serves ticket.now (kept parts.old state.old) (kept parts.new state.new)
        (D.moments disk.old) (D.moments disk.new) result }
    ensures tells { TellsOf ticket.now parts.old.slots parts.new.slots
        (has_room state.old.journal.ring ≡ false) result }

    ensures cause { HasCause (D.faults disk.old) (D.faults disk.new) result }

    ensures ready { IsReady (condition_by result) parts.new state.new (D.identity disk.new) (D.moments disk.new) }
    ensures identity { D.identity disk.new ≡ D.identity disk.old }
    ensures unread { D.reads disk.new ≡ D.reads disk.old }
    ensures writes { WritesFor (turn_of parts.old.slots ticket.now) parts.old state.old
        (D.moments disk.old) (D.moments disk.new) }
{
    state.journal.flush(disk, &parts.tags)?;
    parts.slots.finish(ticket);
    Ok(Served::Done)
}
