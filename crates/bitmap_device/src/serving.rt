//! Serving a request: one block is read or written, or all is flushed.
ghost use Rattle.std.specs.Prelude.{◌≡◌, ◌<◌, true};
ghost use Rattle.disk_model.specs.Causes.{HasCause};
ghost use Rattle.device_model.specs.Progress as Model;
ghost use Rattle.request_slots.specs.Flight.{FitsFlight, is_in_flight, turn_of};
ghost use Rattle.request_slots.specs.declared.turn.Turn.TheVariants as Turns;
ghost use Rattle.device_parts.specs.Answers.{ServesNext, IsOfNoBlock};
ghost use Rattle.bitmap_device.specs.Answers.{WritesFor};
ghost use Rattle.bitmap_device.specs.Device.{IsReady, KeepsTagsBy, in_bitmap, kept};

use bitmap_mode::RegionStates;
use device_parts::{Parts, Served};
use request_slots::{Ticket, Turn};
use sector_disk::{Disk, Failed};

/// Does what is next for a request: reads or writes one block, or flushes. It does nothing of one that is done, or that
/// waits for another one. A read recalculates its block's region first, where that awaits; a write sets the bit of its
/// region first, and syncs, where that is clear.
///
/// # Errors
///
/// - `Failed`: the disk failed.
pub fn serve<D: Disk>(
    disk: &mut D,
    parts: &mut Parts,
    regions: &mut RegionStates,
    ticket: &Ticket,
) -> Result<Served, Failed>
    requires ready { IsReady parts.old regions.old (D.identity disk.old) (D.moments disk.old) }
    requires there { is_in_flight ticket.now parts.old.slots ≡ true }

    ensures next { ServesNext in_bitmap ticket.now (kept parts.old regions.old) (kept parts.new regions.new)
        (D.moments disk.old) (D.moments disk.new) result }
    ensures tags { KeepsTagsBy (Model.FailedServe ticket.now) (kept parts.old regions.old)
        (D.moments disk.old) (D.moments disk.new) }

    ensures cause { HasCause (D.faults disk.old) (D.faults disk.new) result }

    ensures ready { IsReady parts.new regions.new (D.identity disk.new) (D.moments disk.new) }
    ensures identity { D.identity disk.new ≡ D.identity disk.old }
    ensures unread { IsOfNoBlock (turn_of parts.old.slots ticket.now) → D.reads disk.new ≡ D.reads disk.old }
    ensures writes { WritesFor (turn_of parts.old.slots ticket.now) ticket.now parts.old regions.old
        (D.moments disk.old) (D.moments disk.new) }
{
    match parts.slots.turn(ticket) {
        Turn::Finished => Ok(Served::Done),
        Turn::Held { by } => Ok(Served::Held { by }),
        Turn::Read { block } => serve_read(disk, parts, regions, ticket, block),
        Turn::Write { block, is_flushed } => serve_write(
            disk, parts, regions, ticket, block, is_flushed,
        ),
        Turn::Flush => serve_flush(disk, parts, regions, ticket),
    }
}

/// Reads the next block of a read, and compares its tag. Where its region awaits, that is recalculated first.
fn serve_read<D: Disk>(
    disk: &mut D,
    parts: &mut Parts,
    regions: &mut RegionStates,
    ticket: &Ticket,
    block: u64,
) -> Result<Served, Failed>
    requires ready { IsReady parts.old regions.old (D.identity disk.old) (D.moments disk.old) }
    requires there { is_in_flight ticket.now parts.old.slots ≡ true }
    requires turn { turn_of parts.old.slots ticket.now ≡ Turns.Read block }
    requires within { block < parts.old.slots.blocks }
    requires fits { FitsFlight ticket.now parts.old.slots }

    ensures next { ServesNext in_bitmap ticket.now (kept parts.old regions.old) (kept parts.new regions.new)
        (D.moments disk.old) (D.moments disk.new) result }
    ensures tags { KeepsTagsBy (Model.FailedServe ticket.now) (kept parts.old regions.old)
        (D.moments disk.old) (D.moments disk.new) }

    ensures cause { HasCause (D.faults disk.old) (D.faults disk.new) result }

    ensures ready { IsReady parts.new regions.new (D.identity disk.new) (D.moments disk.new) }
    ensures identity { D.identity disk.new ≡ D.identity disk.old }
    ensures writes { WritesFor (Turns.Read block) ticket.now parts.old regions.old
        (D.moments disk.old) (D.moments disk.new) }
{
    let stored = regions.read_block(
        disk,
        &mut parts.tags,
        &parts.maker,
        block,
        &mut parts.buffer,
    )?;
    Ok(parts.serve_read(ticket, block, stored))
}

/// Writes the next block of a write, with the bit of its region first, and flushes all where that is asked.
fn serve_write<D: Disk>(
    disk: &mut D,
    parts: &mut Parts,
    regions: &mut RegionStates,
    ticket: &Ticket,
    block: u64,
    is_flushed: bool,
) -> Result<Served, Failed>
    requires ready { IsReady parts.old regions.old (D.identity disk.old) (D.moments disk.old) }
    requires there { is_in_flight ticket.now parts.old.slots ≡ true }
    requires turn { turn_of parts.old.slots ticket.now ≡ Turns.Write block is_flushed }
    requires within { block < parts.old.slots.blocks }
    requires fits { FitsFlight ticket.now parts.old.slots }

    ensures next { ServesNext in_bitmap ticket.now (kept parts.old regions.old) (kept parts.new regions.new)
        (D.moments disk.old) (D.moments disk.new) result }
    ensures tags { KeepsTagsBy (Model.FailedServe ticket.now) (kept parts.old regions.old)
        (D.moments disk.old) (D.moments disk.new) }

    ensures cause { HasCause (D.faults disk.old) (D.faults disk.new) result }

    ensures ready { IsReady parts.new regions.new (D.identity disk.new) (D.moments disk.new) }
    ensures identity { D.identity disk.new ≡ D.identity disk.old }
    ensures writes { WritesFor (Turns.Write block is_flushed) ticket.now parts.old regions.old
        (D.moments disk.old) (D.moments disk.new) }
{
    let bytes = parts.slots.next_bytes(ticket);
    let tag = parts.maker.tag(block * parts.spb, bytes);
    regions.write_block(disk, &mut parts.tags, block, bytes, &tag, is_flushed)?;
    parts.slots.count_block(ticket);
    Ok(parts.served(ticket))
}

/// Flushes all that was written.
fn serve_flush<D: Disk>(
    disk: &mut D,
    parts: &mut Parts,
    regions: &mut RegionStates,
    ticket: &Ticket,
) -> Result<Served, Failed>
    requires ready { IsReady parts.old regions.old (D.identity disk.old) (D.moments disk.old) }
    requires there { is_in_flight ticket.now parts.old.slots ≡ true }
    requires turn { turn_of parts.old.slots ticket.now ≡ Turns.Flush }

    ensures next { ServesNext in_bitmap ticket.now (kept parts.old regions.old) (kept parts.new regions.new)
        (D.moments disk.old) (D.moments disk.new) result }
    ensures tags { KeepsTagsBy (Model.FailedServe ticket.now) (kept parts.old regions.old)
        (D.moments disk.old) (D.moments disk.new) }

    ensures cause { HasCause (D.faults disk.old) (D.faults disk.new) result }

    ensures ready { IsReady parts.new regions.new (D.identity disk.new) (D.moments disk.new) }
    ensures identity { D.identity disk.new ≡ D.identity disk.old }
    ensures unread { D.reads disk.new ≡ D.reads disk.old }
    ensures writes { WritesFor Turns.Flush ticket.now parts.old regions.old
        (D.moments disk.old) (D.moments disk.new) }
{
    regions.flush(disk, &mut parts.tags)?;
    parts.slots.finish(ticket);
    Ok(Served::Done)
}
