//! Serving a request: one block is read, or a flush is done.
ghost use Rattle.std.specs.Prelude.{◌≡◌, ◌<◌, true};
ghost use Rattle.disk_model.specs.Causes.{HasCause};
ghost use Rattle.request_slots.specs.Flight.{FitsFlight, IsRead, is_in_flight, turn_of};
ghost use Rattle.request_slots.specs.declared.turn.Turn.TheVariants as Turns;
ghost use Rattle.device_parts.specs.Answers.{ServesNext};
ghost use Rattle.recovery_device.specs.Answers.{KeepsOthers};
ghost use Rattle.recovery_device.specs.Device.{IsReady, in_recovery};

use device_parts::{Parts, Served};
use request_slots::{Ticket, Turn};
use sector_disk::{Disk, Failed};

/// Does what is next for a request: reads one block, whatever its tag is, or finishes a flush, for which the disk is not
/// called. It does nothing of one that is done, or that waits for another one. No request is a write.
///
/// # Errors
///
/// - `Failed`: the disk failed at the read. The request is as far as it was.
pub fn serve<D: Disk>(disk: &mut D, parts: &mut Parts, ticket: &Ticket) -> Result<Served, Failed>
    requires ready { IsReady parts.old (D.identity disk.old) (D.moments disk.old) }
    requires there { is_in_flight ticket.now parts.old.slots ≡ true }

    ensures next { ServesNext in_recovery ticket.now parts.old parts.new
        (D.moments disk.old) (D.moments disk.new) result }

    ensures cause { HasCause (D.faults disk.old) (D.faults disk.new) result }

    ensures ready { IsReady parts.new (D.identity disk.new) (D.moments disk.new) }
    ensures others { KeepsOthers ticket.now parts.old.slots parts.new.slots }
    ensures uncalled { (IsRead (turn_of parts.old.slots ticket.now) → ⊥) → disk.new ≡ disk.old }
    ensures identity { D.identity disk.new ≡ D.identity disk.old }
    ensures kept { D.moments disk.new ≡ D.moments disk.old }
{
    match parts.slots.turn(ticket) {
        Turn::Finished => Ok(Served::Done),
        Turn::Held { by } => Ok(Served::Held { by }),
        Turn::Read { block } => serve_read(disk, parts, ticket, block),
        Turn::Write { .. } => unreachable!(),
        Turn::Flush => {
            parts.slots.finish(ticket);
            Ok(Served::Done)
        }
    }
}

/// Reads the next block of a read, whatever its tag is.
fn serve_read<D: Disk>(
    disk: &mut D,
    parts: &mut Parts,
    ticket: &Ticket,
    block: u64,
) -> Result<Served, Failed>
    requires ready { IsReady parts.old (D.identity disk.old) (D.moments disk.old) }
    requires there { is_in_flight ticket.now parts.old.slots ≡ true }
    requires turn { turn_of parts.old.slots ticket.now ≡ Turns.Read block }
    requires within { block < parts.old.slots.blocks }
    requires fits { FitsFlight ticket.now parts.old.slots }

    ensures next { ServesNext in_recovery ticket.now parts.old parts.new
        (D.moments disk.old) (D.moments disk.new) result }

    ensures cause { HasCause (D.faults disk.old) (D.faults disk.new) result }

    ensures ready { IsReady parts.new (D.identity disk.new) (D.moments disk.new) }
    ensures others { KeepsOthers ticket.now parts.old.slots parts.new.slots }
    ensures identity { D.identity disk.new ≡ D.identity disk.old }
    ensures kept { D.moments disk.new ≡ D.moments disk.old }
{
    parts.tags.read_block(disk, block, &mut parts.buffer)?;
    parts.slots.put_block(ticket, &parts.buffer);
    Ok(parts.served(ticket))
}
