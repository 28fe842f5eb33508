//! Writes a line by its pieces, so that it takes no memory.
ghost use Rattle.std.specs.Prelude.{◌≡◌};
ghost use Rattle.disk_model.specs.Causes.{HasCause};
ghost use Rattle.command_ending.specs.Ended.{Puts, bytes_of};

use sector_disk::Failed;
use stream_io::{Sink, put_all};

/// Writes these pieces one after the other. It takes no memory.
///
/// # Errors
///
/// - `Failed`: the sink failed. It has taken some of their bytes from the front, or none, and not all.
pub fn put_pieces<O: Sink>(out: &mut O, pieces: &[&[u8]]) -> Result<(), Failed>
    ensures line { Puts (bytes_of pieces.now) (O.held out.old) (O.held out.new) result }
    ensures cause { HasCause (O.faults out.old) (O.faults out.new) result }
{
    for piece in pieces {
        put_all(out, piece)?;
    }
    Ok(())
}
