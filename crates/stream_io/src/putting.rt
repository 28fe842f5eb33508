//! Writes all of some bytes into a sink.
ghost use Rattle.std.specs.Prelude.{◌≡◌, OnOk, OnErr};
ghost use Rattle.std.specs.Option.{option_map};
ghost use Rattle.disk_model.specs.Causes.{HasCause};
ghost use Rattle.stream_io.specs.Stream.{with_bytes, AddsPrefix};

use crate::Sink;
use sector_disk::Failed;

/// Writes all bytes, by as many calls of `write` as the sink asks for.
///
/// # Errors
///
/// - `Failed`: the sink failed. It has taken some of the bytes from the front, or none, and not all.
pub fn put_all<S: Sink>(sink: &mut S, bytes: &[u8]) -> Result<(), Failed>
    ensures written { OnOk result (S.held sink.new ≡ option_map (with_bytes bytes.now) (S.held sink.old)) }

    ensures cause { HasCause (S.faults sink.old) (S.faults sink.new) result }
    ensures err { OnErr result (AddsPrefix bytes.now (S.held sink.old) (S.held sink.new)) }
{
    let mut done = 0;
    while done < bytes.len() {
        done += sink.write(&bytes[done..])?;
    }
    Ok(())
}
