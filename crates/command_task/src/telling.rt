//! What a command writes, and how it ends that.
ghost use Rattle.std.specs.Prelude.{◌≡◌, OnErr, OnOk};
ghost use Rattle.std.specs.Option.{option_map};
ghost use Rattle.disk_model.specs.Causes.{HasCause};
ghost use Rattle.stream_io.specs.Stream.{AddsPrefix, with_bytes};
ghost use Rattle.command_ending.specs.Ended.{ending_of};
ghost use Rattle.command_task.specs.Telling.{last_text};

use command_ending::Ended;
use sector_disk::Failed;
use stream_io::Sink;

/// What a command writes.
#[derive(Clone, Copy, Debug, PartialEq, Eq)]
pub enum Telling {
    /// Lines, the last of which tells what ended it.
    Lines,
    /// The replies of a session that has begun, and nothing else.
    Replies,
}

/// Tells by a last line what ended a command, where it writes lines.
///
/// # Errors
///
/// - `Failed`: the sink failed. It has taken some of the line from the front, or none, and not all.
pub fn put_end<O: Sink>(telling: Telling, ended: &Ended, out: &mut O) -> Result<(), Failed>
    ensures written { OnOk result (O.held out.new
        ≡ option_map (with_bytes (last_text telling (ending_of ended.now))) (O.held out.old)) }

    ensures cause { HasCause (O.faults out.old) (O.faults out.new) result }
    ensures err { OnErr result (AddsPrefix (last_text telling (ending_of ended.now))
        (O.held out.old) (O.held out.new)) }
{
    match telling {
        Telling::Lines => ended.put_last_line(out),
        Telling::Replies => Ok(()),
    }
}
