//! Runs a script on a mirror: the mirror is levelled, and then each line is run, and its text printed whole, before the
//! next one is taken.
ghost use Rattle.std.specs.Prelude.{◌≡◌, [], false, IfErr, OnOk};
ghost use Rattle.mirror_calls.specs.Calls.{StaysReady, Works};
ghost use Rattle.script_lines.specs.Ends.{EndsScript};
ghost use Rattle.mirror_run.specs.Calls.{HasCauseOfScript, IsCountedInScript, MayAskScript, ReadsScript, RunsScript};
ghost use Rattle.mirror_run.specs.Calls.{StopsScript};
ghost use Rattle.mirror_run.specs.Standing.{cuts_by, shown_by};

use crate::levelling::level;
use crate::lines::run_bytes;
use command_ending::Ended;
use mirror_calls::{Leg, Mirror};
use script_lines::{advance, either};
use script_reader::LineReader;
use script_text::TagsFound;
use std::alloc::Global;
use stream_io::{Sink, Source};

/// Levels a mirror that has just been made, and runs the lines of a script on it, up to the last. It tells whether one of
/// them told a block that matches on neither leg. The mirror is not closed.
///
/// # Errors
///
/// - `Line`, `Length`: the script is refused from there on.
/// - `Disk`, `Script`, `Sink`: that failed. By a disk the mirror is broken.
/// - `Memory`: there is none for the levelling, or for what a line needs.
pub fn run_script<A: Leg, B: Leg, S: Source, O: Sink>(
    alloc: Global,
    mirror: &mut Mirror<A, B>,
    reader: &mut LineReader,
    script: &mut S,
    out: &mut O,
) -> Result<TagsFound, Ended>
    requires works { Works A.ready A.blocks A.block_size B.ready B.blocks B.block_size
        mirror.old.broken mirror.old.a mirror.old.b }
    requires few { MayAskScript A.submitted B.submitted mirror.old.a mirror.old.b }
    requires begins { reader.old ≡ record { unread = []; line = []; taken = 0 } }

    ensures ran { RunsScript (cuts_by A.may_be_left B.may_be_left)
        (shown_by A.stands_for B.stands_for A.moments B.moments) S.left O.held result
        mirror.old.a mirror.old.b mirror.new.a mirror.new.b script.old out.old out.new }

    ensures stopped { StopsScript (cuts_by A.may_be_left B.may_be_left)
        (shown_by A.stands_for B.stands_for A.moments B.moments) S.left O.held result
        mirror.old.a mirror.old.b mirror.new.a mirror.new.b script.old out.old out.new }
    ensures ends { IfErr result EndsScript }
    ensures cause { HasCauseOfScript A.faults B.faults S.faults O.faults result
        mirror.old.a mirror.old.b mirror.new.a mirror.new.b script.old script.new out.old out.new }
    ensures counted { IsCountedInScript A.faults B.faults S.faults O.faults result
        mirror.old.a mirror.old.b mirror.new.a mirror.new.b script.old script.new out.old out.new }

    ensures read { ReadsScript (shown_by A.stands_for B.stands_for A.moments B.moments) S.left O.held S.faults
        mirror.old.a mirror.old.b script.old script.new out.old out.new }
    ensures works { OnOk result (mirror.new.broken ≡ false) }
    ensures stays { StaysReady A.ready A.blocks A.block_size A.name B.ready B.blocks B.block_size B.name
        mirror.old.a mirror.old.b mirror.new.broken mirror.new.a mirror.new.b }
{
    A::legs_are_left_as_told();
    B::legs_are_left_as_told();
    level(alloc, mirror, out)?;
    let mut found = TagsFound::Matching;
    let mut number = 1;
    while advance(reader, script, number)? {
        let told = run_bytes(alloc, mirror, reader.line(), number, out)?;
        found = either(found, told);
        number += 1;
    }
    Ok(found)
}
