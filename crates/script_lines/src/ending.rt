//! What ends a run of a script with one of its lines.
ghost use Rattle.std.specs.Prelude.{◌≡◌};
ghost use Rattle.script_text.specs.Line.{fault_of};
ghost use Rattle.script_lines.specs.Ends.{IsOfForm, ended_by};

use command_ending::{Ended, FormFault, LineRefusal, Outer, Refusal};
use script_text::{LineEnd, LineFault};
use std::alloc::Global;

/// What has ended a run with a line of this number.
pub fn ended_by(end: LineEnd, number: u64) -> Ended
    ensures { result ≡ ended_by number end }
{
    match end {
        LineEnd::Refused(fault) => Ended::Refused(Refusal::Line {
            number,
            refusal: LineRefusal::Meaning(fault),
        }),
        LineEnd::Disk => Ended::Failed(Outer::Disk),
        LineEnd::Sink => Ended::Failed(Outer::Sink),
        LineEnd::Memory => Ended::Memory,
    }
}

/// What has ended a run at bytes that are no line, in the place of the line of this number: their fault, or there is no
/// memory for the word that it tells.
pub fn ended_by_form(alloc: Global, fault: LineFault<'_>, number: u64) -> Ended
    ensures { IsOfForm number (fault_of fault.entry) result }
{
    match FormFault::of(alloc, fault) {
        Ok(fault) => Ended::Refused(Refusal::Line {
            number,
            refusal: LineRefusal::Form(fault),
        }),
        Err(_) => Ended::Memory,
    }
}
