//! Takes the next line of a script.
ghost use Rattle.std.specs.Prelude.{◌≡◌, ◌<◌, IfErr, Ok, true};
ghost use Rattle.std.specs.Option.{ForSome, IsSomeAnd};
ghost use Rattle.disk_model.specs.Causes.{Rose};
ghost use Rattle.script_reader.specs.Reading.{IsWithin};
ghost use Rattle.script_lines.specs.Ends.{EndsScript, HasEndCause, IsCounted};
ghost use Rattle.script_lines.specs.Lines.{HasAdvanced};
ghost use Rattle.script_lines.specs.Taken.{HasRead, TakesNextLine};

use command_ending::{Ended, FormFault, LineRefusal, Outer, Refusal};
use script_reader::{LineReader, NextLine};
use stream_io::Source;

/// Takes the next line of a script, which has this number, into the reader. It tells whether there is one.
///
/// # Errors
///
/// - `Line`: it is longer than a line may be.
/// - `Length`: the script is longer than one may be.
/// - `Script`: its source failed.
pub fn advance<S: Source>(
    reader: &mut LineReader,
    script: &mut S,
    number: u64,
) -> Result<bool, Ended>
    ensures advanced { ForSome (S.left script.old) (λ left. IsSomeAnd (S.left script.new)
        (λ later. HasAdvanced number reader.old reader.new left later result)) }
    ensures taken { result ≡ Ok true → reader.old.taken < reader.new.taken }
    ensures read { HasRead reader.old reader.new (S.left script.old) (S.left script.new) }
    ensures line { TakesNextLine reader.old reader.new (S.left script.old) (S.left script.new) }
    ensures within { IsWithin reader.new }

    ensures ends { IfErr result EndsScript }
    ensures cause { IfErr result (HasEndCause ⊥ (Rose (S.faults script.old) (S.faults script.new)) ⊥) }
    ensures counted { IsCounted Outer.Script (S.faults script.old) (S.faults script.new) result }
{
    match reader.next_line(script) {
        Ok(NextLine::Line) => Ok(true),
        Ok(NextLine::End) => Ok(false),
        Ok(NextLine::LongLine) => Err(Ended::Refused(Refusal::Line {
            number,
            refusal: LineRefusal::Form(FormFault::TooLong),
        })),
        Ok(NextLine::LongScript) => Err(Ended::Refused(Refusal::Length)),
        Err(_) => Err(Ended::Failed(Outer::Script)),
    }
}
