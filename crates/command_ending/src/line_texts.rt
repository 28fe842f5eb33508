//! The last line of a command whose script has a line that is refused.
ghost use Rattle.std.specs.Prelude.{◌≡◌, ◌++◌};
ghost use Rattle.std.specs.Fmt.{decimal};
ghost use Rattle.disk_model.specs.Causes.{HasCause};
ghost use Rattle.device_model.specs.LineFault.{words_fault_text};
ghost use Rattle.device_model.specs.Script.{meaning_text};
ghost use Rattle.script_text.specs.Meaning.{meaning_of};
ghost use Rattle.command_ending.specs.Ended.{Puts, form_of, numbered_line, line_fault_of, script_line_of};

use crate::pieces::put_pieces;
use crate::{FormFault, LineRefusal};
use itoa::Buffer;
use script_text::MeaningFault;
use sector_disk::Failed;
use stream_io::Sink;

/// Writes the line of a script's line of this number that is refused.
///
/// # Errors
///
/// - `Failed`: the sink failed. It has taken some of the line from the front, or none, and not all.
pub(crate) fn put_line_fault<O: Sink>(
    out: &mut O,
    number: u64,
    refusal: &LineRefusal,
) -> Result<(), Failed>
    ensures line { Puts (script_line_of number (line_fault_of refusal.now))
        (O.held out.old) (O.held out.new) result }
    ensures cause { HasCause (O.faults out.old) (O.faults out.new) result }
{
    let mut digits = Buffer::new();
    let number = digits.format(number).as_bytes();
    match refusal {
        LineRefusal::Form(fault) => {
            let (name, word) = form_text(fault);
            put_pieces(out, &[b"fault line ", number, b" ", name, word, b"\n"])
        }
        LineRefusal::Meaning(fault) => put_meaning(out, number, *fault),
    }
}

/// What is told of bytes that are no line: the name of the fault, and the word behind it.
fn form_text(fault: &FormFault) -> (&[u8], &[u8])
    ensures { result.0.now ++ result.1.now ≡ words_fault_text (form_of fault.now) }
{
    match fault {
        FormFault::TooLong => (b"long", b""),
        FormFault::NotText => (b"text", b""),
        FormFault::WrongWord { word } => (b"word ", word),
        FormFault::WrongNumber { word } => (b"number ", word),
        FormFault::WrongByte { word } => (b"byte ", word),
        FormFault::WrongRuns { word } => (b"runs ", word),
        FormFault::MissingWord => (b"missing", b""),
        FormFault::ExtraWord { word } => (b"extra ", word),
    }
}

/// Writes the line of a script's line that is not to be run on the device as that is.
fn put_meaning<O: Sink>(out: &mut O, number: &[u8], fault: MeaningFault) -> Result<(), Failed>
    ensures line { Puts (numbered_line number.now (meaning_text (meaning_of fault)))
        (O.held out.old) (O.held out.new) result }
    ensures cause { HasCause (O.faults out.old) (O.faults out.new) result }
{
    match fault {
        MeaningFault::Ticket { ticket } => put_value(out, number, b"ticket ", u128::from(ticket)),
        MeaningFault::Length { length } => put_value(out, number, b"length ", length),
        MeaningFault::Count { count } => put_value(out, number, b"count ", count),
        MeaningFault::Range { first, count } => {
            let mut digits = Buffer::new();
            let mut others = Buffer::new();
            let first = digits.format(first).as_bytes();
            let count = others.format(count).as_bytes();
            put_pieces(
                out,
                &[
                    b"fault line ",
                    number,
                    b" range ",
                    first,
                    b" ",
                    count,
                    b"\n",
                ],
            )
        }
    }
}

/// Writes the line of a script's line that is refused with a value.
fn put_value<O: Sink>(out: &mut O, number: &[u8], name: &[u8], value: u128) -> Result<(), Failed>
    ensures line { Puts (numbered_line number.now (name.now ++ decimal value))
        (O.held out.old) (O.held out.new) result }
    ensures cause { HasCause (O.faults out.old) (O.faults out.new) result }
{
    let mut digits = Buffer::new();
    let value = digits.format(value).as_bytes();
    put_pieces(out, &[b"fault line ", number, b" ", name, value, b"\n"])
}
