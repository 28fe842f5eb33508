//! Why the bytes of a line are no line, with the word that is refused.
ghost use Rattle.std.specs.Prelude.{◌≡◌, IfOk};
ghost use Rattle.script_text.specs.Line.{fault_of};
ghost use Rattle.command_ending.specs.Ended.{form_of};

use script_text::LineFault;
use sector_disk::Memory;
use std::alloc::Global;

/// Why the bytes of a line are no line. It is a `LineFault` that keeps its word when the line is gone.
#[derive(Debug, Drop)]
pub enum FormFault {
    /// They are too many.
    TooLong,
    /// One of them is neither a space nor one that may be printed.
    NotText,
    /// Another word has to stand there.
    WrongWord { word: Vec<u8> },
    /// The word is no number.
    WrongNumber { word: Vec<u8> },
    /// The word is no byte.
    WrongByte { word: Vec<u8> },
    /// The word is no runs of bytes.
    WrongRuns { word: Vec<u8> },
    /// A word is missing.
    MissingWord,
    /// The word stands behind the line's last place.
    ExtraWord { word: Vec<u8> },
}

impl FormFault {
    /// The fault, with a copy of its word.
    ///
    /// # Errors
    ///
    /// - `Memory`: there is none for the word.
    pub fn of(alloc: Global, fault: LineFault<'_>) -> Result<FormFault, Memory>
        ensures { IfOk result (λ form. form_of form ≡ fault_of fault.entry) }
    {
        Ok(match fault {
            LineFault::TooLong => FormFault::TooLong,
            LineFault::NotText => FormFault::NotText,
            LineFault::WrongWord { word } => FormFault::WrongWord {
                word: copy_of(alloc, word)?,
            },
            LineFault::WrongNumber { word } => FormFault::WrongNumber {
                word: copy_of(alloc, word)?,
            },
            LineFault::WrongByte { word } => FormFault::WrongByte {
                word: copy_of(alloc, word)?,
            },
            LineFault::WrongRuns { word } => FormFault::WrongRuns {
                word: copy_of(alloc, word)?,
            },
            LineFault::MissingWord => FormFault::MissingWord,
            LineFault::ExtraWord { word } => FormFault::ExtraWord {
                word: copy_of(alloc, word)?,
            },
        })
    }
}

/// The same bytes in memory of their own.
fn copy_of(alloc: Global, bytes: &[u8]) -> Result<Vec<u8>, Memory>
    ensures { IfOk result (λ copy. copy.items ≡ bytes.now) }
{
    match Vec::from_slice(alloc, bytes) {
        Ok(copy) => Ok(copy),
        Err(_) => Err(Memory),
    }
}
