//! An output that keeps the beginning of what it was given.
ghost use Rattle.std.specs.Prelude.{◌≡◌};

use crate::last_line::{KEPT, go_on};
use arrayvec::ArrayVec;
use file_disk::FileFault;
use file_stream::OutputFile;

/// An output that keeps the first bytes that it was given. Where its text is one line, these are the line's; where it
/// has none, as a session of requests, they are no line.
#[derive(Drop)]
pub struct Beginning<O: OutputFile + Drop> {
    output: O,
    bytes: ArrayVec<u8, KEPT>,
}

impl<O: OutputFile + Drop> Beginning<O> {
    /// Takes an output. It writes nothing.
    pub fn new(output: O) -> Beginning<O>
        ensures { result.output ≡ output }
    {
        Beginning {
            output,
            bytes: ArrayVec::new(),
        }
    }

    /// The first bytes that the output has taken.
    pub fn bytes(&self) -> &[u8]
        ensures { result.now ≡ self.now.bytes.items }
    {
        self.bytes.as_slice()
    }
}

impl<O: OutputFile + Drop> OutputFile for Beginning<O> {
    ghost held = { λ file. O.held file.output };

    ghost faults = { λ file. O.faults file.output };

    ghost interruptions = { λ file. O.interruptions file.output };

    fn write(&mut self, bytes: &[u8]) -> Result<usize, FileFault> {
        let count = self.output.write(bytes)?;
        go_on(&mut self.bytes, &bytes[..count]);
        Ok(count)
    }
}
