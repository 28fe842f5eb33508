//! An output before whose text the line of the standard error is wiped away.
ghost use Rattle.std.specs.Prelude.{◌≡◌};

use file_disk::FileFault;
use file_stream::OutputFile;
use std::io::Eprint;

/// An output under which the line that shows how far the work is has gone before its text comes.
#[derive(Drop)]
pub struct ClearedOutput<'r, R: Eprint, O: OutputFile + Drop> {
    rt: &'r R,
    output: O,
    is_shown: bool,
}

impl<'r, R: Eprint, O: OutputFile + Drop> ClearedOutput<'r, R, O> {
    /// Takes an output, and whether such a line is shown. It writes nothing.
    pub fn new(rt: &'r R, output: O, is_shown: bool) -> ClearedOutput<'r, R, O>
        ensures { result.output ≡ output }
    {
        ClearedOutput {
            rt,
            output,
            is_shown,
        }
    }
}

impl<'r, R: Eprint, O: OutputFile + Drop> OutputFile for ClearedOutput<'r, R, O> {
    ghost held = { λ file. O.held file.output };

    ghost faults = { λ file. O.faults file.output };

    ghost interruptions = { λ file. O.interruptions file.output };

    fn write(&mut self, bytes: &[u8]) -> Result<usize, FileFault> {
        if self.is_shown {
            // A standard error that takes nothing has nothing to wipe away.
            let _ = eprint!(self.rt; "\r\x1b[K");
        }
        self.output.write(bytes)
    }
}
