//! A sink that writes each piece to a file at once.
ghost use Rattle.std.specs.Prelude.{◌≡◌};

use crate::OutputFile;
use crate::transfer::write_next;
use sector_disk::{Counted, Failed};
use stream_io::Sink;

/// Writes to a file what it takes, and holds nothing back: who waits for a reply reads it before the next request
/// comes.
#[derive(Drop)]
pub struct PieceSink<F: OutputFile + Drop> {
    file: F,
}

impl<F: OutputFile + Drop> PieceSink<F> {
    /// Makes a sink of a file. It writes nothing.
    pub fn new(file: F) -> PieceSink<F>
        ensures { result ≡ record { file = file } }
    {
        PieceSink { file }
    }

    /// The file. It holds all that the sink has taken.
    pub fn file(&self) -> &F
        ensures file { result.now ≡ self.now.file }
        ensures through { F.held result.now ≡ ⟦<Self as Sink>⟧.held self.now }
    {
        &self.file
    }
}

impl<F: OutputFile + Drop> Counted for PieceSink<F> {
    ghost faults = { λ sink. F.faults sink.file };
}

impl<F: OutputFile + Drop> Sink for PieceSink<F> {
    ghost held = { λ sink. F.held sink.file };

    // A call of the file may take a part: so it fails with nothing taken, and the caller writes the rest.
    fn write(&mut self, bytes: &[u8]) -> Result<usize, Failed> {
        write_next(&mut self.file, bytes)
    }
}
