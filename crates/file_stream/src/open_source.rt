//! A source that is a file which is open from the start.
ghost use Rattle.std.specs.Prelude.{◌≡◌};

use crate::InputFile;
use crate::transfer::read_next;
use sector_disk::{Counted, Failed};
use stream_io::Source;

/// Gives the bytes of an open file, in pieces as they come.
#[derive(Drop)]
pub struct OpenSource<F: InputFile + Drop> {
    file: F,
}

impl<F: InputFile + Drop> OpenSource<F> {
    /// Makes a source of a file. It reads nothing.
    pub fn new(file: F) -> OpenSource<F>
        ensures { result ≡ record { file = file } }
    {
        OpenSource { file }
    }
}

impl<F: InputFile + Drop> Counted for OpenSource<F> {
    ghost faults = { λ source. F.faults source.file };
}

impl<F: InputFile + Drop> Source for OpenSource<F> {
    ghost left = { λ source. F.left source.file };

    fn read(&mut self, buffer: &mut [u8]) -> Result<usize, Failed> {
        read_next(&mut self.file, buffer)
    }
}
