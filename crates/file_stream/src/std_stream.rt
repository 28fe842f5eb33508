//! The files of the system that are read or written in order, by one call of std each.
//!
//! This is what is trusted of them: std tells nothing of what a file holds, so these files tell nothing either.
ghost use Rattle.std.specs.Prelude.{◌≡◌, ◌-◌, ◌^◌, None};
ghost use Rattle.disk_model.specs.Identity.{AnyName};

use crate::{InputFile, InputFolder, OutputFile};
use file_disk::{Calls, FileFault, open_apart};
use std::fs::OpenOptions;
use std::io::{Print, Read};
use std::rt::Files;

/// A file of the system that is open for reads, as the standard input.
#[derive(Drop)]
pub struct StdInput<T: Read + Drop> {
    reader: T,
    calls: Calls,
}

impl<T: Read + Drop> StdInput<T> {
    /// Takes what is open. It reads nothing.
    pub fn new(reader: T) -> StdInput<T>
        ensures { result.calls ≡ record { faults = 0; interruptions = 2 ^ 64 - 1; last = None } }
    {
        StdInput {
            reader,
            calls: Calls::new(),
        }
    }
}

impl<T: Read + Drop> InputFile for StdInput<T> {
    ghost name = { λ file. AnyName };

    ghost left = { λ file. None };

    ghost faults = { λ file. file.calls.faults };

    ghost interruptions = { λ file. file.calls.interruptions };

    fn read(&mut self, buffer: &mut [u8]) -> Result<usize, FileFault> {
        let answer = self.reader.read(buffer);
        self.calls.judge(answer)
    }
}

/// The files of the system that can be read, by their paths.
#[derive(Drop)]
pub struct StdInputs<R: Files + Drop> {
    rt: R,
    calls: Calls,
}

impl<R: Files + Drop> StdInputs<R> {
    /// The files that the program can reach. It opens none.
    pub fn new(rt: R) -> StdInputs<R>
        ensures { result.calls ≡ record { faults = 0; interruptions = 2 ^ 64 - 1; last = None } }
    {
        StdInputs {
            rt,
            calls: Calls::new(),
        }
    }
}

impl<R: Files + Drop> InputFolder for StdInputs<R> {
    type File = StdInput<R::File>;

    ghost faults = { λ folder. folder.calls.faults };

    ghost interruptions = { λ folder. folder.calls.interruptions };

    ghost named = { λ folder name. None };

    fn open(&mut self, name: &str) -> Result<StdInput<R::File>, FileFault> {
        let answer = open_apart(&self.rt, OpenOptions::new().read(true), name);
        let reader = self.calls.judge(answer)?;
        Ok(StdInput::new(reader))
    }
}

/// The standard output.
#[derive(Drop)]
pub struct StdOutput<R: Print + Drop> {
    rt: R,
    calls: Calls,
}

impl<R: Print + Drop> StdOutput<R> {
    /// The standard output of a program. It writes nothing.
    pub fn new(rt: R) -> StdOutput<R>
        ensures { result.calls ≡ record { faults = 0; interruptions = 2 ^ 64 - 1; last = None } }
    {
        StdOutput {
            rt,
            calls: Calls::new(),
        }
    }
}

impl<R: Print + Drop> OutputFile for StdOutput<R> {
    ghost held = { λ file. None };

    ghost faults = { λ file. file.calls.faults };

    ghost interruptions = { λ file. file.calls.interruptions };

    // A system that takes none of some bytes, and tells no error, would be asked for ever.
    fn write(&mut self, bytes: &[u8]) -> Result<usize, FileFault> {
        let answer = self.rt.write_some(bytes);
        let count = self.calls.judge(answer)?;
        if count == 0 && !bytes.is_empty() {
            return Err(self.calls.fail());
        }
        Ok(count)
    }
}
