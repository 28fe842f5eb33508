//! A source that is a file, which is opened by its name.
ghost use Rattle.std.specs.Prelude.{◌≡◌, ◌⊎◌, ◌+◌, ◌≤◌, length, drop, IfOk, IsSome, None, Some, OnErr, OnOk};
ghost use Rattle.std.specs.Option.{ForSome, option_map};
ghost use Rattle.std.proofs.Common.{refl};
ghost use Rattle.disk_model.specs.Causes.{HasCause, Rose};
ghost use Rattle.disk_model.specs.Identity.{IsBound, IsBoundTo, Unbound};
ghost use Rattle.file_disk.specs.Files.{of_file};
ghost use Rattle.file_stream.specs.Streams.{TellsSame, named_as};
ghost use Rattle.stream_io.specs.Stream.{Gives};

use crate::transfer::{open_input, read_next};
use crate::{InputFile, InputFolder};
use sector_disk::{Counted, Failed, Named};
use stream_io::NamedSource;

/// The bytes of a file. It has none until it is bound to the file's name, and then every other `bind` is a fault.
#[derive(Drop)]
pub struct FileSource<O: InputFolder + Drop> {
    folder: O,
    file: Option<O::File>,
    faults: u64,
}

impl<O: InputFolder + Drop> FileSource<O> {
    /// Makes a source that is bound to no file. It opens none.
    pub fn new(folder: O) -> FileSource<O>
        ensures { result ≡ record { folder = folder; file = None; faults = 0 } }
    {
        FileSource {
            folder,
            file: None,
            faults: 0,
        }
    }
}

impl<O: InputFolder + Drop> Counted for FileSource<O> {
    ghost faults = { λ source. source.faults + (O.faults source.folder + of_file 0 O.File.faults source.file) };
}

impl<O: InputFolder + Drop> Named for FileSource<O> {
    ghost binding = { λ source. of_file Unbound O.File.name source.file };

    ghost tells_same = { λ name a b. TellsSame
        (named_as O.File.left (O.named a.folder name) a.file)
        (named_as O.File.left (O.named b.folder name) b.file) };

    fn bind(&mut self, name: &str) -> Result<(), Failed>
        ensures bound { OnOk result (IsBoundTo name.now (of_file Unbound O.File.name self.new.file)) }

        ensures fails { OnErr result (IsSome self.old.file
            ⊎ Rose (O.faults self.old.folder) (O.faults self.new.folder)) }
        ensures cause { HasCause
            (self.old.faults + (O.faults self.old.folder + of_file 0 O.File.faults self.old.file))
            (self.new.faults + (O.faults self.new.folder + of_file 0 O.File.faults self.new.file)) result }

        ensures same { TellsSame
            (named_as O.File.left (O.named self.old.folder name.now) self.old.file)
            (named_as O.File.left (O.named self.new.folder name.now) self.new.file) }
    {
        if self.file.is_some() {
            self.faults = self.faults.saturating_add(1);
            return Err(Failed);
        }
        let file = open_input(&mut self.folder, name)?;
        self.file = Some(file);
        Ok(())
    }
}

impl<O: InputFolder + Drop> NamedSource for FileSource<O> {
    ghost left = { λ source. of_file None O.File.left source.file };

    ghost named = { λ source name. named_as O.File.left (O.named source.folder name) source.file };

    fn read(&mut self, buffer: &mut [u8]) -> Result<usize, Failed>
        requires { IsBound (of_file Unbound O.File.name self.old.file) }

        ensures count { IfOk result (λ n. n ≤ length buffer.new) }
        ensures read { IfOk result (λ n. ForSome (of_file None O.File.left self.old.file)
            (Gives n buffer.new)) }
        ensures left { IfOk result (λ n. of_file None O.File.left self.new.file
            ≡ option_map (drop n) (of_file None O.File.left self.old.file)) }

        ensures fails { OnErr result (Rose (of_file 0 O.File.faults self.old.file)
            (of_file 0 O.File.faults self.new.file)) }
        ensures passed { OnOk result (of_file 0 O.File.faults self.new.file
            ≡ of_file 0 O.File.faults self.old.file) }
        ensures cause { HasCause
            (self.old.faults + (O.faults self.old.folder + of_file 0 O.File.faults self.old.file))
            (self.new.faults + (O.faults self.new.folder + of_file 0 O.File.faults self.new.file)) result }
        ensures err { OnErr result (of_file None O.File.left self.new.file
            ≡ of_file None O.File.left self.old.file) }

        ensures binding { of_file Unbound O.File.name self.new.file
            ≡ of_file Unbound O.File.name self.old.file }
    {
        match &mut self.file {
            Some(file) => read_next(file, buffer),
            None => unreachable!(),
        }
    }

    ghost named_if_bound = { λ source name bound. elim source.file as (λ o.
        IsBoundTo name (of_file Unbound O.File.name o)
        → named_as O.File.left (O.named source.folder name) o ≡ of_file None O.File.left o) [
          | None ↦ λ bound. absurd bound
          | Some file ↦ λ bound. refl
        ] bound };

    ghost same_named = { λ name a b bytes same told. same.is bytes told };
}
