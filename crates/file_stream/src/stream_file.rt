//! What is asked of a file that is read or written in order, and of the folder that opens it.
//!
//! Each call is one call of the system, which may be interrupted by a signal, or do a part of what it is asked.
ghost use Rattle.std.specs.Prelude.{◌≡◌, ◌<◌, ◌≤◌, ℕ, List, Option, length, take, drop, IfOk, OnErr};
ghost use Rattle.std.specs.Option.{ForSome, option_map};
ghost use Rattle.disk_model.specs.Identity.{Binding, IsBoundTo};
ghost use Rattle.file_disk.specs.Files.{HasFileCause};
ghost use Rattle.file_stream.specs.Streams.{TellsSame};
ghost use Rattle.stream_io.specs.Stream.{Gives, with_bytes};

use file_disk::FileFault;

/// A file that is open for reads in order.
pub trait InputFile {
    /// The name that it was opened by. One that was open from the start, as the standard input, stands for any.
    ghost name: { Self → Binding };

    /// The bytes that it has left. A file that does not tell them, as one of the system, has none to name: then no
    /// clause speaks of them.
    ghost left: { Self → Option (List ℕ) };

    /// How often it has failed.
    ghost faults: { Self → ℕ };

    /// How often it can still be interrupted.
    ghost interruptions: { Self → ℕ };

    /// Reads the next bytes into the front of the buffer, and tells how many. It gives none to a buffer that is
    /// not empty only at its end.
    ///
    /// # Errors
    ///
    /// - `Interrupted`: nothing was done.
    /// - `Failed`: the file failed. It has the same bytes left.
    fn read(&mut self, buffer: &mut [u8]) -> Result<usize, FileFault>
        ensures count { IfOk result (λ n. n ≤ length buffer.new) }
        ensures read { IfOk result (λ n. ForSome (left self.old) (Gives n buffer.new)) }
        ensures left { IfOk result (λ n. left self.new ≡ option_map (drop n) (left self.old)) }

        ensures cause { HasFileCause (faults self.old) (faults self.new)
            (interruptions self.old) (interruptions self.new) result }
        ensures err { OnErr result (left self.new ≡ left self.old) }

        ensures name { name self.new ≡ name self.old };
}

/// What opens files for reads by their names.
pub trait InputFolder {
    /// What it opens.
    type File: InputFile + Drop;

    /// How often it has failed.
    ghost faults: { Self → ℕ };

    /// How often it can still be interrupted.
    ghost interruptions: { Self → ℕ };

    /// The bytes that have this name, where the folder tells them.
    ghost named: { Self → List ℕ → Option (List ℕ) };

    /// Opens the file of this name for reads.
    ///
    /// # Errors
    ///
    /// - `Interrupted`: nothing was done.
    /// - `Failed`: there is no such file, or the system failed.
    fn open(&mut self, name: &str) -> Result<Self::File, FileFault>
        ensures bound { IfOk result (λ file. IsBoundTo name.now (Self.File.name file)) }
        ensures found { IfOk result (λ file. TellsSame (named self.old name.now) (Self.File.left file)) }
        // It has not failed yet.
        ensures fresh { IfOk result (λ file. Self.File.faults file ≡ 0) }

        ensures cause { HasFileCause (faults self.old) (faults self.new)
            (interruptions self.old) (interruptions self.new) result }
        ensures err { OnErr result ((other : List ℕ) → named self.new other ≡ named self.old other) };
}

/// A file that is open for writes in order, as the standard output.
pub trait OutputFile {
    /// The bytes that it has taken. A file that does not tell them, as one of the system, has none to name: then no
    /// clause speaks of them.
    ghost held: { Self → Option (List ℕ) };

    /// How often it has failed.
    ghost faults: { Self → ℕ };

    /// How often it can still be interrupted.
    ghost interruptions: { Self → ℕ };

    /// Takes bytes from the front of these, and tells how many: at least one, where there are any.
    ///
    /// # Errors
    ///
    /// - `Interrupted`: nothing was done.
    /// - `Failed`: the file failed. It has taken nothing.
    fn write(&mut self, bytes: &[u8]) -> Result<usize, FileFault>
        ensures count { IfOk result (λ n. n ≤ length bytes.now) }
        ensures some { IfOk result (λ n. 0 < length bytes.now → 0 < n) }
        ensures written { IfOk result (λ n. held self.new
            ≡ option_map (with_bytes (take n bytes.now)) (held self.old)) }

        ensures cause { HasFileCause (faults self.old) (faults self.new)
            (interruptions self.old) (interruptions self.new) result }
        ensures err { OnErr result (held self.new ≡ held self.old) };
}
