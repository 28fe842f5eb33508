//! Reads once, opens once, writes once, or writes all, by as many calls as the system asks for.
//!
//! A call that was interrupted is made again, and what was done is not done again.
ghost use Rattle.std.specs.Prelude.{◌≡◌, ◌<◌, ◌≤◌, ◌+◌, ℕ, List, length, take, drop, IfOk, OnErr, OnOk};
ghost use Rattle.std.specs.Option.{ForSome, option_map};
ghost use Rattle.disk_model.specs.Causes.{HasCause, Rose};
ghost use Rattle.disk_model.specs.Identity.{IsBoundTo};
ghost use Rattle.file_stream.specs.Streams.{TellsSame};
ghost use Rattle.stream_io.specs.Stream.{Gives, with_bytes};

use crate::{InputFile, InputFolder, OutputFile};
use file_disk::FileFault;
use sector_disk::Failed;

/// Reads the next bytes into the front of the buffer, and tells how many: none only at the end.
///
/// # Errors
///
/// - `Failed`: the file failed. It has the same bytes left.
pub fn read_next<F: InputFile>(file: &mut F, buffer: &mut [u8]) -> Result<usize, Failed>
    ensures count { IfOk result (λ n. n ≤ length buffer.new) }
    ensures read { IfOk result (λ n. ForSome (F.left file.old) (Gives n buffer.new)) }
    ensures left { IfOk result (λ n. F.left file.new ≡ option_map (drop n) (F.left file.old)) }

    ensures cause { HasCause (F.faults file.old) (F.faults file.new) result }
    ensures err { OnErr result (F.left file.new ≡ F.left file.old) }

    ensures name { F.name file.new ≡ F.name file.old }
{
    loop {
        match file.read(buffer) {
            Ok(count) => return Ok(count),
            Err(FileFault::Interrupted) => {}
            Err(FileFault::Failed) => return Err(Failed),
        }
    }
}

/// Opens the file of a name for reads.
///
/// # Errors
///
/// - `Failed`: the folder failed.
pub fn open_input<O: InputFolder>(folder: &mut O, name: &str) -> Result<O::File, Failed>
    ensures bound { IfOk result (λ file. IsBoundTo name.now (O.File.name file)) }
    ensures found { IfOk result (λ file. TellsSame (O.named folder.old name.now) (O.File.left file)) }
    ensures fresh { IfOk result (λ file. O.File.faults file ≡ 0) }

    ensures cause { HasCause (O.faults folder.old) (O.faults folder.new) result }
    ensures err { OnErr result ((other : List ℕ) → O.named folder.new other ≡ O.named folder.old other) }
{
    loop {
        match folder.open(name) {
            Ok(file) => return Ok(file),
            Err(FileFault::Interrupted) => {}
            Err(FileFault::Failed) => return Err(Failed),
        }
    }
}

/// Writes the front of these bytes, and tells how many: at least one, where there are any.
///
/// # Errors
///
/// - `Failed`: the file failed. It has taken nothing.
pub fn write_next<F: OutputFile>(file: &mut F, bytes: &[u8]) -> Result<usize, Failed>
    ensures count { IfOk result (λ n. n ≤ length bytes.now) }
    ensures some { IfOk result (λ n. 0 < length bytes.now → 0 < n) }
    ensures written { IfOk result (λ n. F.held file.new
        ≡ option_map (with_bytes (take n bytes.now)) (F.held file.old)) }

    ensures cause { HasCause (F.faults file.old) (F.faults file.new) result }
    ensures err { OnErr result (F.held file.new ≡ F.held file.old) }
{
    loop {
        match file.write(bytes) {
            Ok(count) => return Ok(count),
            Err(FileFault::Interrupted) => {}
            Err(FileFault::Failed) => return Err(Failed),
        }
    }
}

/// Writes until all bytes are written or the file fails, and tells how many were.
pub fn write_most<F: OutputFile>(file: &mut F, bytes: &[u8]) -> usize
    ensures within { result ≤ length bytes.now }
    ensures written { F.held file.new ≡ option_map (with_bytes (take result bytes.now)) (F.held file.old) }

    ensures whole { result ≡ length bytes.now → F.faults file.new ≡ F.faults file.old }
    ensures short { result < length bytes.now → Rose (F.faults file.old) (F.faults file.new) }
    ensures later { F.faults file.old ≤ F.faults file.new }
{
    let mut done = 0;
    while done < bytes.len() {
        match write_some(file, &bytes[done..]) {
            Ok(count) => done += count,
            Err(Failed) => return done,
        }
    }
    done
}

/// Writes once, and tells how many bytes: none where the call was interrupted.
fn write_some<F: OutputFile>(file: &mut F, bytes: &[u8]) -> Result<usize, Failed>
    requires { 0 < length bytes.now }

    ensures within { IfOk result (λ n. n ≤ length bytes.now) }
    ensures goes_on { IfOk result (λ n. F.interruptions file.new < F.interruptions file.old + n) }
    ensures written { IfOk result (λ n. F.held file.new
        ≡ option_map (with_bytes (take n bytes.now)) (F.held file.old)) }

    ensures cause { HasCause (F.faults file.old) (F.faults file.new) result }
    ensures err { OnErr result (F.held file.new ≡ F.held file.old) }
{
    match file.write(bytes) {
        Ok(count) => Ok(count),
        Err(FileFault::Interrupted) => Ok(0),
        Err(FileFault::Failed) => Err(Failed),
    }
}
