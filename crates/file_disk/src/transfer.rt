//! Does the whole of a read, a write, a sync or an opening, by as many calls as the system asks for.
//!
//! What was done is not done again, and a call that was interrupted is made again.
ghost use Rattle.std.specs.Prelude.{◌≡◌, ◌≤◌, ◌+◌, ◌*◌, ◌/◌, ◌^◌, ◌<◌, List, ℕ, length, take, IfOk, OnOk, OnErr, Some};
ghost use Rattle.disk_model.specs.Causes.{HasCause};
ghost use Rattle.disk_model.specs.Disk.{Content, Reads, AddsSome, with_run, newest_only};
ghost use Rattle.disk_model.specs.Identity.{IsBoundTo, IsThere};
ghost use Rattle.disk_model.specs.Moments.{EachSince, HasNow, IsChangedBy};
ghost use Rattle.file_disk.specs.Files.{IsFileRun};

use crate::{Access, FileFault, Folder, SectorFile};
use sector_disk::Failed;

/// Reads whole sectors from byte `from` on. What a failed read leaves in the buffer is open.
///
/// # Errors
///
/// - `Failed`: the file failed.
pub fn read_all<F: SectorFile>(file: &mut F, from: u64, buffer: &mut [u8]) -> Result<(), Failed>
    requires { IsFileRun from (length buffer.old) (F.identity file.old).sectors }

    ensures read { OnOk result (HasNow (Reads (from / 512) buffer.new) (F.moments file.old)) }

    ensures cause { HasCause (F.faults file.old) (F.faults file.new) result }

    ensures identity { F.identity file.new ≡ F.identity file.old }
    ensures access { F.access file.new ≡ F.access file.old }
    ensures kept { F.moments file.new ≡ F.moments file.old }
{
    let mut done = 0;
    while done < buffer.len() {
        done += read_some(file, from + done as u64, &mut buffer[done..])?;
    }
    Ok(())
}

/// Reads once, and tells how many bytes: none where the call was interrupted.
fn read_some<F: SectorFile>(file: &mut F, from: u64, buffer: &mut [u8]) -> Result<usize, Failed>
    requires { IsFileRun from (length buffer.old) (F.identity file.old).sectors }

    ensures whole { IfOk result (λ n. n ≡ 512 * (n / 512)) }
    ensures within { IfOk result (λ n. n ≤ length buffer.new) }
    ensures goes_on { IfOk result (λ n. F.interruptions file.new < F.interruptions file.old + n) }
    ensures read { IfOk result (λ n. HasNow (Reads (from / 512) (take n buffer.new)) (F.moments file.old)) }

    ensures cause { HasCause (F.faults file.old) (F.faults file.new) result }

    ensures identity { F.identity file.new ≡ F.identity file.old }
    ensures access { F.access file.new ≡ F.access file.old }
    ensures kept { F.moments file.new ≡ F.moments file.old }
{
    match file.read_at(from, buffer) {
        Ok(count) => Ok(count),
        Err(FileFault::Interrupted) => Ok(0),
        Err(FileFault::Failed) => Err(Failed),
    }
}

/// Writes whole sectors from byte `from` on.
///
/// # Errors
///
/// - `Failed`: the file failed. Any of the sectors may have become candidates.
pub fn write_all<F: SectorFile>(file: &mut F, from: u64, bytes: &[u8]) -> Result<(), Failed>
    requires { IsFileRun from (length bytes.now) (F.identity file.old).sectors }

    ensures written { OnOk result (IsChangedBy (with_run (from / 512) bytes.now)
        (F.moments file.old) (F.moments file.new)) }

    ensures cause { HasCause (F.faults file.old) (F.faults file.new) result }

    ensures identity { F.identity file.new ≡ F.identity file.old }
    ensures access { F.access file.new ≡ F.access file.old }

    ensures moments { EachSince (AddsSome (from / 512) bytes.now) (F.moments file.old) (F.moments file.new) }
{
    let mut done = 0;
    while done < bytes.len() {
        done += write_some(file, from + done as u64, &bytes[done..])?;
    }
    Ok(())
}

/// Writes once, and tells how many bytes: none where the call was interrupted.
fn write_some<F: SectorFile>(file: &mut F, from: u64, bytes: &[u8]) -> Result<usize, Failed>
    requires { IsFileRun from (length bytes.now) (F.identity file.old).sectors }

    ensures whole { IfOk result (λ n. n ≡ 512 * (n / 512)) }
    ensures within { IfOk result (λ n. n ≤ length bytes.now) }
    ensures goes_on { IfOk result (λ n. F.interruptions file.new < F.interruptions file.old + n) }
    ensures written { IfOk result (λ n. IsChangedBy (with_run (from / 512) (take n bytes.now))
        (F.moments file.old) (F.moments file.new)) }

    ensures cause { HasCause (F.faults file.old) (F.faults file.new) result }

    ensures identity { F.identity file.new ≡ F.identity file.old }
    ensures access { F.access file.new ≡ F.access file.old }

    ensures moments { EachSince (AddsSome (from / 512) bytes.now) (F.moments file.old) (F.moments file.new) }
{
    match file.write_at(from, bytes) {
        Ok(count) => Ok(count),
        Err(FileFault::Interrupted) => Ok(0),
        Err(FileFault::Failed) => Err(Failed),
    }
}

/// Settles what was written.
///
/// # Errors
///
/// - `Failed`: the file failed. Nothing has changed.
pub fn sync_all<F: SectorFile>(file: &mut F) -> Result<(), Failed>
    ensures synced { OnOk result (IsChangedBy newest_only (F.moments file.old) (F.moments file.new)) }

    ensures cause { HasCause (F.faults file.old) (F.faults file.new) result }
    ensures err { OnErr result (F.moments file.new ≡ F.moments file.old) }

    ensures identity { F.identity file.new ≡ F.identity file.old }
    ensures access { F.access file.new ≡ F.access file.old }

    ensures moments { EachSince (λ start c. c ≡ newest_only start) (F.moments file.old) (F.moments file.new) }
{
    loop {
        match file.sync() {
            Ok(()) => return Ok(()),
            Err(FileFault::Interrupted) => {}
            Err(FileFault::Failed) => return Err(Failed),
        }
    }
}

/// Opens the file of a name.
///
/// # Errors
///
/// - `Failed`: the folder failed.
pub fn open_file<O: Folder>(folder: &mut O, name: &str, access: Access) -> Result<O::File, Failed>
    ensures bound { IfOk result (λ file. IsBoundTo name.now (O.File.identity file).name) }
    ensures found { IfOk result (λ file. IsThere (O.named folder.old name.now)
        (O.File.identity file).sectors (O.File.moments file)) }
    ensures access { IfOk result (λ file. O.File.access file ≡ access) }
    ensures fresh { IfOk result (λ file. O.File.faults file ≡ 0) }

    ensures cause { HasCause (O.faults folder.old) (O.faults folder.new) result }
    ensures err { OnErr result ((other : List ℕ) → O.named folder.new other ≡ O.named folder.old other) }
{
    loop {
        match folder.open(name, access) {
            Ok(file) => return Ok(file),
            Err(FileFault::Interrupted) => {}
            Err(FileFault::Failed) => return Err(Failed),
        }
    }
}
