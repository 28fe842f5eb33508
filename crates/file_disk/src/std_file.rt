//! The files of the system: what is asked of a file, by one call of std each.
//!
//! This is what is trusted of the edge: std tells nothing of what a file holds, so these files tell nothing either.
ghost use Rattle.std.specs.Prelude.{◌≡◌, ◌↔◌, ◌≤◌, ◌*◌, ◌-◌, ◌^◌, ◌<◌, [], None, length, take, IfOk, IfSome, IsTrue};
ghost use Rattle.std.specs.Option.{option_or};
ghost use Rattle.std.proofs.lemmas.Option.{none-some};
ghost use Rattle.disk_model.specs.Identity.{BoundTo};
ghost use Rattle.file_disk.specs.Files.{of_file};

use crate::opening::{open_for_reads, open_for_writes};
use crate::{Access, Calls, FileDisk, FileFault, Folder, SectorFile};
use sector_disk::SECTOR_SIZE;
use std::fs::File;
use std::io;
use std::io::{ErrorKind, Seek, SeekFrom};
use std::os::unix::fs::FileExt;
use std::rt::Files;

/// How many bytes the name of a file has at most.
///
/// Source: Linux, `include/uapi/linux/limits.h`, `PATH_MAX`.
const LONGEST_NAME: usize = 4096;

/// How many whole sectors a file has.
#[derive(Drop)]
struct Length {
    sectors: u64,
    ghost fits: { 512 * sectors < 2 ^ 64 },
}

/// The name of a file.
#[derive(Drop)]
struct Name {
    bytes: [u8; LONGEST_NAME],
    len: usize,
    ghost within: { len ≤ 4096 },
}

impl Name {
    /// None where it is too long for the name of a file.
    fn of(name: &str) -> Option<Name>
        ensures { IfSome result (λ kept. take kept.len kept.bytes ≡ name.now) }
    {
        let name = name.as_bytes();
        if name.len() > LONGEST_NAME {
            return None;
        }
        let mut bytes = [0; LONGEST_NAME];
        bytes[..name.len()].copy_from_slice(name);
        Some(Name {
            bytes,
            len: name.len(),
        })
    }

    /// Whether it is this one.
    fn is(&self, name: &str) -> bool
        ensures { IsTrue result ↔ take self.now.len self.now.bytes ≡ name.now }
    {
        &self.bytes[..self.len] == name.as_bytes()
    }
}

/// A file or a block device of the system, which is locked as long as it is open.
#[derive(Drop)]
pub struct StdFile {
    file: File,
    name: Name,
    length: Length,
    access: Access,
    calls: Calls,
}

impl SectorFile for StdFile {
    ghost identity = { λ file. record {
      name = BoundTo (take file.name.len file.name.bytes);
      sectors = file.length.sectors;
    } };

    ghost moments = { λ file. [] };

    ghost access = { λ file. file.access };

    ghost faults = { λ file. file.calls.faults };

    ghost interruptions = { λ file. file.calls.interruptions };

    fn sectors(&self) -> u64 {
        self.length.sectors
    }

    fn has_name(&self, name: &str) -> bool {
        self.name.is(name)
    }

    fn access(&self) -> Access {
        self.access
    }

    // A call that ends within its first sector is made again for that sector, to its end.
    fn read_at(&mut self, from: u64, buffer: &mut [u8]) -> Result<usize, FileFault> {
        let answer = self.file.read_at(buffer, from);
        let count = self.calls.judge(answer)?;
        if count >= SECTOR_SIZE {
            return Ok(count - count % SECTOR_SIZE);
        }
        let answer = read_sector(&self.file, from, buffer);
        self.calls.judge(answer)?;
        Ok(SECTOR_SIZE)
    }

    fn write_at(&mut self, from: u64, bytes: &[u8]) -> Result<usize, FileFault> {
        let answer = self.file.write_at(bytes, from);
        let count = self.calls.judge(answer)?;
        if count >= SECTOR_SIZE {
            return Ok(count - count % SECTOR_SIZE);
        }
        let answer = write_sector(&self.file, from, bytes);
        self.calls.judge(answer)?;
        Ok(SECTOR_SIZE)
    }

    fn sync(&mut self) -> Result<(), FileFault> {
        let answer = self.file.sync_all();
        self.calls.judge(answer)
    }

    ghost fits = { λ file. file.length.fits };

    ghost reads_an_image = { λ file c told. absurd (none-some c told) };

    ghost whole_sectors = { λ file c sector x told low has. absurd (none-some c told) };
}

/// Reads the first sector of those from byte `from` on, whole.
fn read_sector(file: &File, from: u64, buffer: &mut [u8]) -> io::Result<()>
    requires { SECTOR_SIZE ≤ length buffer.old }
{
    file.read_exact_at(&mut buffer[..SECTOR_SIZE], from)
}

/// Writes the first sector of these bytes, whole.
fn write_sector(file: &File, from: u64, bytes: &[u8]) -> io::Result<()>
    requires { SECTOR_SIZE ≤ length bytes.now }
{
    file.write_all_at(&bytes[..SECTOR_SIZE], from)
}

/// The files of the system, by their paths.
#[derive(Drop)]
pub struct StdFolder<R: Files<File = File> + AllocGlobal + Clone + Drop> {
    rt: R,
    calls: Calls,
}

impl<R: Files<File = File> + AllocGlobal + Clone + Drop> StdFolder<R> {
    /// The files that the program can reach. It opens none.
    pub fn new(rt: R) -> StdFolder<R>
        ensures { result.calls ≡ record { faults = 0; interruptions = 2 ^ 64 - 1; last = None } }
    {
        StdFolder {
            rt,
            calls: Calls::new(),
        }
    }
}

impl<R: Files<File = File> + AllocGlobal + Clone + Drop> FileDisk<StdFolder<R>> {
    /// What the system has answered to the last call that failed, of the file that is bound, or else of a binding.
    pub fn last_error(&self) -> Option<io::Error>
        ensures { result ≡ option_or (of_file None (λ file. file.calls.last) self.now.file) self.now.folder.calls.last }
    {
        match &self.file {
            Some(file) if file.calls.last.is_some() => file.calls.last,
            _ => self.folder.calls.last,
        }
    }
}

impl<R: Files<File = File> + AllocGlobal + Clone + Drop> Folder for StdFolder<R> {
    type File = StdFile;

    ghost faults = { λ folder. folder.calls.faults };

    ghost interruptions = { λ folder. folder.calls.interruptions };

    ghost named = { λ folder name. record { sectors = 0; moments = [] } };

    fn open(&mut self, name: &str, access: Access) -> Result<StdFile, FileFault> {
        let answer = open_locked(&self.rt, name, access);
        let (file, name, sectors) = self.calls.judge(answer)?;
        Ok(StdFile {
            file,
            name,
            length: Length { sectors },
            access,
            calls: Calls::new(),
        })
    }
}

/// Opens a file and locks it, and tells how many whole sectors it has: of a block device its end alone tells that.
fn open_locked<R>(rt: &R, name: &str, access: Access) -> io::Result<(File, Name, u64)>
where
    R: Files<File = File> + AllocGlobal + Clone + Drop,
    ensures name { IfOk result (λ opened. take opened.1.len opened.1.bytes ≡ name.now) }
    ensures fits { IfOk result (λ opened. 512 * opened.2 < 2 ^ 64) }
{
    let Some(kept) = Name::of(name) else {
        return Err(ErrorKind::InvalidInput.into());
    };
    let mut file = match access {
        Access::Read => open_for_reads(rt, name)?,
        Access::Write => open_for_writes(rt, name)?,
    };
    let sectors = file.seek(SeekFrom::End(0))? / SECTOR_SIZE as u64;
    Ok((file, kept, sectors))
}
