//! The window.
ghost use Rattle.std.specs.Prelude.{◌≡◌, ◌↔◌, ◌+◌, ◌-◌, ◌*◌, ◌<◌, ◌≤◌, ◌^◌, [], length, min, take, IfOk, IsTrue, List, OnErr, OnOk};
ghost use Rattle.disk_model.specs.Causes.{HasCause};
ghost use Rattle.disk_model.specs.Disk.{Content, Reads, last_image};
ghost use Rattle.disk_model.specs.Identity.{IsBound};
ghost use Rattle.disk_model.specs.Moments.{HasNow};
ghost use Rattle.image_model.specs.Sectors.{bytes_at};
ghost use Rattle.sector_window.specs.Window.{Shows, ShowsDisk};

use image_model::SECTOR_SIZE;
use sector_disk::{Disk, Failed, Memory};
use std::alloc::Global;
use std::marker::Model;

/// A run of sectors of a disk in memory. It takes all its memory when it is made.
///
/// All its calls are over one disk, and nobody writes a sector that it shows.
#[derive(Drop)]
pub struct SectorWindow {
    /// How many sectors it has room for.
    room: u64,
    /// The first sector that it shows.
    first: u64,
    /// How many it shows.
    held: u64,
    buffer: Vec<u8>,
}

impl Model for SectorWindow {
    ghost use Rattle.std.specs.Prelude.{◌*◌, take};
    ghost use Rattle.sector_window.specs.Window.{Window};
    ghost use Rattle.sector_window.specs.Room.{IsWindow};

    ghost Value = { Window };

    ghost view = { λ w. record { room = w.room; first = w.first; bytes = take (512 * w.held) w.buffer.items } };

    ghost invariant = { λ w. IsWindow w.room w.first w.held w.buffer.items };
}

impl SectorWindow {
    /// Makes a window with room for so many sectors, that shows none.
    ///
    /// # Errors
    ///
    /// - `Memory`: there is none for it.
    pub fn new(alloc: Global, sectors: u64) -> Result<SectorWindow, Memory>
        requires { sectors ≤ 2 ^ 20 }

        ensures { IfOk result (λ w. w ≡ record { room = sectors; first = 0; bytes = [] }) }
    {
        let buffer = Vec::from_elem(alloc, 0, SECTOR_SIZE * sectors as usize)?;
        Ok(SectorWindow {
            room: sectors,
            first: 0,
            held: 0,
            buffer,
        })
    }

    /// How many sectors it has room for.
    pub fn room(&self) -> u64
        ensures { result ≡ self.now.room }
    {
        self.room
    }

    /// Whether it shows the `count` sectors from `at` on.
    pub fn shows(&self, at: u64, count: u64) -> bool
        requires { at + count ≤ 2 ^ 48 }

        ensures { IsTrue result ↔ Shows self.now at count }
    {
        self.first <= at && at + count <= self.first + self.held
    }

    /// Shows the `count` sectors from `at` on. Where it does not show them yet it reads as many from `at` on as it has
    /// room for, by one call of the disk.
    ///
    /// # Errors
    ///
    /// - `Failed`: the disk failed at the read.
    pub fn show<D: Disk>(&mut self, disk: &mut D, at: u64, count: u64) -> Result<(), Failed>
        requires bound { IsBound (D.identity disk.old).name }
        requires some { 1 ≤ count }
        requires room { count ≤ self.old.room }
        requires inside { at + count ≤ (D.identity disk.old).sectors }
        requires device { (D.identity disk.old).sectors ≤ 2 ^ 48 }
        requires window { ShowsDisk self.old (D.moments disk.old) }

        ensures shown { OnOk result (Shows self.new at count) }

        ensures cause { HasCause (D.faults disk.old) (D.faults disk.new) result }

        ensures room { self.new.room ≡ self.old.room }
        ensures window { ShowsDisk self.new (D.moments disk.new) }
        ensures identity { D.identity disk.new ≡ D.identity disk.old }
        ensures kept { D.moments disk.new ≡ D.moments disk.old }
    {
        if self.shows(at, count) {
            return Ok(());
        }
        self.load(disk, at)
    }

    /// The bytes of the `count` sectors from `at` on.
    pub fn run(&self, at: u64, count: u64) -> &[u8]
        requires { Shows self.now at count }

        ensures bytes { (moments : List Content) → ShowsDisk self.now moments
            → HasNow (λ c. result.now ≡ bytes_at (last_image c) at count) moments }
        ensures size { length result.now ≡ 512 * count }
    {
        let from = SECTOR_SIZE * (at - self.first) as usize;
        &self.buffer[from..from + SECTOR_SIZE * count as usize]
    }

    /// Reads as many sectors from `at` on as it has room for and the disk has.
    ///
    /// # Errors
    ///
    /// - `Failed`: the disk failed. Then it shows none.
    fn load<D: Disk>(&mut self, disk: &mut D, at: u64) -> Result<(), Failed>
        requires bound { IsBound (D.identity disk.old).name }
        requires room { 1 ≤ self.old.room }
        requires inside { at < (D.identity disk.old).sectors }
        requires device { (D.identity disk.old).sectors ≤ 2 ^ 48 }

        ensures first { self.new.first ≡ at }
        ensures size { OnOk result (length self.new.bytes
            ≡ 512 * min self.old.room ((D.identity disk.old).sectors - at)) }

        ensures cause { HasCause (D.faults disk.old) (D.faults disk.new) result }
        ensures err { OnErr result (self.new.bytes ≡ []) }

        ensures room { self.new.room ≡ self.old.room }
        ensures window { ShowsDisk self.new (D.moments disk.new) }
        ensures identity { D.identity disk.new ≡ D.identity disk.old }
        ensures kept { D.moments disk.new ≡ D.moments disk.old }
    {
        let count = self.room.min(disk.sectors() - at);
        self.first = at;
        self.held = 0;
        read_into(disk, at, count, self.buffer.as_mut_slice())?;
        self.held = count;
        Ok(())
    }
}

/// Reads `count` sectors from `at` on to the beginning of a buffer.
///
/// # Errors
///
/// - `Failed`: the disk failed. Then what is left in the buffer is open.
fn read_into<D: Disk>(disk: &mut D, at: u64, count: u64, buffer: &mut [u8]) -> Result<(), Failed>
    requires bound { IsBound (D.identity disk.old).name }
    requires some { 1 ≤ count }
    requires room { 512 * count ≤ length buffer.old }
    requires inside { at + count ≤ (D.identity disk.old).sectors }

    ensures read { OnOk result (HasNow (Reads at (take (512 * count) buffer.new)) (D.moments disk.old)) }

    ensures cause { HasCause (D.faults disk.old) (D.faults disk.new) result }

    ensures identity { D.identity disk.new ≡ D.identity disk.old }
    ensures kept { D.moments disk.new ≡ D.moments disk.old }
{
    disk.read_run(at, &mut buffer[..SECTOR_SIZE * count as usize])
}
