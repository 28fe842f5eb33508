//! The places of blocks, read ahead.
//!
//! A journal often holds blocks in their order. So where the place that is asked for is the one behind the last, it and
//! those behind it are read by one call, of twice as many sectors as the last time. Any other is read alone. No place
//! is read ahead but of a block that has an entry: it is read anyway, so that no sector more can fail.
ghost use Rattle.std.specs.Prelude.{◌≡◌, ◌↔◌, ◌+◌, ◌-◌, ◌*◌, ◌<◌, ◌≤◌, ◌^◌, [], drop, length, min, take, IfOk, IsSome, IsTrue, OnOk, ℕ};
ghost use Rattle.disk_model.specs.Causes.{HasCause};
ghost use Rattle.disk_model.specs.Disk.{Reads};
ghost use Rattle.disk_model.specs.Identity.{IsBound};
ghost use Rattle.disk_model.specs.Moments.{HasNow};
ghost use Rattle.image_model.specs.Geometry.{data_at};
ghost use Rattle.journal_reading.specs.Newest.{newest_in};
ghost use Rattle.tag_store.specs.Store.{IsStore};
ghost use Rattle.replay.specs.ReadPlaces.{ShowsPlaces, ShowsRun, TellsPlace};

use image_model::SECTOR_SIZE;
use journal_reading::NewestEntries;
use layout::Geometry;
use sector_disk::{Disk, Failed};
use std::marker::Model;
use tag_store::Tags;

/// How many sectors are read by one call at most.
const ROOM: u64 = 128;

/// Sectors of a disk in a row that were read for the places of blocks. It takes no memory but its own.
///
/// All its calls are over one disk, of which nobody writes a sector that it shows, but for sectors of tags.
#[derive(Drop)]
pub(crate) struct PlaceRun<'j> {
    /// Which blocks have an entry.
    newest: &'j NewestEntries,
    /// The first sector that was read.
    first: u64,
    /// How many were.
    held: u64,
    /// The one behind the last place that was asked for. Those below it are no longer shown.
    behind: u64,
    buffer: [u8; SECTOR_SIZE * ROOM as usize],
}

impl<'j> Model for PlaceRun<'j> {
    ghost use Rattle.std.specs.Prelude.{◌*◌, take};
    ghost use Rattle.replay.specs.ReadPlaces.{IsPlaceRun, ReadPlaces};

    ghost Value = { ReadPlaces };

    ghost view = { λ run. record { first = run.first; behind = run.behind; bytes = take (512 * run.held) run.buffer } };

    ghost invariant = { λ run. IsPlaceRun run.first run.held run.buffer };
}

impl<'j> PlaceRun<'j> {
    /// A run that shows none.
    pub(crate) fn new(newest: &'j NewestEntries) -> PlaceRun<'j>
        ensures { result ≡ record { first = 0; behind = 0; bytes = [] } }
    {
        PlaceRun {
            newest,
            first: 0,
            held: 0,
            behind: 0,
            buffer: [0; SECTOR_SIZE * ROOM as usize],
        }
    }

    /// Whether a block's place has these bytes. It is no longer shown then, so that it may be written.
    ///
    /// # Errors
    ///
    /// - `Failed`: the disk failed at the read.
    pub(crate) fn is_in_place<D: Disk>(
        &mut self,
        disk: &mut D,
        geometry: &Geometry,
        tags: &Tags,
        block: u64,
        bytes: &[u8],
    ) -> Result<bool, Failed>
        requires geometry { geometry.now ≡ tags.now.geometry }
        requires block { block < tags.now.geometry.blocks }
        requires bytes { length bytes.now ≡ 512 * tags.now.geometry.shape.spb }
        requires store { IsStore tags.now (D.identity disk.old) (D.moments disk.old) }
        requires run { ShowsPlaces tags.now.geometry self.old (D.moments disk.old) }

        ensures told { IfOk result (TellsPlace tags.now.geometry block bytes.now (D.moments disk.old)) }
        ensures behind { OnOk result (data_at tags.now.geometry block + tags.now.geometry.shape.spb ≤ self.new.behind) }

        ensures cause { HasCause (D.faults disk.old) (D.faults disk.new) result }

        ensures run { ShowsPlaces tags.now.geometry self.new (D.moments disk.new) }
        ensures store { IsStore tags.now (D.identity disk.new) (D.moments disk.new) }
        ensures identity { D.identity disk.new ≡ D.identity disk.old }
        ensures kept { D.moments disk.new ≡ D.moments disk.old }
    {
        self.show(disk, geometry, tags, block)?;
        let at = geometry.data_at(block);
        let spb = geometry.shape().spb;
        let is = *self.run(at, spb) == *bytes;
        self.behind = at + spb;
        Ok(is)
    }

    /// Shows the place of a block. Where it does not yet, it reads from there on.
    ///
    /// # Errors
    ///
    /// - `Failed`: the disk failed at the read.
    fn show<D: Disk>(
        &mut self,
        disk: &mut D,
        geometry: &Geometry,
        tags: &Tags,
        block: u64,
    ) -> Result<(), Failed>
        requires geometry { geometry.now ≡ tags.now.geometry }
        requires block { block < tags.now.geometry.blocks }
        requires store { IsStore tags.now (D.identity disk.old) (D.moments disk.old) }
        requires run { ShowsPlaces tags.now.geometry self.old (D.moments disk.old) }

        ensures shown { OnOk result (ShowsRun self.new (data_at tags.now.geometry block) tags.now.geometry.shape.spb) }

        ensures cause { HasCause (D.faults disk.old) (D.faults disk.new) result }

        ensures run { ShowsPlaces tags.now.geometry self.new (D.moments disk.new) }
        ensures store { IsStore tags.now (D.identity disk.new) (D.moments disk.new) }
        ensures identity { D.identity disk.new ≡ D.identity disk.old }
        ensures kept { D.moments disk.new ≡ D.moments disk.old }
    {
        let at = geometry.data_at(block);
        if self.shows(at, geometry.shape().spb) {
            return Ok(());
        }
        let count = self.sectors_from(geometry, block);
        self.load(disk, at, count)
    }

    /// Whether it shows the `count` sectors from `at` on.
    fn shows(&self, at: u64, count: u64) -> bool
        requires { at + count ≤ 2 ^ 48 }

        ensures { IsTrue result ↔ ShowsRun self.now at count }
    {
        self.first <= at && self.behind <= at && at + count <= self.first + self.held
    }

    /// How many sectors to read from the place of a block on: twice as many as the last time where it is behind the
    /// last one that was asked for, and the data of the next blocks follow, which have entries; and else its own.
    fn sectors_from(&self, geometry: &Geometry, block: u64) -> u64
        requires { block < geometry.now.blocks }

        ensures least { geometry.now.shape.spb ≤ result }
        ensures most { result ≤ 128 }
    {
        let spb = geometry.shape().spb;
        let at = geometry.data_at(block);
        let count = (2 * self.held).min(ROOM).max(spb);
        let further = (count - 1) / spb;
        if at == self.behind
            && further < geometry.blocks() - block
            && geometry.data_at(block + further) + spb == at + count
            && have_entries(self.newest, block, block + further + 1)
        {
            count
        } else {
            spb
        }
    }

    /// The bytes of the `count` sectors from `at` on.
    fn run(&self, at: u64, count: u64) -> &[u8]
        requires { ShowsRun self.now at count }

        ensures { result.now ≡ take (512 * count) (drop (512 * (at - self.now.first)) self.now.bytes) }
    {
        let from = SECTOR_SIZE * (at - self.first) as usize;
        &self.buffer[from..from + SECTOR_SIZE * count as usize]
    }

    /// Reads `count` sectors from `at` on, or as many as the disk has there, by one call.
    ///
    /// # Errors
    ///
    /// - `Failed`: the disk failed. Then it shows none.
    fn load<D: Disk>(&mut self, disk: &mut D, at: u64, count: u64) -> Result<(), Failed>
        requires bound { IsBound (D.identity disk.old).name }
        requires some { 1 ≤ count }
        requires room { count ≤ 128 }
        requires inside { at < (D.identity disk.old).sectors }
        requires device { (D.identity disk.old).sectors ≤ 2 ^ 48 }

        ensures first { self.new.first ≡ at }
        ensures behind { self.new.behind ≡ at }
        ensures size { OnOk result (length self.new.bytes ≡ 512 * min count ((D.identity disk.old).sectors - at)) }
        ensures reads { HasNow (Reads at self.new.bytes) (D.moments disk.old) }

        ensures cause { HasCause (D.faults disk.old) (D.faults disk.new) result }

        ensures identity { D.identity disk.new ≡ D.identity disk.old }
        ensures kept { D.moments disk.new ≡ D.moments disk.old }
    {
        let count = count.min(disk.sectors() - at);
        self.first = at;
        self.behind = at;
        self.held = 0;
        read_into(disk, at, count, &mut self.buffer)?;
        self.held = count;
        Ok(())
    }
}

/// Whether each of these blocks has an entry, up to `end`.
fn have_entries(newest: &NewestEntries, first: u64, end: u64) -> bool
    ensures { IsTrue result ↔ ((block : ℕ) → first ≤ block → block < end → IsSome (newest_in newest.now block)) }
{
    for block in first..end {
        if newest.newest(block).is_none() {
            return false;
        }
    }
    true
}

/// Reads `count` sectors from `at` on to the beginning of a buffer.
///
/// # Errors
///
/// - `Failed`: the disk failed. Then what is left in the buffer is open.
fn read_into<D: Disk>(disk: &mut D, at: u64, count: u64, buffer: &mut [u8]) -> Result<(), Failed>
    requires bound { IsBound (D.identity disk.old).name }
    requires some { 1 ≤ count }
    requires room { 512 * count ≤ length buffer.old }
    requires inside { at + count ≤ (D.identity disk.old).sectors }

    ensures read { OnOk result (HasNow (Reads at (take (512 * count) buffer.new)) (D.moments disk.old)) }

    ensures cause { HasCause (D.faults disk.old) (D.faults disk.new) result }

    ensures identity { D.identity disk.new ≡ D.identity disk.old }
    ensures kept { D.moments disk.new ≡ D.moments disk.old }
{
    disk.read_run(at, &mut buffer[..SECTOR_SIZE * count as usize])
}
