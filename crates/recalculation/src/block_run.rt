//! A run of blocks in memory: those that lie side by side on the disk are read by one call.
ghost use Rattle.std.specs.Prelude.{◌≡◌, ◌↔◌, ◌+◌, ◌*◌, ◌<◌, ◌≤◌, ◌^◌, ℕ, List, length, take, IfOk, IsTrue, OnOk};
ghost use Rattle.disk_model.specs.Causes.{HasCause};
ghost use Rattle.disk_model.specs.Disk.{Content, Reads, last_image};
ghost use Rattle.disk_model.specs.Identity.{IsBound};
ghost use Rattle.disk_model.specs.Moments.{HasNow};
ghost use Rattle.image_model.specs.Cells.{placed_cells_of};
ghost use Rattle.image_model.specs.Geometry.{Geometry, IsGeometry, data_at};
ghost use Rattle.recalculation.specs.Places.{IsPlaces, IsSideBySide};
ghost use Rattle.recalculation.specs.Run.{HasBuffer, ShowsBlock, ShowsDisk, run_size};

use crate::places::{Places, RUN_SECTORS};
use image_model::SECTOR_SIZE;
use sector_disk::{Disk, Failed, Memory};
use std::alloc::Global;

/// A run of blocks in memory. It takes all its memory when it is made.
#[derive(Drop)]
pub(crate) struct BlockRun {
    /// The first block that it shows.
    first: u64,
    /// How many it shows.
    count: u64,
    bytes: Vec<u8>,
}

impl BlockRun {
    /// Makes a run that shows no block.
    ///
    /// # Errors
    ///
    /// - `Memory`: there is none for its 64 KiB.
    pub(crate) fn new(alloc: Global) -> Result<BlockRun, Memory>
        ensures { IfOk result (λ run. HasBuffer run) }
    {
        let bytes = buffer(alloc, SECTOR_SIZE * RUN_SECTORS as usize)?;
        Ok(BlockRun {
            first: 0,
            count: 0,
            bytes,
        })
    }

    /// Shows no block any more.
    pub(crate) fn clear(&mut self)
        requires buffer { HasBuffer self.old }

        ensures { (g : Geometry) (moments : List Content) → ShowsDisk g self.new moments }
    {
        self.first = 0;
        self.count = 0;
    }

    /// Whether it shows the block.
    fn shows(&self, block: u64) -> bool
        requires { self.now.first + self.now.count ≤ 2 ^ 48 }

        ensures { IsTrue result ↔ ShowsBlock self.now block }
    {
        self.first <= block && block < self.first + self.count
    }

    /// Shows a block. Where it does not yet, it reads as many from there on as lie side by side before `end`, by one
    /// call of the disk.
    ///
    /// # Errors
    ///
    /// - `Failed`: the disk failed at the read.
    pub(crate) fn show<D: Disk>(
        &mut self,
        disk: &mut D,
        places: &Places,
        block: u64,
        end: u64,
    ) -> Result<(), Failed>
        requires bound { IsBound (D.identity disk.old).name }
        requires geometry { IsGeometry places.now.geometry (D.identity disk.old).sectors }
        requires places { IsPlaces places.now }
        requires block { block < end }
        requires end { end ≤ places.now.geometry.blocks }
        requires run { ShowsDisk places.now.geometry self.old (D.moments disk.old) }

        ensures shown { OnOk result (ShowsBlock self.new block) }

        ensures cause { HasCause (D.faults disk.old) (D.faults disk.new) result }

        ensures run { ShowsDisk places.now.geometry self.new (D.moments disk.new) }
        ensures identity { D.identity disk.new ≡ D.identity disk.old }
        ensures kept { D.moments disk.new ≡ D.moments disk.old }
    {
        if self.shows(block) {
            return Ok(());
        }
        let count = places.run(block, end);
        self.load(disk, places, block, count)
    }

    /// The bytes of a block that it shows, of `spb` sectors.
    pub(crate) fn block(&self, block: u64, spb: u64) -> &[u8]
        requires shown { ShowsBlock self.now block }
        requires fits { self.now.count * spb ≤ 128 }
        requires buffer { HasBuffer self.now }

        ensures size { length result.now ≡ 512 * spb }
        ensures bytes { (g : Geometry) (sectors : ℕ) (moments : List Content) → g.shape.spb ≡ spb
            → IsGeometry g sectors → ShowsDisk g self.now moments
            → HasNow (λ c. result.now ≡ (placed_cells_of g (last_image c) block).bytes) moments }
    {
        let from = SECTOR_SIZE * ((block - self.first) * spb) as usize;
        &self.bytes[from..from + SECTOR_SIZE * spb as usize]
    }

    /// Reads `count` blocks that lie side by side, by one call of the disk.
    ///
    /// # Errors
    ///
    /// - `Failed`: the disk failed. Then it shows none.
    fn load<D: Disk>(
        &mut self,
        disk: &mut D,
        places: &Places,
        block: u64,
        count: u64,
    ) -> Result<(), Failed>
        requires bound { IsBound (D.identity disk.old).name }
        requires geometry { IsGeometry places.now.geometry (D.identity disk.old).sectors }
        requires some { 1 ≤ count }
        requires inside { block + count ≤ places.now.geometry.blocks }
        requires side_by_side { IsSideBySide places.now.geometry block count }
        requires fits { count * places.now.geometry.shape.spb ≤ 128 }
        requires buffer { HasBuffer self.old }

        ensures shown { OnOk result (ShowsBlock self.new block) }

        ensures cause { HasCause (D.faults disk.old) (D.faults disk.new) result }

        ensures run { ShowsDisk places.now.geometry self.new (D.moments disk.new) }
        ensures identity { D.identity disk.new ≡ D.identity disk.old }
        ensures kept { D.moments disk.new ≡ D.moments disk.old }
    {
        self.first = 0;
        self.count = 0;
        let at = places.geometry.data_at(block);
        let sectors = count * places.geometry.shape().spb;
        read_into(disk, at, sectors, self.bytes.as_mut_slice())?;
        self.first = block;
        self.count = count;
        Ok(())
    }
}

/// A buffer of so many bytes.
///
/// # Errors
///
/// - `Memory`: there is none for it.
fn buffer(alloc: Global, size: usize) -> Result<Vec<u8>, Memory>
    requires { size ≤ 2 ^ 20 }

    ensures { IfOk result (λ bytes. length bytes.items ≡ size) }
{
    let bytes = Vec::from_elem(alloc, 0, size)?;
    Ok(bytes)
}

/// Reads `count` sectors from `at` on to the beginning of a buffer.
///
/// # Errors
///
/// - `Failed`: the disk failed. Then what is left in the buffer is open.
fn read_into<D: Disk>(disk: &mut D, at: u64, count: u64, buffer: &mut [u8]) -> Result<(), Failed>
    requires bound { IsBound (D.identity disk.old).name }
    requires some { 1 ≤ count }
    requires room { 512 * count ≤ length buffer.old }
    requires inside { at + count ≤ (D.identity disk.old).sectors }

    ensures read { OnOk result (HasNow (Reads at (take (512 * count) buffer.new)) (D.moments disk.old)) }

    ensures cause { HasCause (D.faults disk.old) (D.faults disk.new) result }

    ensures identity { D.identity disk.new ≡ D.identity disk.old }
    ensures kept { D.moments disk.new ≡ D.moments disk.old }
{
    disk.read_run(at, &mut buffer[..SECTOR_SIZE * count as usize])
}
