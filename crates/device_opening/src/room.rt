//! The memory of an opening.
ghost use Rattle.std.specs.Prelude.{◌*◌, ℕ, IfOk};
ghost use Rattle.image_format.specs.Format.{IsFormat};
ghost use Rattle.device_opening.specs.Opening.{IsRecalculationFor, IsRecoveryRoomFor, IsRoomFor};

use buffer_cache::Cache;
use image_format::ImageFormat;
use image_model::{SECTOR_SIZE, SUPERBLOCK_SECTORS};
use layout::Geometry;
use recalculation::{Awaiting, Position, Recalculation};
use request_slots::Slots;
use sector_disk::Memory;
use sector_pool::{Region, Run};
use std::alloc::Global;

/// How many sectors of tags a device holds in memory, in every mode.
///
/// Own: 128 KiB of them.
const HELD_SECTORS: u64 = 256;

/// What is allocated in every mode once the image is judged, before the disk is synced.
#[derive(Drop)]
pub(crate) struct DeviceRoom {
    /// What holds sectors of tags, none yet.
    pub(crate) cache: Cache,
    /// The requests in flight, none yet.
    pub(crate) slots: Slots,
    /// One block, as it is read.
    pub(crate) buffer: Vec<u8>,
}

impl DeviceRoom {
    /// Takes the memory for a device with these places.
    ///
    /// # Errors
    ///
    /// - `Memory`: there is none.
    pub(crate) fn new(alloc: Global, geometry: Geometry) -> Result<DeviceRoom, Memory>
        ensures { IfOk result (IsRoomFor geometry) }
    {
        let size = SECTOR_SIZE * geometry.shape().spb as usize;
        let slots = Slots::new(alloc, geometry.blocks(), size)?;
        let buffer = vec![in alloc; 0; size]?;
        let cache = Cache::new(alloc, HELD_SECTORS)?;
        Ok(DeviceRoom {
            cache,
            slots,
            buffer,
        })
    }
}

/// The same without a bitmap, with the memory in which a journal is recovered and regions are recalculated.
#[derive(Drop)]
pub(crate) struct RecoveryRoom<'p> {
    /// What is allocated in every mode.
    pub(crate) device: DeviceRoom,
    /// As many sectors as the journal has.
    pub(crate) pool: Run<'p>,
    /// The regions that await the tags of their blocks, and how far the fields say that it is.
    pub(crate) recalculation: Recalculation,
}

impl<'p> RecoveryRoom<'p> {
    /// Takes the memory for a device on an image in this format. The region gets the sectors of the journal, in place
    /// of those that it had.
    ///
    /// # Errors
    ///
    /// - `Memory`: there is none.
    pub(crate) fn new(
        alloc: Global,
        format: &ImageFormat,
        pool: &'p mut Region,
    ) -> Result<RecoveryRoom<'p>, Memory>
        requires { (sectors : ℕ) × IsFormat sectors format.now }

        ensures { IfOk result (IsRecoveryRoomFor format.now) }
    {
        let device = DeviceRoom::new(alloc, format.geometry)?;
        let recalculation = recalculation_of(alloc, format)?;
        pool.reserve(alloc, format.geometry.initial() - SUPERBLOCK_SECTORS)?;
        Ok(RecoveryRoom {
            device,
            pool: pool.whole(),
            recalculation,
        })
    }
}

/// Takes the memory for the regions that await in an image in this format, which has no bitmap: none where no region
/// does. The position is the one that its fields tell.
///
/// # Errors
///
/// - `Memory`: there is none.
fn recalculation_of(alloc: Global, format: &ImageFormat) -> Result<Recalculation, Memory>
    requires { (sectors : ℕ) × IsFormat sectors format.now }

    ensures { IfOk result (IsRecalculationFor format.now.fields format.now.geometry) }
{
    let awaiting = Awaiting::of(alloc, &format.fields, &format.geometry, None)?;
    Ok(Recalculation {
        awaiting,
        position: Position::of(format.fields),
    })
}
