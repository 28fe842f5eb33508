//! What is allocated before anything is written.
ghost use Rattle.std.specs.Prelude.{◌≡◌, ◌*◌, ◌≤◌, ◌^◌, IfOk};
ghost use Rattle.image_model.specs.Sectors.{zero_bytes};
ghost use Rattle.image_resizing.specs.Room.{HasGrowthRoom, HasRecoveryRoom};

use buffer_cache::Cache;
use image_model::{SECTOR_SIZE, SUPERBLOCK_SECTORS};
use layout::Geometry;
use sector_disk::Memory;
use sector_pool::Region;
use std::alloc::Global;

/// How many sectors of zeros, or of tags, are written at once.
///
/// Own: 256 KiB, behind which a larger write is no faster.
pub(crate) const RUN_SECTORS: u64 = 512;

/// How many sectors of tags a recovery holds in memory.
///
/// Own: 128 KiB of them.
const HELD_SECTORS: u64 = 256;

/// What is allocated for the new blocks.
#[derive(Drop)]
pub(crate) struct GrowthRoom {
    /// Zeros, as many as are written at once.
    pub(crate) zeros: Vec<u8>,
    /// Whole sectors for their tags, as many as are written at once.
    pub(crate) tags: Vec<u8>,
}

impl GrowthRoom {
    /// Takes that memory.
    ///
    /// # Errors
    ///
    /// - `Memory`: there is none.
    pub(crate) fn new(alloc: Global) -> Result<GrowthRoom, Memory>
        ensures { IfOk result HasGrowthRoom }
    {
        let zeros = zeros_of(alloc, RUN_SECTORS)?;
        let tags = zeros_of(alloc, RUN_SECTORS)?;
        Ok(GrowthRoom { zeros, tags })
    }
}

/// What is allocated for the recovery of a journal.
#[derive(Drop)]
pub(crate) struct RecoveryRoom {
    /// What holds sectors of tags, none yet.
    pub(crate) cache: Cache,
    /// As many sectors as the journal has.
    pub(crate) region: Region,
}

impl RecoveryRoom {
    /// Takes that memory, for an image with these places.
    ///
    /// # Errors
    ///
    /// - `Memory`: there is none.
    pub(crate) fn new(alloc: Global, geometry: Geometry) -> Result<RecoveryRoom, Memory>
        ensures { IfOk result (HasRecoveryRoom geometry) }
    {
        let cache = Cache::new(alloc, HELD_SECTORS)?;
        let mut region = Region::new();
        region.reserve(alloc, geometry.initial() - SUPERBLOCK_SECTORS)?;
        Ok(RecoveryRoom { cache, region })
    }
}

/// So many sectors of zeros.
///
/// # Errors
///
/// - `Memory`: there is none for them.
fn zeros_of(alloc: Global, sectors: u64) -> Result<Vec<u8>, Memory>
    requires sectors { sectors ≤ 2 ^ 20 }

    ensures { IfOk result (λ zeros. zeros.items ≡ zero_bytes (512 * sectors)) }
{
    let zeros = Vec::from_elem(alloc, 0, SECTOR_SIZE * sectors as usize)?;
    Ok(zeros)
}
