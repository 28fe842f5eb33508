//! What is allocated before anything is written.
ghost use Rattle.std.specs.Prelude.{◌≡◌, ◌*◌, ◌≤◌, ◌^◌, IfOk};
ghost use Rattle.commit_id.specs.Shape.{IsShape, as_shape};
ghost use Rattle.image_model.specs.Sectors.{zero_bytes};
ghost use Rattle.image_formatting.specs.Room.{HasRoom};

use commit_id::Shape;
use image_model::SECTOR_SIZE;
use sector_disk::Memory;
use std::alloc::Global;

/// How many sectors of zeros are written at once.
///
/// Own: 256 KiB, behind which a larger write is no faster.
const RUN_SECTORS: u64 = 512;

/// Buffers: for a section of the journal, of zeros, and for tags.
#[derive(Drop)]
pub(crate) struct Room {
    pub(crate) section: Vec<u8>,
    pub(crate) zeros: Vec<u8>,
    /// Whole tags in whole sectors, as many as `tags_at_once` says.
    pub(crate) tags: Vec<u8>,
}

impl Room {
    /// Buffers for images whose sections have this shape.
    ///
    /// # Errors
    ///
    /// - `Memory`: there is none for them.
    pub(crate) fn new(alloc: Global, shape: Shape) -> Result<Room, Memory>
        requires shape { IsShape shape }

        ensures { IfOk result (HasRoom (as_shape shape)) }
    {
        let section = zeros_of(alloc, shape.sectors)?;
        let zeros = zeros_of(alloc, RUN_SECTORS)?;
        let tags = zeros_of(alloc, shape.tag * (SECTOR_SIZE as u64 / shape.tag))?;
        Ok(Room {
            section,
            zeros,
            tags,
        })
    }
}

/// So many sectors of zeros.
fn zeros_of(alloc: Global, sectors: u64) -> Result<Vec<u8>, Memory>
    requires sectors { sectors ≤ 2 ^ 20 }

    ensures { IfOk result (λ zeros. zeros.items ≡ zero_bytes (512 * sectors)) }
{
    let zeros = Vec::from_elem(alloc, 0, SECTOR_SIZE * sectors as usize)?;
    Ok(zeros)
}
