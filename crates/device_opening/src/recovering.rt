//! The first sync of an opening, and the recovery behind it.
ghost use Rattle.std.specs.Prelude.{◌≡◌, ◌*◌, ℕ, IfOk, length};
ghost use Rattle.disk_model.specs.Causes.{HasCause};
ghost use Rattle.disk_model.specs.Identity.{IsBound};
ghost use Rattle.image_model.specs.Geometry.{journal_sectors};
ghost use Rattle.buffer_cache.specs.Cache.{sectors_of};
ghost use Rattle.buffer_cache.specs.HeldSectors.{no_sectors};
ghost use Rattle.replay.specs.Recovery.{GoesOnIn};
ghost use Rattle.device_opening.specs.Judged.{HasJudged, judged_format};
ghost use Rattle.device_opening.specs.Opening.{HasRecovered, IsOfImage, KeepsRest, LeavesImage};

use crate::judging::JudgedImage;
use crate::syncing::first_sync;
use buffer_cache::Cache;
use hmac_tag::TagMaker;
use replay::{Recovered, recover};
use sector_disk::{Disk, Failed};
use sector_pool::Run;
use tag_store::Tags;

/// An image that was recovered.
#[derive(Drop)]
pub(crate) struct RecoveredImage {
    /// Where blocks and tags lie, and the tags that stand in memory.
    pub(crate) tags: Tags,
    /// What makes the tags.
    pub(crate) maker: TagMaker,
    /// Where writing goes on in the journal.
    pub(crate) at: Recovered,
}

/// Syncs a disk whose image was judged, and recovers that, over a cache that holds nothing. The run, of the journal's
/// size, is scratch memory, and no other is taken.
///
/// # Errors
///
/// - `Failed`: the disk failed. Every image has the cells of the image at the entry.
pub(crate) fn recover_image<D: Disk>(
    disk: &mut D,
    image: JudgedImage,
    cache: Cache,
    pool: &mut Run<'_>,
) -> Result<RecoveredImage, Failed>
    requires bound { IsBound (D.identity disk.old).name }
    requires judged { HasJudged (D.identity disk.old).sectors image (D.moments disk.old) }
    requires cache { (slots : ℕ) × (sectors_of cache ≡ no_sectors slots) }
    requires pool { length pool.old.bytes ≡ 512 * journal_sectors image.format.geometry }

    ensures recovered { IfOk result (HasRecovered (judged_format (D.identity disk.old).sectors image)
        (D.moments disk.old) (D.moments disk.new)) }
    ensures place { IfOk result (λ recovered. GoesOnIn image.format.geometry recovered.at) }
    ensures made { IfOk result (λ recovered. IsOfImage image recovered (D.identity disk.new) (D.moments disk.new)) }

    ensures cause { HasCause (D.faults disk.old) (D.faults disk.new) result }

    ensures pool { length pool.new.bytes ≡ length pool.old.bytes }
    ensures identity { D.identity disk.new ≡ D.identity disk.old }

    ensures leaves { LeavesImage (judged_format (D.identity disk.old).sectors image)
        (D.moments disk.old) (D.moments disk.new) }
    ensures rest { KeepsRest image.format.geometry (D.moments disk.old) (D.moments disk.new) }
{
    let JudgedImage {
        format,
        maker,
        journal,
    } = image;
    let mut tags = first_sync(disk, format.geometry, cache)?;
    let at = recover(disk, &format.geometry, &mut tags, &journal, pool)?;
    Ok(RecoveredImage { tags, maker, at })
}
