//! The recovery of an image, and the emptying of its journal behind it.
ghost use Rattle.std.specs.Prelude.{◌≡◌, ◌*◌, ℕ, IfOk, length};
ghost use Rattle.disk_model.specs.Causes.{HasCause};
ghost use Rattle.disk_model.specs.Identity.{IsBound};
ghost use Rattle.disk_model.specs.Moments.{EachSince};
ghost use Rattle.image_model.specs.Geometry.{journal_sectors};
ghost use Rattle.buffer_cache.specs.Cache.{sectors_of};
ghost use Rattle.buffer_cache.specs.HeldSectors.{no_sectors};
ghost use Rattle.device_opening.specs.DirectOpening.{HasEmptied};
ghost use Rattle.place_model.specs.EmptyJournal.{KeepsEmpty};
ghost use Rattle.device_opening.specs.Judged.{HasJudged, judged_format};
ghost use Rattle.device_opening.specs.Opening.{IsOfImage, LeavesImage};

use crate::judging::JudgedImage;
use crate::recovering::{RecoveredImage, recover_image};
use buffer_cache::Cache;
use replay::empty;
use sector_disk::{Disk, Failed};
use sector_pool::Run;

/// Syncs a disk whose image was judged, recovers that, and then empties its journal, unless every entry of it is unused
/// and it has one commit number. The cache holds nothing, and the run, of the journal's size, is scratch memory.
///
/// # Errors
///
/// - `Failed`: the disk failed. Every image has the cells of the image at the entry.
pub(crate) fn recover_emptied<D: Disk>(
    disk: &mut D,
    image: JudgedImage,
    cache: Cache,
    pool: &mut Run<'_>,
) -> Result<RecoveredImage, Failed>
    requires bound { IsBound (D.identity disk.old).name }
    requires judged { HasJudged (D.identity disk.old).sectors image (D.moments disk.old) }
    requires cache { (slots : ℕ) × (sectors_of cache ≡ no_sectors slots) }
    requires pool { length pool.old.bytes ≡ 512 * journal_sectors image.format.geometry }

    ensures emptied { IfOk result (HasEmptied (judged_format (D.identity disk.old).sectors image)
        (D.moments disk.old) (D.moments disk.new)) }
    ensures made { IfOk result (λ recovered. IsOfImage image recovered (D.identity disk.new) (D.moments disk.new)) }

    ensures cause { HasCause (D.faults disk.old) (D.faults disk.new) result }

    ensures pool { length pool.new.bytes ≡ length pool.old.bytes }
    ensures identity { D.identity disk.new ≡ D.identity disk.old }

    ensures leaves { LeavesImage (judged_format (D.identity disk.old).sectors image)
        (D.moments disk.old) (D.moments disk.new) }
    ensures keeps { EachSince (KeepsEmpty image.format.geometry) (D.moments disk.old) (D.moments disk.new) }
{
    let geometry = image.geometry();
    let recovered = recover_image(disk, image, cache, pool)?;
    let at = empty(disk, &geometry, &recovered.tags, pool, recovered.at)?;
    Ok(RecoveredImage {
        tags: recovered.tags,
        maker: recovered.maker,
        at,
    })
}
