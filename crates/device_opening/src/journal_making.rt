//! Making a journal of a bitmap: each region whose bit is set is recalculated, and then the journal is empty.
ghost use Rattle.std.specs.Prelude.{◌≡◌, ◌*◌, ℕ, IfOk, length};
ghost use Rattle.disk_model.specs.Causes.{HasCause};
ghost use Rattle.disk_model.specs.Identity.{IsBound};
ghost use Rattle.disk_model.specs.Moments.{HasNow};
ghost use Rattle.image_model.specs.Geometry.{journal_sectors};
ghost use Rattle.image_model.specs.SuperblockLaws.{FitsBytes};
ghost use Rattle.buffer_cache.specs.Cache.{sectors_of};
ghost use Rattle.buffer_cache.specs.Cached.{HasNoMark};
ghost use Rattle.buffer_cache.specs.HeldSectors.{no_sectors};
ghost use Rattle.image_format.specs.Format.{disk_format};
ghost use Rattle.tag_store.specs.Store.{IsStore};
ghost use Rattle.device_opening.specs.BitmapOpening.{HasJudgedBitmap};
ghost use Rattle.device_opening.specs.JournalMaking.{HasMadeJournal, HasRecalculatedOn, IsMadeOf, LeavesMadeJournal};
ghost use Rattle.device_opening.specs.JournalMaking.{IsOfRecalculation, LeavesRecalculated, bitmap_judged, judged_as};

use crate::bitmap_judging::JudgedBitmap;
use crate::recovering::RecoveredImage;
use crate::syncing::first_sync;
use bitmap_mode::RegionStates;
use buffer_cache::Cache;
use hmac_tag::TagMaker;
use image_format::ImageFormat;
use mode_change::change_to_journal;
use recalculation::recalculate_all;
use replay::Recovered;
use sector_disk::{Disk, Failed};
use sector_pool::Run;
use tag_store::Tags;

/// Syncs a disk whose image has a bitmap and was judged, recalculates each region whose bit is set, and makes an empty
/// journal of the bitmap. The cache holds nothing, and the run, of the journal's size, is scratch memory; no other is
/// taken.
///
/// # Errors
///
/// - `Failed`: the disk failed. Every image has the blocks and the cells of the image at the entry, by its own first
///   sector.
pub(crate) fn make_journal<D: Disk>(
    disk: &mut D,
    image: JudgedBitmap,
    cache: Cache,
    pool: &mut Run<'_>,
) -> Result<RecoveredImage, Failed>
    requires bound { IsBound (D.identity disk.old).name }
    requires judged { HasJudgedBitmap (D.identity disk.old).sectors image (D.moments disk.old) }
    requires cache { (slots : ℕ) × (sectors_of cache ≡ no_sectors slots) }
    requires pool { length pool.old.bytes ≡ 512 * journal_sectors image.format.geometry }
    requires fits { FitsBytes image.format.fields }

    ensures made { IfOk result (HasMadeJournal (bitmap_judged (D.identity disk.old).sectors image)
        (D.moments disk.old) (D.moments disk.new)) }
    ensures kept { IfOk result (λ recovered. IsMadeOf image recovered (D.identity disk.new) (D.moments disk.new)) }

    ensures cause { HasCause (D.faults disk.old) (D.faults disk.new) result }

    ensures pool { length pool.new.bytes ≡ length pool.old.bytes }
    ensures identity { D.identity disk.new ≡ D.identity disk.old }

    ensures leaves { LeavesMadeJournal (bitmap_judged (D.identity disk.old).sectors image)
        (D.moments disk.old) (D.moments disk.new) }
{
    let JudgedBitmap {
        format,
        maker,
        regions,
    } = image;
    let tags = recalculate_marked(disk, &format, &maker, regions, cache)?;
    change_to_journal(disk, &format, pool.bytes_mut())?;
    Ok(RecoveredImage {
        tags,
        maker,
        at: Recovered {
            next: 0,
            number: 1,
            used: false,
        },
    })
}

/// Syncs a disk whose image has a bitmap and was judged, and recalculates each region whose bit is set, over a cache
/// that holds nothing. The tags that were made are written back, and not synced.
///
/// # Errors
///
/// - `Failed`: the disk failed. Every image has the cells of the image at the entry.
fn recalculate_marked<D: Disk>(
    disk: &mut D,
    format: &ImageFormat,
    maker: &TagMaker,
    regions: RegionStates,
    cache: Cache,
) -> Result<Tags, Failed>
    requires bound { IsBound (D.identity disk.old).name }
    requires judged { HasJudgedBitmap (D.identity disk.old).sectors (judged_as format.now maker.now regions)
        (D.moments disk.old) }
    requires cache { (slots : ℕ) × (sectors_of cache ≡ no_sectors slots) }

    ensures recalculated { IfOk result (HasRecalculatedOn maker.now.key (D.identity disk.old).sectors format.now
        (D.moments disk.old) (D.moments disk.new)) }
    ensures store { IfOk result (λ tags. IsStore tags (D.identity disk.new) (D.moments disk.new)) }
    ensures places { IfOk result (λ tags. tags.geometry ≡ format.now.geometry) }
    ensures unmarked { IfOk result (λ tags. HasNoMark tags.sectors) }
    ensures written { IfOk result (λ tags. HasNow (λ start.
        HasNow (IsOfRecalculation format.now.geometry start) (D.moments disk.new)) (D.moments disk.old)) }

    ensures cause { HasCause (D.faults disk.old) (D.faults disk.new) result }

    ensures identity { D.identity disk.new ≡ D.identity disk.old }

    ensures leaves { LeavesRecalculated (disk_format maker.now.key (D.identity disk.old).sectors format.now)
        (D.moments disk.old) (D.moments disk.new) }
{
    let mut tags = first_sync(disk, format.geometry, cache)?;
    let mut awaiting = regions.into_awaiting();
    recalculate_all(disk, &mut tags, maker, &mut awaiting)?;
    Ok(tags)
}
