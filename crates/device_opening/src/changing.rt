//! Opening in bitmap mode of an image with a journal: that is recovered and emptied, and becomes a bitmap.
ghost use Rattle.std.specs.Prelude.{◌≡◌, ◌*◌, ℕ, IfOk, length};
ghost use Rattle.disk_model.specs.Causes.{HasCause};
ghost use Rattle.disk_model.specs.Identity.{IsBound};
ghost use Rattle.disk_model.specs.Moments.{HasNow};
ghost use Rattle.image_model.specs.Geometry.{journal_sectors};
ghost use Rattle.buffer_cache.specs.Cache.{sectors_of};
ghost use Rattle.buffer_cache.specs.HeldSectors.{no_sectors};
ghost use Rattle.device_model.specs.Mode as Model;
ghost use Rattle.hmac_tag.specs.TagMaker.{key_of};
ghost use Rattle.image_format.specs.Format.{IsDirectFormat};
ghost use Rattle.image_refusal.specs.Calls.{HasCallCause};
ghost use Rattle.judging_model.specs.Faults.{fault_of};
ghost use Rattle.bitmap_device.specs.Device.{IsReady, in_bitmap};
ghost use Rattle.device_parts.specs.Device.{HasOpened};
ghost use Rattle.mode_change.specs.ToBitmap.{bitmap_format};
ghost use Rattle.request_slots.specs.Flight.{no_requests};
ghost use Rattle.device_opening.specs.Changing.{HasEmptiedOn, HasMade, HasNoRegions, IsWrittenBack, LeavesMade};
ghost use Rattle.device_opening.specs.Changing.{MakesOfSameBlocks, WritesBitmap};
ghost use Rattle.device_opening.specs.Judged.{HasJournalFormat, HasJudged, judged_format};
ghost use Rattle.device_opening.specs.Opening.{IsRecalculationFor, IsRecoveryRoomFor};
ghost use Rattle.place_model.specs.RecoveryWrites.{IsOfOpening};
ghost use Rattle.device_opening.specs.Opening.{LeavesImage, LeavesOpenable, Refuses};

use crate::emptying::recover_emptied;
use crate::judging::{JudgedImage, judge_found};
use crate::recovering::RecoveredImage;
use crate::room::{DeviceRoom, RecoveryRoom};
use bitmap_device::BitmapParts;
use bitmap_mode::RegionStates;
use buffer_cache::Cache;
use device_parts::Parts;
use hmac_tag::Hash;
use image_format::ImageFormat;
use image_judging::Consent;
use image_refusal::{CallFault, OpenFault};
use mode_change::{bitmap_format, change_to_bitmap};
use recalculation::{Recalculation, recalculate_all};
use sector_disk::{Disk, Failed, Memory};
use sector_pool::{Region, Run};
use std::alloc::Global;

/// The memory of an opening that makes a bitmap of a journal.
#[derive(Drop)]
pub(crate) struct ChangeRoom<'p> {
    /// What is allocated for the journal.
    pub(crate) recovery: RecoveryRoom<'p>,
    /// The regions behind the change, of which none is set.
    pub(crate) regions: RegionStates,
}

impl<'p> ChangeRoom<'p> {
    /// Takes the memory for a change of an image in this format, on a disk of so many sectors. The region of memory
    /// gets the sectors of the journal, in place of those that it had.
    ///
    /// # Errors
    ///
    /// - `Memory`: there is none.
    pub(crate) fn new(
        alloc: Global,
        format: &ImageFormat,
        disk_sectors: u64,
        pool: &'p mut Region,
    ) -> Result<ChangeRoom<'p>, Memory>
        requires { IsDirectFormat disk_sectors format.now }

        ensures recovery { IfOk result (λ room. IsRecoveryRoomFor format.now room.recovery) }
        ensures regions { IfOk result (λ room. HasNoRegions (bitmap_format format.now).geometry room.regions) }
    {
        let recovery = RecoveryRoom::new(alloc, format, pool)?;
        let after = bitmap_format(format, disk_sectors);
        let regions = RegionStates::none(alloc, &after.fields, after.geometry)?;
        Ok(ChangeRoom { recovery, regions })
    }
}

/// Opens a device in bitmap mode on a disk, whose first sector tells this format, which has a journal.
///
/// # Errors
///
/// `Memory` and `Disk` come whenever they hold, and of the others the first that holds:
///
/// - `Memory`: there is none for what is kept of the journal, or for what the device needs. Nothing was done.
/// - `Disk`: the disk failed. Every image has the blocks and the cells of the image at the entry, where that can be
///   opened, by its own first sector.
/// - `Consent`: some block is to be recalculated, there is a key, and consent is withheld. Nothing was done.
/// - `Journal`: the journal is refused, by its scan or for the first entry in the order of the replay. Nothing was
///   done.
pub(crate) fn open_made<D: Disk>(
    alloc: Global,
    disk: &mut D,
    format: ImageFormat,
    hash: Hash,
    consent: Consent,
    pool: &mut Region,
) -> Result<BitmapParts, CallFault<OpenFault>>
    requires bound { IsBound (D.identity disk.old).name }
    requires found { HasJournalFormat (D.identity disk.old).sectors format (D.moments disk.old) }

    ensures opened { IfOk result (λ kept. HasOpened in_bitmap Model.Bitmap (key_of hash) (D.identity disk.old)
        kept (D.moments disk.old) (D.moments disk.new)) }

    ensures refused { Refuses (fault_of (key_of hash) consent (D.identity disk.old).sectors)
        (D.moments disk.old) (D.moments disk.new) result }
    ensures cause { HasCallCause (D.faults disk.old) (D.faults disk.new) result }

    ensures identity { D.identity disk.new ≡ D.identity disk.old }

    ensures left { LeavesOpenable Model.Bitmap (key_of hash) (D.identity disk.old).sectors
        (D.moments disk.old) (D.moments disk.new) }
    ensures writes { WritesBitmap (key_of hash) (D.identity disk.old).sectors
        (D.moments disk.old) (D.moments disk.new) }
{
    let image = judge_found(alloc, disk, format, hash, consent)?;
    let room = ChangeRoom::new(alloc, &image.format, disk.sectors(), pool)?;
    let device = make_bitmap(disk, image, room)?;
    Ok(device)
}

/// Makes a bitmap of the journal of an image that was judged, with memory that was taken for it, and opens a device on
/// it.
///
/// # Errors
///
/// - `Failed`: the disk failed. Every image has the blocks and the cells of the image at the entry, by its own first
///   sector.
fn make_bitmap<D: Disk>(
    disk: &mut D,
    image: JudgedImage,
    room: ChangeRoom<'_>,
) -> Result<BitmapParts, Failed>
    requires bound { IsBound (D.identity disk.old).name }
    requires judged { HasJudged (D.identity disk.old).sectors image (D.moments disk.old) }
    requires room { IsRecoveryRoomFor image.format room.recovery }
    requires regions { HasNoRegions (bitmap_format image.format).geometry room.regions }

    ensures opened { IfOk result (λ device. HasMade image.maker.key (D.identity disk.old).sectors
        device (D.moments disk.old) (D.moments disk.new)) }
    ensures blocks { IfOk result (λ device. MakesOfSameBlocks image.maker.key (D.identity disk.old).sectors
        (D.moments disk.old) (D.moments disk.new)) }
    ensures ready { IfOk result (λ device. IsReady device.parts device.regions
        (D.identity disk.new) (D.moments disk.new)) }
    ensures requests { IfOk result (λ device. device.parts.slots ≡ no_requests device.parts.tags.geometry.blocks
        (512 * device.parts.tags.geometry.shape.spb)) }

    ensures cause { HasCause (D.faults disk.old) (D.faults disk.new) result }

    ensures identity { D.identity disk.new ≡ D.identity disk.old }

    ensures leaves { LeavesMade (judged_format (D.identity disk.old).sectors image)
        (D.moments disk.old) (D.moments disk.new) }
{
    let ChangeRoom { recovery, regions } = room;
    let RecoveryRoom {
        device,
        mut pool,
        recalculation,
    } = recovery;
    let DeviceRoom {
        cache,
        slots,
        buffer,
    } = device;
    let format = image.format;
    let recovered = recover_whole(disk, image, cache, &mut pool, recalculation)?;
    let after = change_to_bitmap(disk, &format, pool.bytes_mut())?;
    let parts = Parts {
        tags: recovered.tags.under(after.geometry),
        maker: recovered.maker,
        slots,
        spb: format.geometry.shape().spb,
        buffer,
    };
    Ok(BitmapParts { parts, regions })
}

/// Syncs a disk whose image was judged, recovers that, empties its journal, and recalculates each region that awaits.
/// The cache holds nothing, and the run, of the journal's size, is scratch memory. The tags that were made are written
/// back, and not synced.
///
/// # Errors
///
/// - `Failed`: the disk failed. Every image has the cells of the image at the entry.
fn recover_whole<D: Disk>(
    disk: &mut D,
    image: JudgedImage,
    cache: Cache,
    pool: &mut Run<'_>,
    recalculation: Recalculation,
) -> Result<RecoveredImage, Failed>
    requires bound { IsBound (D.identity disk.old).name }
    requires judged { HasJudged (D.identity disk.old).sectors image (D.moments disk.old) }
    requires cache { (slots : ℕ) × (sectors_of cache ≡ no_sectors slots) }
    requires pool { length pool.old.bytes ≡ 512 * journal_sectors image.format.geometry }
    requires recalculation { IsRecalculationFor image.format.fields image.format.geometry recalculation }

    ensures emptied { IfOk result (HasEmptiedOn (judged_format (D.identity disk.old).sectors image)
        (D.moments disk.old) (D.moments disk.new)) }
    ensures made { IfOk result (λ recovered. IsWrittenBack image recovered (D.identity disk.new)
        (D.moments disk.new)) }
    ensures written { IfOk result (λ recovered. HasNow (λ start.
        HasNow (IsOfOpening image.format.geometry start) (D.moments disk.new)) (D.moments disk.old)) }

    ensures cause { HasCause (D.faults disk.old) (D.faults disk.new) result }

    ensures pool { length pool.new.bytes ≡ length pool.old.bytes }
    ensures identity { D.identity disk.new ≡ D.identity disk.old }

    ensures leaves { LeavesImage (judged_format (D.identity disk.old).sectors image)
        (D.moments disk.old) (D.moments disk.new) }
{
    let Recalculation { mut awaiting, .. } = recalculation;
    let mut recovered = recover_emptied(disk, image, cache, pool)?;
    recalculate_all(disk, &mut recovered.tags, &recovered.maker, &mut awaiting)?;
    Ok(recovered)
}
