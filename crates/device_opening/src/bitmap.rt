//! Opening in bitmap mode: the image is judged, all memory is taken, and the disk is synced. A journal becomes a
//! bitmap.
ghost use Rattle.std.specs.Prelude.{◌≡◌, IfOk};
ghost use Rattle.disk_model.specs.Causes.{HasCause};
ghost use Rattle.disk_model.specs.Identity.{IsBound};
ghost use Rattle.device_model.specs.Mode as Model;
ghost use Rattle.hmac_tag.specs.TagMaker.{key_of};
ghost use Rattle.image_refusal.specs.Calls.{HasCallCause};
ghost use Rattle.judging_model.specs.Faults.{fault_of};
ghost use Rattle.device_parts.specs.Device.{HasOpened};
ghost use Rattle.bitmap_device.specs.Device.{in_bitmap};
ghost use Rattle.device_opening.specs.BitmapOpening.{HasJudgedBitmap};
ghost use Rattle.device_opening.specs.Changing.{WritesBitmap};
ghost use Rattle.device_opening.specs.Judged.{HasBitmapFormat};
ghost use Rattle.device_opening.specs.Opening.{IsRoomFor, LeavesOpenable, OnlySyncs, Refuses};

use crate::bitmap_judging::{JudgedBitmap, judge_bitmap};
use crate::changing::open_made;
use crate::room::DeviceRoom;
use crate::syncing::first_sync;
use bitmap_device::BitmapParts;
use device_parts::Parts;
use hmac_tag::Hash;
use image_format::{ImageFormat, read_format};
use image_judging::Consent;
use image_refusal::{CallFault, OpenFault};
use sector_disk::{Disk, Failed};
use sector_pool::Region;
use std::alloc::Global;

/// Opens a device in bitmap mode on a disk. On an image with a bitmap each region whose bit is set awaits the tags of
/// its blocks, and nothing is written. On one with a journal that becomes a bitmap first, of which no bit is set; the
/// region of memory gets the journal's sectors, in place of those that it had.
///
/// 1. The first sector is read and judged.
/// 2. The bitmap is read by one call, with memory for the regions; or the journal is read in runs and judged, with
///    memory for what is kept of it. Consent is judged.
/// 3. Memory is taken for tags and for requests, and for a change for the journal's sectors and for the regions.
/// 4. The disk is synced, so that nothing of an earlier run is pending.
/// 5. A journal is recovered and emptied, and each region that awaits is recalculated. Zeros are written in the
///    bitmap's place, and then sector 0 with the flag and with the least regions that fit.
///
/// # Errors
///
/// `Memory` and `Disk` come whenever they hold, and of the others the first that holds:
///
/// - `Memory`: there is none for what the device needs. Nothing was done.
/// - `Disk`: the disk failed. Every image has the blocks and the cells of the image at the entry, where that can be
///   opened, by its own first sector.
/// - `Head`: as `read_format` tells it. Nothing was done.
/// - `Consent`: some block awaits its tag, there is a key, and consent is withheld. Nothing was done.
/// - `Journal`: the journal is refused, by its scan or for the first entry in the order of the replay. Nothing was
///   done.
pub fn open_bitmap<D: Disk>(
    alloc: Global,
    disk: &mut D,
    hash: Hash,
    consent: Consent,
    pool: &mut Region,
) -> Result<BitmapParts, CallFault<OpenFault>>
    requires bound { IsBound (D.identity disk.old).name }

    ensures opened { IfOk result (λ kept. HasOpened in_bitmap Model.Bitmap (key_of hash) (D.identity disk.old)
        kept (D.moments disk.old) (D.moments disk.new)) }

    ensures refused { Refuses (fault_of (key_of hash) consent (D.identity disk.old).sectors)
        (D.moments disk.old) (D.moments disk.new) result }
    ensures cause { HasCallCause (D.faults disk.old) (D.faults disk.new) result }

    ensures identity { D.identity disk.new ≡ D.identity disk.old }

    ensures left { LeavesOpenable Model.Bitmap (key_of hash) (D.identity disk.old).sectors
        (D.moments disk.old) (D.moments disk.new) }
    ensures writes { WritesBitmap (key_of hash) (D.identity disk.old).sectors
        (D.moments disk.old) (D.moments disk.new) }
{
    let format = read_format(disk)?;
    if format.has_bitmap() {
        open_found(alloc, disk, format, hash, consent)
    } else {
        open_made(alloc, disk, format, hash, consent, pool)
    }
}

/// Opens a device in bitmap mode on a disk, whose first sector tells this format, which has a bitmap.
///
/// # Errors
///
/// `Memory` and `Disk` come whenever they hold:
///
/// - `Memory`: there is none for the regions, or for what the device needs. Nothing was done.
/// - `Disk`: the disk failed. It is synced at most.
/// - `Consent`: a bit is set, there is a key, and consent is withheld. Nothing was done.
fn open_found<D: Disk>(
    alloc: Global,
    disk: &mut D,
    format: ImageFormat,
    hash: Hash,
    consent: Consent,
) -> Result<BitmapParts, CallFault<OpenFault>>
    requires bound { IsBound (D.identity disk.old).name }
    requires found { HasBitmapFormat (D.identity disk.old).sectors format (D.moments disk.old) }

    ensures opened { IfOk result (λ kept. HasOpened in_bitmap Model.Bitmap (key_of hash) (D.identity disk.old)
        kept (D.moments disk.old) (D.moments disk.new)) }

    ensures refused { Refuses (fault_of (key_of hash) consent (D.identity disk.old).sectors)
        (D.moments disk.old) (D.moments disk.new) result }
    ensures cause { HasCallCause (D.faults disk.old) (D.faults disk.new) result }

    ensures identity { D.identity disk.new ≡ D.identity disk.old }

    ensures left { LeavesOpenable Model.Bitmap (key_of hash) (D.identity disk.old).sectors
        (D.moments disk.old) (D.moments disk.new) }
    ensures synced { OnlySyncs (D.moments disk.old) (D.moments disk.new) }
{
    let image = judge_bitmap(alloc, disk, format, hash, consent)?;
    let room = DeviceRoom::new(alloc, image.geometry())?;
    let device = open_judged(disk, image, room)?;
    Ok(device)
}

/// Opens a device in bitmap mode on a disk whose image was judged, with memory that was taken for it.
///
/// # Errors
///
/// - `Failed`: the disk failed at the sync.
fn open_judged<D: Disk>(
    disk: &mut D,
    image: JudgedBitmap,
    room: DeviceRoom,
) -> Result<BitmapParts, Failed>
    requires bound { IsBound (D.identity disk.old).name }
    requires judged { HasJudgedBitmap (D.identity disk.old).sectors image (D.moments disk.old) }
    requires room { IsRoomFor image.format.geometry room }

    ensures opened { IfOk result (λ kept. HasOpened in_bitmap Model.Bitmap image.maker.key (D.identity disk.old)
        kept (D.moments disk.old) (D.moments disk.new)) }

    ensures cause { HasCause (D.faults disk.old) (D.faults disk.new) result }

    ensures identity { D.identity disk.new ≡ D.identity disk.old }

    ensures left { LeavesOpenable Model.Bitmap image.maker.key (D.identity disk.old).sectors
        (D.moments disk.old) (D.moments disk.new) }
    ensures synced { OnlySyncs (D.moments disk.old) (D.moments disk.new) }
{
    let DeviceRoom {
        cache,
        slots,
        buffer,
    } = room;
    let spb = image.format.geometry.shape().spb;
    let tags = first_sync(disk, image.format.geometry, cache)?;
    let parts = Parts {
        tags,
        maker: image.maker,
        slots,
        spb,
        buffer,
    };
    Ok(BitmapParts {
        parts,
        regions: image.regions,
    })
}
