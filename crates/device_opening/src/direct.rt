//! Opening in direct mode: the image is judged, all memory is taken, and the image is recovered and emptied. A bitmap
//! becomes a journal.
ghost use Rattle.std.specs.Prelude.{◌≡◌, IfOk};
ghost use Rattle.disk_model.specs.Causes.{HasCause};
ghost use Rattle.disk_model.specs.Identity.{IsBound};
ghost use Rattle.disk_model.specs.Moments.{EachSince};
ghost use Rattle.image_model.specs.SuperblockLaws.{FitsBytes};
ghost use Rattle.device_model.specs.Mode as Model;
ghost use Rattle.hmac_tag.specs.TagMaker.{key_of};
ghost use Rattle.image_refusal.specs.Calls.{HasCallCause};
ghost use Rattle.judging_model.specs.Faults.{fault_of};
ghost use Rattle.mode_change.specs.ToJournal.{journal_format};
ghost use Rattle.device_parts.specs.Device.{HasOpened};
ghost use Rattle.direct_device.specs.Device.{in_direct};
ghost use Rattle.device_opening.specs.BitmapOpening.{HasJudgedBitmap};
ghost use Rattle.device_opening.specs.DirectOpening.{HasOpenOn, LeavesEmpty};
ghost use Rattle.place_model.specs.EmptyJournal.{KeepsEmpty};
ghost use Rattle.device_opening.specs.JournalMaking.{LeavesMadeJournal, WritesDirect, bitmap_judged};
ghost use Rattle.change_model.specs.OpeningWrites.{IsOfMadeJournal};
ghost use Rattle.device_opening.specs.Judged.{HasBitmapFormat, HasJournalFormat, HasJudged, judged_format};
ghost use Rattle.device_opening.specs.Opening.{IsRecoveryRoomFor, IsUnasked, LeavesImage};
ghost use Rattle.place_model.specs.RecoveryWrites.{IsOfOpening};
ghost use Rattle.device_opening.specs.Opening.{LeavesOpenable, Refuses};

use crate::bitmap_judging::{JudgedBitmap, judge_bitmap};
use crate::emptying::recover_emptied;
use crate::journal_making::make_journal;
use crate::judging::{JudgedImage, judge_found};
use crate::room::{DeviceRoom, RecoveryRoom};
use device_parts::Parts;
use direct_device::DirectParts;
use hmac_tag::Hash;
use image_format::{ImageFormat, read_format};
use image_judging::Consent;
use image_refusal::{CallFault, OpenFault};
use mode_change::journal_format;
use sector_disk::{Disk, Failed};
use sector_pool::Region;
use std::alloc::Global;

/// Opens a device in direct mode on a disk. All that a journal holds comes to its place, and then the journal is
/// emptied, unless every entry of it is unused and it has one commit number; a region awaits the tags of its blocks
/// where one of them is to be recalculated. A bitmap becomes a journal first, which is empty, and then no region
/// awaits. The region of memory gets the journal's sectors, in place of those that it had: in them the journal is read
/// and emptied.
///
/// 1. The first sector is read and judged.
/// 2. The journal is read in runs and judged, with memory for what is kept of it; or the bitmap is read by one call,
///    with memory for the regions. Consent is judged.
/// 3. Memory is taken for tags and for requests, for the regions that await, if any, and for the journal's sectors.
/// 4. The disk is synced, so that nothing of an earlier run is pending.
/// 5. A journal is recovered, where it has entries that count it is read once more, into the region, and emptied. Under
///    a bitmap each region whose bit is set is recalculated, and then it becomes an empty journal, as
///    `change_to_journal` does that.
///
/// # Errors
///
/// `Memory` and `Disk` come whenever they hold, and of the others the first that holds:
///
/// - `Memory`: there is none for what is kept of the journal, or for what the device needs. Nothing was done.
/// - `Disk`: the disk failed. Every image has the blocks and the cells of the image at the entry, where that can be
///   opened, by its own first sector.
/// - `Head`: as `read_format` tells it. Nothing was done.
/// - `Consent`: some block awaits its tag, there is a key, and consent is withheld. Nothing was done.
/// - `Journal`: the journal is refused, by its scan or for the first entry in the order of the replay. Nothing was
///   done.
pub fn open_direct<D: Disk>(
    alloc: Global,
    disk: &mut D,
    hash: Hash,
    consent: Consent,
    pool: &mut Region,
) -> Result<DirectParts, CallFault<OpenFault>>
    requires bound { IsBound (D.identity disk.old).name }

    ensures opened { IfOk result (λ kept. HasOpened in_direct Model.Direct (key_of hash) (D.identity disk.old)
        kept (D.moments disk.old) (D.moments disk.new)) }
    ensures empty { IfOk result (λ kept. LeavesEmpty (key_of hash) (D.identity disk.old).sectors
        (D.moments disk.old) (D.moments disk.new)) }

    ensures refused { Refuses (fault_of (key_of hash) consent (D.identity disk.old).sectors)
        (D.moments disk.old) (D.moments disk.new) result }
    ensures cause { HasCallCause (D.faults disk.old) (D.faults disk.new) result }

    ensures identity { D.identity disk.new ≡ D.identity disk.old }

    ensures left { LeavesOpenable Model.Direct (key_of hash) (D.identity disk.old).sectors
        (D.moments disk.old) (D.moments disk.new) }
    ensures writes { WritesDirect (key_of hash) (D.identity disk.old).sectors
        (D.moments disk.old) (D.moments disk.new) }
{
    let format = read_format(disk)?;
    if format.has_bitmap() {
        open_made(alloc, disk, format, hash, consent, pool)
    } else {
        open_found(alloc, disk, format, hash, consent, pool)
    }
}

/// Opens a device in direct mode on a disk, whose first sector tells this format, which has a journal.
///
/// # Errors
///
/// As `open_direct`, but for the faults of the format.
fn open_found<D: Disk>(
    alloc: Global,
    disk: &mut D,
    format: ImageFormat,
    hash: Hash,
    consent: Consent,
    pool: &mut Region,
) -> Result<DirectParts, CallFault<OpenFault>>
    requires bound { IsBound (D.identity disk.old).name }
    requires found { HasJournalFormat (D.identity disk.old).sectors format (D.moments disk.old) }

    ensures opened { IfOk result (λ kept. HasOpened in_direct Model.Direct (key_of hash) (D.identity disk.old)
        kept (D.moments disk.old) (D.moments disk.new)) }
    ensures empty { IfOk result (λ kept. LeavesEmpty (key_of hash) (D.identity disk.old).sectors
        (D.moments disk.old) (D.moments disk.new)) }

    ensures refused { Refuses (fault_of (key_of hash) consent (D.identity disk.old).sectors)
        (D.moments disk.old) (D.moments disk.new) result }
    ensures cause { HasCallCause (D.faults disk.old) (D.faults disk.new) result }

    ensures identity { D.identity disk.new ≡ D.identity disk.old }

    ensures left { LeavesOpenable Model.Direct (key_of hash) (D.identity disk.old).sectors
        (D.moments disk.old) (D.moments disk.new) }
    ensures writes { EachSince (IsOfOpening format.geometry) (D.moments disk.old) (D.moments disk.new) }
    ensures keeps { EachSince (KeepsEmpty format.geometry) (D.moments disk.old) (D.moments disk.new) }
{
    let image = judge_found(alloc, disk, format, hash, consent)?;
    let room = RecoveryRoom::new(alloc, &image.format, pool)?;
    let device = open_judged(disk, image, room)?;
    Ok(device)
}

/// Opens a device in direct mode on a disk whose image was judged, with memory that was taken for it.
///
/// # Errors
///
/// - `Failed`: the disk failed. Every image has the cells of the image at the entry.
fn open_judged<D: Disk>(
    disk: &mut D,
    image: JudgedImage,
    room: RecoveryRoom<'_>,
) -> Result<DirectParts, Failed>
    requires bound { IsBound (D.identity disk.old).name }
    requires judged { HasJudged (D.identity disk.old).sectors image (D.moments disk.old) }
    requires room { IsRecoveryRoomFor image.format room }

    ensures opened { IfOk result (λ device. HasOpenOn (judged_format (D.identity disk.old).sectors image)
        device (D.moments disk.old) (D.moments disk.new)) }
    ensures unasked { IfOk result (λ device. IsUnasked device.parts device.recalculation
        (D.identity disk.new) (D.moments disk.new)) }

    ensures cause { HasCause (D.faults disk.old) (D.faults disk.new) result }

    ensures identity { D.identity disk.new ≡ D.identity disk.old }

    ensures leaves { LeavesImage (judged_format (D.identity disk.old).sectors image)
        (D.moments disk.old) (D.moments disk.new) }
    ensures keeps { EachSince (KeepsEmpty image.format.geometry) (D.moments disk.old) (D.moments disk.new) }
{
    let RecoveryRoom {
        device,
        mut pool,
        recalculation,
    } = room;
    let DeviceRoom {
        cache,
        slots,
        buffer,
    } = device;
    let spb = image.geometry().shape().spb;
    let recovered = recover_emptied(disk, image, cache, &mut pool)?;
    let parts = Parts {
        tags: recovered.tags,
        maker: recovered.maker,
        slots,
        spb,
        buffer,
    };
    Ok(DirectParts {
        parts,
        recalculation,
    })
}

/// Opens a device in direct mode on a disk, whose first sector tells this format, which has a bitmap.
///
/// # Errors
///
/// `Memory` and `Disk` come whenever they hold:
///
/// - `Memory`: there is none for the regions, or for what the device needs. Nothing was done.
/// - `Disk`: the disk failed. Every image has the blocks and the cells of the image at the entry, where that can be
///   opened, by its own first sector.
/// - `Consent`: a bit is set, there is a key, and consent is withheld. Nothing was done.
fn open_made<D: Disk>(
    alloc: Global,
    disk: &mut D,
    format: ImageFormat,
    hash: Hash,
    consent: Consent,
    pool: &mut Region,
) -> Result<DirectParts, CallFault<OpenFault>>
    requires bound { IsBound (D.identity disk.old).name }
    requires found { HasBitmapFormat (D.identity disk.old).sectors format (D.moments disk.old) }

    ensures opened { IfOk result (λ kept. HasOpened in_direct Model.Direct (key_of hash) (D.identity disk.old)
        kept (D.moments disk.old) (D.moments disk.new)) }
    ensures empty { IfOk result (λ kept. LeavesEmpty (key_of hash) (D.identity disk.old).sectors
        (D.moments disk.old) (D.moments disk.new)) }

    ensures refused { Refuses (fault_of (key_of hash) consent (D.identity disk.old).sectors)
        (D.moments disk.old) (D.moments disk.new) result }
    ensures cause { HasCallCause (D.faults disk.old) (D.faults disk.new) result }

    ensures identity { D.identity disk.new ≡ D.identity disk.old }

    ensures left { LeavesOpenable Model.Direct (key_of hash) (D.identity disk.old).sectors
        (D.moments disk.old) (D.moments disk.new) }
    ensures writes { EachSince (IsOfMadeJournal format.fields format.geometry)
        (D.moments disk.old) (D.moments disk.new) }
{
    let image = judge_bitmap(alloc, disk, format, hash, consent)?;
    let after = journal_format(&image.format, disk.sectors());
    let room = RecoveryRoom::new(alloc, &after, pool)?;
    let device = make_device(disk, image, room)?;
    Ok(device)
}

/// Makes a journal of the bitmap of an image that was judged, with memory that was taken for it, and opens a device in
/// direct mode on it.
///
/// # Errors
///
/// - `Failed`: the disk failed. Every image has the blocks and the cells of the image at the entry, by its own first
///   sector.
fn make_device<D: Disk>(
    disk: &mut D,
    image: JudgedBitmap,
    room: RecoveryRoom<'_>,
) -> Result<DirectParts, Failed>
    requires bound { IsBound (D.identity disk.old).name }
    requires judged { HasJudgedBitmap (D.identity disk.old).sectors image (D.moments disk.old) }
    requires room { IsRecoveryRoomFor (journal_format image.format) room }
    requires fits { FitsBytes image.format.fields }

    ensures opened { IfOk result (λ kept. HasOpened in_direct Model.Direct image.maker.key (D.identity disk.old)
        kept (D.moments disk.old) (D.moments disk.new)) }
    ensures empty { IfOk result (λ kept. LeavesEmpty image.maker.key (D.identity disk.old).sectors
        (D.moments disk.old) (D.moments disk.new)) }

    ensures cause { HasCause (D.faults disk.old) (D.faults disk.new) result }

    ensures identity { D.identity disk.new ≡ D.identity disk.old }

    ensures leaves { LeavesMadeJournal (bitmap_judged (D.identity disk.old).sectors image)
        (D.moments disk.old) (D.moments disk.new) }
{
    let RecoveryRoom {
        device,
        mut pool,
        recalculation,
    } = room;
    let DeviceRoom {
        cache,
        slots,
        buffer,
    } = device;
    let spb = image.geometry().shape().spb;
    let recovered = make_journal(disk, image, cache, &mut pool)?;
    let parts = Parts {
        tags: recovered.tags,
        maker: recovered.maker,
        slots,
        spb,
        buffer,
    };
    Ok(DirectParts {
        parts,
        recalculation,
    })
}
