//! Opening in journal mode: the image is judged, all memory is taken, and the image is recovered. A bitmap becomes a
//! journal.
ghost use Rattle.std.specs.Prelude.{◌≡◌, IfOk};
ghost use Rattle.disk_model.specs.Causes.{HasCause};
ghost use Rattle.disk_model.specs.Identity.{IsBound};
ghost use Rattle.disk_model.specs.Moments.{EachSince};
ghost use Rattle.image_model.specs.SuperblockLaws.{FitsBytes};
ghost use Rattle.device_model.specs.Mode as Model;
ghost use Rattle.hmac_tag.specs.TagMaker.{key_of};
ghost use Rattle.image_refusal.specs.Calls.{HasCallCause};
ghost use Rattle.judging_model.specs.Faults.{fault_of};
ghost use Rattle.mode_change.specs.ToJournal.{journal_format};
ghost use Rattle.device_parts.specs.Device.{HasOpened};
ghost use Rattle.journal_device.specs.Device.{in_journal};
ghost use Rattle.device_opening.specs.BitmapOpening.{HasJudgedBitmap};
ghost use Rattle.device_opening.specs.JournalMaking.{KeepsClosed, LeavesMadeJournal, WritesJournal};
ghost use Rattle.change_model.specs.OpeningWrites.{IsOfMadeJournal};
ghost use Rattle.device_opening.specs.JournalMaking.{bitmap_judged};
ghost use Rattle.device_opening.specs.JournalOpening.{HasEmptyRing, HasOpenOn};
ghost use Rattle.device_opening.specs.Judged.{HasBitmapFormat, HasJournalFormat, HasJudged, judged_format};
ghost use Rattle.device_opening.specs.Opening.{IsRecoveryRoomFor, IsUnasked, KeepsRecovered, LeavesImage};
ghost use Rattle.place_model.specs.RecoveryWrites.{IsOfOpening};
ghost use Rattle.device_opening.specs.Opening.{LeavesOpenable, Refuses};

use crate::bitmap_judging::{JudgedBitmap, judge_bitmap};
use crate::journal_making::make_journal;
use crate::judging::{JudgedImage, judge_found};
use crate::recovering::recover_image;
use crate::room::{DeviceRoom, RecoveryRoom};
use device_parts::Parts;
use hmac_tag::Hash;
use image_format::{ImageFormat, read_format};
use image_judging::Consent;
use image_refusal::{CallFault, OpenFault};
use journal_device::{JournalParts, JournalState};
use journal_mode::{Journal, JournalRoom};
use mode_change::journal_format;
use sector_disk::{Disk, Failed};
use sector_pool::Region;
use std::alloc::Global;

/// Opens a device in journal mode on a disk. All that a journal holds comes to its place, and writing goes on in it; a
/// region awaits the tags of its blocks where one of them is to be recalculated. A bitmap becomes a journal first,
/// which is empty, and then no region awaits. The region of memory gets the journal's sectors, in place of those that
/// it had.
///
/// 1. The first sector is read and judged.
/// 2. The journal is read in runs and judged, with memory for what is kept of it; or the bitmap is read by one call,
///    with memory for the regions. Consent is judged.
/// 3. Memory is taken for tags and for requests, for the regions that await, if any, and for the journal's sectors.
/// 4. The disk is synced, so that nothing of an earlier run is pending.
/// 5. A journal is recovered: where it has entries that count it is read once more, into the region. Nothing is written
///    of one that is at rest, with all its entries in their places. Under a bitmap each region whose bit is set is
///    recalculated, and then it becomes an empty journal, as `change_to_journal` does that.
///
/// # Errors
///
/// `Memory` and `Disk` come whenever they hold, and of the others the first that holds:
///
/// - `Memory`: there is none for what is kept of the journal, or for what the device needs. Nothing was done.
/// - `Disk`: the disk failed. Every image has the blocks and the cells of the image at the entry, where that can be
///   opened, by its own first sector.
/// - `Head`: as `read_format` tells it. Nothing was done.
/// - `Consent`: some block awaits its tag, there is a key, and consent is withheld. Nothing was done.
/// - `Journal`: the journal is refused, by its scan or for the first entry in the order of the replay. Nothing was
///   done.
pub fn open_journal<'p, D: Disk>(
    alloc: Global,
    disk: &mut D,
    hash: Hash,
    consent: Consent,
    pool: &'p mut Region,
) -> Result<JournalParts<'p>, CallFault<OpenFault>>
    requires bound { IsBound (D.identity disk.old).name }

    ensures opened { IfOk result (λ kept. HasOpened in_journal Model.Journal (key_of hash) (D.identity disk.old)
        kept (D.moments disk.old) (D.moments disk.new)) }
    ensures empty { IfOk result HasEmptyRing }

    ensures refused { Refuses (fault_of (key_of hash) consent (D.identity disk.old).sectors)
        (D.moments disk.old) (D.moments disk.new) result }
    ensures cause { HasCallCause (D.faults disk.old) (D.faults disk.new) result }

    ensures identity { D.identity disk.new ≡ D.identity disk.old }

    ensures left { LeavesOpenable Model.Journal (key_of hash) (D.identity disk.old).sectors
        (D.moments disk.old) (D.moments disk.new) }
    ensures writes { WritesJournal (key_of hash) (D.identity disk.old).sectors
        (D.moments disk.old) (D.moments disk.new) }
    // An image with a journal that was closed is not written.
    ensures in_place { KeepsClosed (key_of hash) (D.identity disk.old).sectors
        (D.moments disk.old) (D.moments disk.new) }
{
    let format = read_format(disk)?;
    if format.has_bitmap() {
        open_made(alloc, disk, format, hash, consent, pool)
    } else {
        open_found(alloc, disk, format, hash, consent, pool)
    }
}

/// Opens a device in journal mode on a disk, whose first sector tells this format, which has a journal.
///
/// # Errors
///
/// As `open_journal`, but for the faults of the format.
fn open_found<'p, D: Disk>(
    alloc: Global,
    disk: &mut D,
    format: ImageFormat,
    hash: Hash,
    consent: Consent,
    pool: &'p mut Region,
) -> Result<JournalParts<'p>, CallFault<OpenFault>>
    requires bound { IsBound (D.identity disk.old).name }
    requires found { HasJournalFormat (D.identity disk.old).sectors format (D.moments disk.old) }

    ensures opened { IfOk result (λ kept. HasOpened in_journal Model.Journal (key_of hash) (D.identity disk.old)
        kept (D.moments disk.old) (D.moments disk.new)) }
    ensures empty { IfOk result HasEmptyRing }

    ensures refused { Refuses (fault_of (key_of hash) consent (D.identity disk.old).sectors)
        (D.moments disk.old) (D.moments disk.new) result }
    ensures cause { HasCallCause (D.faults disk.old) (D.faults disk.new) result }

    ensures identity { D.identity disk.new ≡ D.identity disk.old }

    ensures left { LeavesOpenable Model.Journal (key_of hash) (D.identity disk.old).sectors
        (D.moments disk.old) (D.moments disk.new) }
    ensures writes { EachSince (IsOfOpening format.geometry) (D.moments disk.old) (D.moments disk.new) }
    // An image that was closed is not written.
    ensures in_place { KeepsRecovered (λ image. format.geometry) (D.moments disk.old) (D.moments disk.new) }
{
    let image = judge_found(alloc, disk, format, hash, consent)?;
    let journal = JournalRoom::new(alloc, image.geometry())?;
    let room = RecoveryRoom::new(alloc, &image.format, pool)?;
    let device = open_judged(disk, image, journal, room)?;
    Ok(device)
}

/// Opens a device in journal mode on a disk whose image was judged, with memory that was taken for it.
///
/// # Errors
///
/// - `Failed`: the disk failed. Every image has the cells of the image at the entry.
fn open_judged<'p, D: Disk>(
    disk: &mut D,
    image: JudgedImage,
    journal: JournalRoom,
    room: RecoveryRoom<'p>,
) -> Result<JournalParts<'p>, Failed>
    requires bound { IsBound (D.identity disk.old).name }
    requires judged { HasJudged (D.identity disk.old).sectors image (D.moments disk.old) }
    requires room { IsRecoveryRoomFor image.format room }
    requires journal { journal ≡ image.format.geometry }

    ensures opened { IfOk result (λ device. HasOpenOn (judged_format (D.identity disk.old).sectors image)
        device (D.moments disk.old) (D.moments disk.new)) }
    ensures unasked { IfOk result (λ device. IsUnasked device.parts device.state.recalculation
        (D.identity disk.new) (D.moments disk.new)) }
    ensures empty { IfOk result HasEmptyRing }

    ensures cause { HasCause (D.faults disk.old) (D.faults disk.new) result }

    ensures identity { D.identity disk.new ≡ D.identity disk.old }

    ensures leaves { LeavesImage (judged_format (D.identity disk.old).sectors image)
        (D.moments disk.old) (D.moments disk.new) }
    // An image that was closed is not written.
    ensures in_place { KeepsRecovered (λ found. image.format.geometry) (D.moments disk.old) (D.moments disk.new) }
{
    let RecoveryRoom {
        device,
        mut pool,
        recalculation,
    } = room;
    let DeviceRoom {
        cache,
        slots,
        buffer,
    } = device;
    let spb = image.geometry().shape().spb;
    let recovered = recover_image(disk, image, cache, &mut pool)?;
    let parts = Parts {
        tags: recovered.tags,
        maker: recovered.maker,
        slots,
        spb,
        buffer,
    };
    let state = JournalState {
        journal: Journal::new(journal, pool, recovered.at),
        recalculation,
    };
    Ok(JournalParts { parts, state })
}

/// Opens a device in journal mode on a disk, whose first sector tells this format, which has a bitmap.
///
/// # Errors
///
/// `Memory` and `Disk` come whenever they hold:
///
/// - `Memory`: there is none for the regions, or for what the device needs. Nothing was done.
/// - `Disk`: the disk failed. Every image has the blocks and the cells of the image at the entry, where that can be
///   opened, by its own first sector.
/// - `Consent`: a bit is set, there is a key, and consent is withheld. Nothing was done.
fn open_made<'p, D: Disk>(
    alloc: Global,
    disk: &mut D,
    format: ImageFormat,
    hash: Hash,
    consent: Consent,
    pool: &'p mut Region,
) -> Result<JournalParts<'p>, CallFault<OpenFault>>
    requires bound { IsBound (D.identity disk.old).name }
    requires found { HasBitmapFormat (D.identity disk.old).sectors format (D.moments disk.old) }

    ensures opened { IfOk result (λ kept. HasOpened in_journal Model.Journal (key_of hash) (D.identity disk.old)
        kept (D.moments disk.old) (D.moments disk.new)) }
    ensures empty { IfOk result HasEmptyRing }

    ensures refused { Refuses (fault_of (key_of hash) consent (D.identity disk.old).sectors)
        (D.moments disk.old) (D.moments disk.new) result }
    ensures cause { HasCallCause (D.faults disk.old) (D.faults disk.new) result }

    ensures identity { D.identity disk.new ≡ D.identity disk.old }

    ensures left { LeavesOpenable Model.Journal (key_of hash) (D.identity disk.old).sectors
        (D.moments disk.old) (D.moments disk.new) }
    ensures writes { EachSince (IsOfMadeJournal format.fields format.geometry)
        (D.moments disk.old) (D.moments disk.new) }
{
    let image = judge_bitmap(alloc, disk, format, hash, consent)?;
    let after = journal_format(&image.format, disk.sectors());
    let journal = JournalRoom::new(alloc, after.geometry)?;
    let room = RecoveryRoom::new(alloc, &after, pool)?;
    let device = make_device(disk, image, journal, room)?;
    Ok(device)
}

/// Makes a journal of the bitmap of an image that was judged, with memory that was taken for it, and opens a device in
/// journal mode on it.
///
/// # Errors
///
/// - `Failed`: the disk failed. Every image has the blocks and the cells of the image at the entry, by its own first
///   sector.
fn make_device<'p, D: Disk>(
    disk: &mut D,
    image: JudgedBitmap,
    journal: JournalRoom,
    room: RecoveryRoom<'p>,
) -> Result<JournalParts<'p>, Failed>
    requires bound { IsBound (D.identity disk.old).name }
    requires judged { HasJudgedBitmap (D.identity disk.old).sectors image (D.moments disk.old) }
    requires room { IsRecoveryRoomFor (journal_format image.format) room }
    requires fits { FitsBytes image.format.fields }
    requires journal { journal ≡ image.format.geometry }

    ensures opened { IfOk result (λ kept. HasOpened in_journal Model.Journal image.maker.key (D.identity disk.old)
        kept (D.moments disk.old) (D.moments disk.new)) }
    ensures empty { IfOk result HasEmptyRing }

    ensures cause { HasCause (D.faults disk.old) (D.faults disk.new) result }

    ensures identity { D.identity disk.new ≡ D.identity disk.old }

    ensures leaves { LeavesMadeJournal (bitmap_judged (D.identity disk.old).sectors image)
        (D.moments disk.old) (D.moments disk.new) }
{
    let RecoveryRoom {
        device,
        mut pool,
        recalculation,
    } = room;
    let DeviceRoom {
        cache,
        slots,
        buffer,
    } = device;
    let spb = image.geometry().shape().spb;
    let recovered = make_journal(disk, image, cache, &mut pool)?;
    let parts = Parts {
        tags: recovered.tags,
        maker: recovered.maker,
        slots,
        spb,
        buffer,
    };
    let state = JournalState {
        journal: Journal::new(journal, pool, recovered.at),
        recalculation,
    };
    Ok(JournalParts { parts, state })
}
