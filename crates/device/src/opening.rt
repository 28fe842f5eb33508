//! Opening a device in the mode that is asked for.
ghost use Rattle.std.specs.Prelude.{IfErr, IfOk};
ghost use Rattle.disk_model.specs.Identity.{IsBound};
ghost use Rattle.hmac_tag.specs.TagMaker.{key_of};
ghost use Rattle.image_refusal.specs.Calls.{HasCallCause};
ghost use Rattle.device.specs.Opening.{HasNoFault, HasOpenedIn, IsRefused, IsSettledIn, LeavesOpening};

use crate::{DeviceParts, Mode};
use device_opening::{open_bitmap, open_direct, open_journal, open_recovery};
use hmac_tag::Hash;
use image_judging::Consent;
use image_refusal::{CallFault, OpenFault};
use sector_disk::Disk;
use sector_pool::Region;
use std::alloc::Global;

/// The mode that a device is opened in.
#[derive(Clone, Copy, Debug, PartialEq, Eq)]
pub enum OpenMode {
    /// Writes go to their places. What a journal holds comes to its place at the opening, which then empties it, and
    /// makes an empty journal of a bitmap. Whether tags may be made anew that a key protects, as in the next two.
    Direct(Consent),
    /// Writes go to the journal first. Where the image has a bitmap the opening makes an empty journal of it.
    Journal(Consent),
    /// Writes set the bit of their region first, and go to their places then. Where the image has a journal the opening
    /// makes a bitmap of it.
    Bitmap(Consent),
    /// There are no writes, and reads give what stands in the places of their blocks, whatever their tags are.
    Recovery,
}

/// Opens a device on a disk. All memory that it ever takes is taken before the first write, and the region gets the
/// journal's sectors. In each mode but recovery mode the disk is synced. In direct and journal mode an image with a
/// journal is recovered, so that all that the journal holds comes to its place; in direct mode the journal is then
/// emptied, unless every entry of it is unused and it has one commit number. Of one with a bitmap each region whose bit
/// is set is recalculated, and then the bitmap becomes an empty journal. In bitmap mode nothing is written where there
/// is a bitmap; a journal is recovered and emptied, each region that awaits is recalculated, and then it becomes a
/// bitmap of which no bit is set. In recovery mode nothing is written.
///
/// # Errors
///
/// `Memory` and `Disk` come whenever they hold, and of the others the first that holds:
///
/// - `Memory`: there is none for what the device keeps, or for what the journal's sectors bear. Nothing was done.
/// - `Disk`: the disk failed.
/// - `Head`: the first sector is refused. A disk without a sector has no magic. Nothing was done.
/// - `Consent`: a bit of a bitmap is set, or without one some block is to be recalculated, there is a key, and consent
///   is withheld; in recovery mode it is not asked for. Nothing was done.
/// - `Journal`: the journal is refused, which is not read in recovery mode, nor where there is a bitmap. Nothing was
///   done.
pub(crate) fn open<'p, D: Disk>(
    alloc: Global,
    disk: &mut D,
    pool: &'p mut Region,
    hash: Hash,
    mode: OpenMode,
) -> Result<DeviceParts<'p>, CallFault<OpenFault>>
    requires { IsBound (D.identity disk.old).name }

    ensures opened { IfOk result (HasOpenedIn mode (key_of hash) (D.identity disk.old)
        (D.moments disk.old) (D.moments disk.new)) }
    ensures settled { IfOk result (λ parts. IsSettledIn mode (D.moments disk.new)) }
    ensures accepted { IfOk result (λ parts. HasNoFault mode (key_of hash) (D.identity disk.old).sectors
        (D.moments disk.old)) }
    ensures refused { IfErr result (IsRefused mode (key_of hash) (D.identity disk.old)
        (D.moments disk.old) (D.moments disk.new)) }
    ensures cause { HasCallCause (D.faults disk.old) (D.faults disk.new) result }
    ensures leaves { LeavesOpening mode (key_of hash) (D.identity disk.old) (D.identity disk.new)
        (D.moments disk.old) (D.moments disk.new) }
{
    match mode {
        OpenMode::Direct(consent) => open_in_direct(alloc, disk, pool, hash, consent),
        OpenMode::Journal(consent) => open_in_journal(alloc, disk, pool, hash, consent),
        OpenMode::Bitmap(consent) => open_in_bitmap(alloc, disk, pool, hash, consent),
        OpenMode::Recovery => open_in_recovery(alloc, disk, hash),
    }
}

/// Opens a device in direct mode.
///
/// # Errors
///
/// As `open` in that mode.
fn open_in_direct<'p, D: Disk>(
    alloc: Global,
    disk: &mut D,
    pool: &mut Region,
    hash: Hash,
    consent: Consent,
) -> Result<DeviceParts<'p>, CallFault<OpenFault>>
    requires { IsBound (D.identity disk.old).name }

    ensures opened { IfOk result (HasOpenedIn (OpenMode.Direct consent) (key_of hash) (D.identity disk.old)
        (D.moments disk.old) (D.moments disk.new)) }
    ensures settled { IfOk result (λ parts. IsSettledIn (OpenMode.Direct consent) (D.moments disk.new)) }
    ensures accepted { IfOk result (λ parts. HasNoFault (OpenMode.Direct consent) (key_of hash)
        (D.identity disk.old).sectors (D.moments disk.old)) }
    ensures refused { IfErr result (IsRefused (OpenMode.Direct consent) (key_of hash) (D.identity disk.old)
        (D.moments disk.old) (D.moments disk.new)) }
    ensures cause { HasCallCause (D.faults disk.old) (D.faults disk.new) result }
    ensures leaves { LeavesOpening (OpenMode.Direct consent) (key_of hash) (D.identity disk.old) (D.identity disk.new)
        (D.moments disk.old) (D.moments disk.new) }
{
    let opened = open_direct(alloc, disk, hash, consent, pool)?;
    Ok(DeviceParts {
        common: opened.parts,
        mode: Mode::Direct(opened.recalculation),
    })
}

/// Opens a device in journal mode.
///
/// # Errors
///
/// As `open` in that mode.
fn open_in_journal<'p, D: Disk>(
    alloc: Global,
    disk: &mut D,
    pool: &'p mut Region,
    hash: Hash,
    consent: Consent,
) -> Result<DeviceParts<'p>, CallFault<OpenFault>>
    requires { IsBound (D.identity disk.old).name }

    ensures opened { IfOk result (HasOpenedIn (OpenMode.Journal consent) (key_of hash) (D.identity disk.old)
        (D.moments disk.old) (D.moments disk.new)) }
    ensures accepted { IfOk result (λ parts. HasNoFault (OpenMode.Journal consent) (key_of hash)
        (D.identity disk.old).sectors (D.moments disk.old)) }
    ensures refused { IfErr result (IsRefused (OpenMode.Journal consent) (key_of hash) (D.identity disk.old)
        (D.moments disk.old) (D.moments disk.new)) }
    ensures cause { HasCallCause (D.faults disk.old) (D.faults disk.new) result }
    ensures leaves { LeavesOpening (OpenMode.Journal consent) (key_of hash) (D.identity disk.old) (D.identity disk.new)
        (D.moments disk.old) (D.moments disk.new) }
{
    let opened = open_journal(alloc, disk, hash, consent, pool)?;
    Ok(DeviceParts {
        common: opened.parts,
        mode: Mode::Journal(opened.state),
    })
}

/// Opens a device in bitmap mode.
///
/// # Errors
///
/// As `open` in that mode.
fn open_in_bitmap<'p, D: Disk>(
    alloc: Global,
    disk: &mut D,
    pool: &mut Region,
    hash: Hash,
    consent: Consent,
) -> Result<DeviceParts<'p>, CallFault<OpenFault>>
    requires { IsBound (D.identity disk.old).name }

    ensures opened { IfOk result (HasOpenedIn (OpenMode.Bitmap consent) (key_of hash) (D.identity disk.old)
        (D.moments disk.old) (D.moments disk.new)) }
    ensures accepted { IfOk result (λ parts. HasNoFault (OpenMode.Bitmap consent) (key_of hash)
        (D.identity disk.old).sectors (D.moments disk.old)) }
    ensures refused { IfErr result (IsRefused (OpenMode.Bitmap consent) (key_of hash) (D.identity disk.old)
        (D.moments disk.old) (D.moments disk.new)) }
    ensures cause { HasCallCause (D.faults disk.old) (D.faults disk.new) result }
    ensures leaves { LeavesOpening (OpenMode.Bitmap consent) (key_of hash) (D.identity disk.old) (D.identity disk.new)
        (D.moments disk.old) (D.moments disk.new) }
{
    let opened = open_bitmap(alloc, disk, hash, consent, pool)?;
    Ok(DeviceParts {
        common: opened.parts,
        mode: Mode::Bitmap(opened.regions),
    })
}

/// Opens a device in recovery mode.
///
/// # Errors
///
/// As `open` in that mode.
fn open_in_recovery<'p, D: Disk>(
    alloc: Global,
    disk: &mut D,
    hash: Hash,
) -> Result<DeviceParts<'p>, CallFault<OpenFault>>
    requires { IsBound (D.identity disk.old).name }

    ensures opened { IfOk result (HasOpenedIn OpenMode.Recovery (key_of hash) (D.identity disk.old)
        (D.moments disk.old) (D.moments disk.new)) }
    ensures accepted { IfOk result (λ parts. HasNoFault OpenMode.Recovery (key_of hash) (D.identity disk.old).sectors
        (D.moments disk.old)) }
    ensures refused { IfErr result (IsRefused OpenMode.Recovery (key_of hash) (D.identity disk.old)
        (D.moments disk.old) (D.moments disk.new)) }
    ensures cause { HasCallCause (D.faults disk.old) (D.faults disk.new) result }
    ensures leaves { LeavesOpening OpenMode.Recovery (key_of hash) (D.identity disk.old) (D.identity disk.new)
        (D.moments disk.old) (D.moments disk.new) }
{
    let common = open_recovery(alloc, disk, hash)?;
    Ok(DeviceParts {
        common,
        mode: Mode::Recovery,
    })
}
