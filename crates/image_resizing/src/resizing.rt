//! Resizing, as it is asked for.
ghost use Rattle.std.specs.Prelude.{◌≡◌, ◌≢◌, false, true, Err, IfOk, IsErr, OnOk};
ghost use Rattle.disk_model.specs.Causes.{HasCause};
ghost use Rattle.disk_model.specs.Identity.{IsBound};
ghost use Rattle.hmac_tag.specs.TagMaker.{key_of};
ghost use Rattle.image_model.specs.declared.flags.TheConstants.{DIRTY_BITMAP as BITMAP};
ghost use Rattle.image_model.specs.Superblock.{has_flag};
ghost use Rattle.image_refusal.specs.Calls.{HasCallCause};
ghost use Rattle.resize_model.specs.Left.{KeepsRefused};
ghost use Rattle.image_resizing.specs.Call.{LeavesResized, MovesInOrder, TellsProvided, TellsRefusal, WritesInOrder};
ghost use Rattle.image_resizing.specs.Plan.{IsPlan};
ghost use Rattle.image_resizing.specs.Room.{HasGrowthRoom, HasRecoveryRoom};
ghost use Rattle.image_resizing.specs.Settled.{IsPlanned, KeepsJournal, KnowsJournal, OpensPlanned, ResizesImage};
ghost use Rattle.image_resizing.specs.Settled.{ResizesNow, ResizesOpenable, TellsJournal};
ghost use Rattle.image_resizing.specs.Writing.{WritesOpenable, WritesResize};

use crate::growing::grow_settled;
use crate::planning::{Plan, plan_resize};
use crate::recovering::recover_image;
use crate::room::{GrowthRoom, RecoveryRoom};
use hmac_tag::Hash;
use image_model::DIRTY_BITMAP;
use image_refusal::{CallFault, ResizeFault};
use journal_reading::{JudgedJournal, judge_journal};
use sector_disk::{Disk, Failed};
use std::alloc::Global;

/// Makes an image use all sectors of its disk, and answers how many it provided and how many it provides. The new
/// blocks are zeros with their tags. It never provides fewer than it did.
///
/// 1. The first sector is read and judged, with what it is to tell; without a bitmap the journal is read and judged.
/// 2. All memory is taken, and the disk is synced.
/// 3. Without a bitmap the image is recovered.
/// 4. Where it provides more, the new blocks and the clear bits of new regions are written, and synced.
/// 5. Then the first sector is written, and synced. But for the provided sectors all its fields stay.
///
/// Source: Linux, `drivers/md/dm-integrity.c`, `dm_integrity_ctr`, where the device has grown. Own: the new blocks are
/// written before the first sector.
///
/// # Errors
///
/// `Memory` and `Disk` come whenever they hold, and of the others the first that holds:
///
/// - `Memory`: there is none for what is kept of the journal, or for what is written at once. Nothing was done.
/// - `Disk`: the disk failed. From its first sync on each image can be opened, as it was or resized.
/// - `Head`: the first sector is refused. Nothing was done.
/// - `Growth`: the journal has no room for the bitmap of all that the disk can provide. Nothing was done.
/// - `Journal`: there is no bitmap, and the journal is refused, by its scan or for the first entry in the order of the
///   replay. Nothing was done.
pub fn resize<D: Disk>(
    alloc: Global,
    disk: &mut D,
    hash: Hash,
) -> Result<(u64, u64), CallFault<ResizeFault>>
    requires { IsBound (D.identity disk.old).name }

    ensures told { IfOk result (TellsProvided (key_of hash) (D.identity disk.old).sectors (D.moments disk.old)) }
    ensures resized { OnOk result (LeavesResized (key_of hash) (D.identity disk.old).sectors
        (D.moments disk.old) (D.moments disk.new)) }

    ensures refused { TellsRefusal (key_of hash) (D.identity disk.old).sectors (D.moments disk.old) result }
    ensures untouched { IsErr result → result ≢ Err CallFault.Disk → D.moments disk.new ≡ D.moments disk.old }
    // An image that is refused is synced at most, also where the disk fails.
    ensures judged { KeepsRefused (key_of hash) (D.identity disk.old).sectors
        (D.moments disk.old) (D.moments disk.new) }
    ensures cause { HasCallCause (D.faults disk.old) (D.faults disk.new) result }

    ensures identity { D.identity disk.new ≡ D.identity disk.old }

    // From the first sync on each image can be opened, as it was or resized.
    ensures moments { MovesInOrder (key_of hash) (D.identity disk.old).sectors
        (D.moments disk.old) (D.moments disk.new) }
    // Nothing is written but by the recovery, for the new blocks, and last the first sector, which keeps what lies
    // behind its fields.
    ensures writes { WritesInOrder (key_of hash) (D.identity disk.old).sectors
        (D.moments disk.old) (D.moments disk.new) }
{
    let plan = plan_resize(disk, hash)?;
    resize_planned(alloc, disk, &plan)?;
    Ok((plan.present.fields.provided, plan.grown.fields.provided))
}

/// Resizes an image by its plan.
///
/// # Errors
///
/// - `Memory`, `Disk`, `Journal`: as `resize` tells them.
fn resize_planned<D: Disk>(
    alloc: Global,
    disk: &mut D,
    plan: &Plan,
) -> Result<(), CallFault<ResizeFault>>
    requires bound { IsBound (D.identity disk.old).name }
    requires plan { IsPlan (D.identity disk.old).sectors plan.now }
    requires reads { IsPlanned (D.identity disk.old).sectors plan.now (D.moments disk.old) }

    ensures resized { OnOk result (ResizesImage (D.identity disk.old).sectors plan.now
        (D.moments disk.old) (D.moments disk.new)) }

    ensures refused { TellsJournal plan.now (D.moments disk.old) result }
    ensures untouched { IsErr result → result ≢ Err CallFault.Disk → D.moments disk.new ≡ D.moments disk.old }
    ensures judged { KeepsJournal plan.now (D.moments disk.old) (D.moments disk.new) }
    ensures cause { HasCallCause (D.faults disk.old) (D.faults disk.new) result }

    ensures identity { D.identity disk.new ≡ D.identity disk.old }

    ensures moments { ResizesOpenable (D.identity disk.old).sectors plan.now (D.moments disk.old) (D.moments disk.new) }
    ensures writes { WritesOpenable (D.identity disk.old).sectors plan.now (D.moments disk.old) (D.moments disk.new) }
{
    if plan.present.fields.flags & DIRTY_BITMAP == 0 {
        resize_recovered(alloc, disk, plan)
    } else {
        resize_synced(alloc, disk, plan)
    }
}

/// Resizes an image without a bitmap.
///
/// # Errors
///
/// - `Memory`, `Disk`, `Journal`: as `resize` tells them.
fn resize_recovered<D: Disk>(
    alloc: Global,
    disk: &mut D,
    plan: &Plan,
) -> Result<(), CallFault<ResizeFault>>
    requires bound { IsBound (D.identity disk.old).name }
    requires plan { IsPlan (D.identity disk.old).sectors plan.now }
    requires reads { IsPlanned (D.identity disk.old).sectors plan.now (D.moments disk.old) }
    requires no_bitmap { has_flag BITMAP plan.now.present.fields.flags ≡ false }

    ensures resized { OnOk result (ResizesImage (D.identity disk.old).sectors plan.now
        (D.moments disk.old) (D.moments disk.new)) }

    ensures refused { TellsJournal plan.now (D.moments disk.old) result }
    ensures untouched { IsErr result → result ≢ Err CallFault.Disk → D.moments disk.new ≡ D.moments disk.old }
    ensures judged { KeepsJournal plan.now (D.moments disk.old) (D.moments disk.new) }
    ensures cause { HasCallCause (D.faults disk.old) (D.faults disk.new) result }

    ensures identity { D.identity disk.new ≡ D.identity disk.old }

    ensures moments { ResizesOpenable (D.identity disk.old).sectors plan.now (D.moments disk.old) (D.moments disk.new) }
    ensures writes { WritesOpenable (D.identity disk.old).sectors plan.now (D.moments disk.old) (D.moments disk.new) }
{
    let journal = judge_journal(alloc, disk, &plan.present.geometry, &plan.maker)?;
    let recovery = RecoveryRoom::new(alloc, plan.present.geometry)?;
    let growth = GrowthRoom::new(alloc)?;
    recover_and_grow(disk, plan, &journal, recovery, growth)?;
    Ok(())
}

/// Recovers and grows it, with memory that was taken for that.
///
/// # Errors
///
/// - `Failed`: the disk failed.
fn recover_and_grow<D: Disk>(
    disk: &mut D,
    plan: &Plan,
    journal: &JudgedJournal,
    recovery: RecoveryRoom,
    growth: GrowthRoom,
) -> Result<(), Failed>
    requires bound { IsBound (D.identity disk.old).name }
    requires plan { IsPlan (D.identity disk.old).sectors plan.now }
    requires opens { OpensPlanned (D.identity disk.old).sectors plan.now (D.moments disk.old) }
    requires no_bitmap { has_flag BITMAP plan.now.present.fields.flags ≡ false }
    requires journal { KnowsJournal plan.now journal.now (D.moments disk.old) }
    requires recovery { HasRecoveryRoom plan.now.present.geometry recovery }
    requires growth { HasGrowthRoom growth }

    ensures resized { OnOk result (ResizesImage (D.identity disk.old).sectors plan.now
        (D.moments disk.old) (D.moments disk.new)) }

    ensures cause { HasCause (D.faults disk.old) (D.faults disk.new) result }

    ensures identity { D.identity disk.new ≡ D.identity disk.old }

    ensures moments { ResizesNow (D.identity disk.old).sectors plan.now (D.moments disk.old) (D.moments disk.new) }
    ensures writes { WritesResize (D.identity disk.old).sectors plan.now (D.moments disk.old) (D.moments disk.new) }
{
    recover_image(disk, plan, journal, recovery)?;
    grow_settled(disk, plan, growth)
}

/// Resizes an image with a bitmap.
///
/// # Errors
///
/// - `Memory`, `Disk`: as `resize` tells them.
fn resize_synced<D: Disk>(
    alloc: Global,
    disk: &mut D,
    plan: &Plan,
) -> Result<(), CallFault<ResizeFault>>
    requires bound { IsBound (D.identity disk.old).name }
    requires plan { IsPlan (D.identity disk.old).sectors plan.now }
    requires reads { IsPlanned (D.identity disk.old).sectors plan.now (D.moments disk.old) }
    requires bitmap { has_flag BITMAP plan.now.present.fields.flags ≡ true }

    ensures resized { OnOk result (ResizesImage (D.identity disk.old).sectors plan.now
        (D.moments disk.old) (D.moments disk.new)) }

    ensures refused { TellsJournal plan.now (D.moments disk.old) result }
    ensures untouched { IsErr result → result ≢ Err CallFault.Disk → D.moments disk.new ≡ D.moments disk.old }
    ensures judged { KeepsJournal plan.now (D.moments disk.old) (D.moments disk.new) }
    ensures cause { HasCallCause (D.faults disk.old) (D.faults disk.new) result }

    ensures identity { D.identity disk.new ≡ D.identity disk.old }

    ensures moments { ResizesOpenable (D.identity disk.old).sectors plan.now (D.moments disk.old) (D.moments disk.new) }
    ensures writes { WritesOpenable (D.identity disk.old).sectors plan.now (D.moments disk.old) (D.moments disk.new) }
{
    let growth = GrowthRoom::new(alloc)?;
    sync_and_grow(disk, plan, growth)?;
    Ok(())
}

/// Syncs and grows it, with memory that was taken for that.
///
/// # Errors
///
/// - `Failed`: the disk failed.
fn sync_and_grow<D: Disk>(disk: &mut D, plan: &Plan, growth: GrowthRoom) -> Result<(), Failed>
    requires bound { IsBound (D.identity disk.old).name }
    requires plan { IsPlan (D.identity disk.old).sectors plan.now }
    requires opens { OpensPlanned (D.identity disk.old).sectors plan.now (D.moments disk.old) }
    requires bitmap { has_flag BITMAP plan.now.present.fields.flags ≡ true }
    requires growth { HasGrowthRoom growth }

    ensures resized { OnOk result (ResizesImage (D.identity disk.old).sectors plan.now
        (D.moments disk.old) (D.moments disk.new)) }

    ensures cause { HasCause (D.faults disk.old) (D.faults disk.new) result }

    ensures identity { D.identity disk.new ≡ D.identity disk.old }

    ensures moments { ResizesNow (D.identity disk.old).sectors plan.now (D.moments disk.old) (D.moments disk.new) }
    ensures writes { WritesResize (D.identity disk.old).sectors plan.now (D.moments disk.old) (D.moments disk.new) }
{
    disk.sync()?;
    grow_settled(disk, plan, growth)
}
