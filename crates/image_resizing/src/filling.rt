//! Zeros in the new blocks, in the order of the blocks.
//!
//! They are written in runs, as far as the data of blocks lie one behind the other. Then come the tags (`tagging.rt`).
ghost use Rattle.std.specs.Prelude.{◌≡◌, ◌≤◌, ◌<◌, ◌+◌, ◌*◌, IfOk, OnOk};
ghost use Rattle.disk_model.specs.Causes.{HasCause};
ghost use Rattle.disk_model.specs.Identity.{IsBound};
ghost use Rattle.image_resizing.specs.Filled.{FillsBlocks, IsRow, StandsFilling};
ghost use Rattle.image_resizing.specs.Plan.{IsPlan, added};
ghost use Rattle.image_resizing.specs.Room.{zeros_at_once};

use crate::planning::Plan;
use crate::room::RUN_SECTORS;
use image_model::SECTOR_SIZE;
use layout::Geometry;
use sector_disk::{Disk, Failed};

/// Gives zeros to all new blocks, of which none has its tag yet. Nothing is synced.
///
/// # Errors
///
/// - `Failed`: the disk failed. The old blocks are as they were.
pub(crate) fn fill_blocks<D: Disk>(disk: &mut D, plan: &Plan, zeros: &[u8]) -> Result<(), Failed>
    requires bound { IsBound (D.identity disk.old).name }
    requires plan { IsPlan (D.identity disk.old).sectors plan.now }
    requires zeros { zeros.now ≡ zeros_at_once }

    ensures filled { OnOk result (FillsBlocks (D.identity disk.old).sectors plan.now 0 0 (added plan.now) 0
        (D.moments disk.old) (D.moments disk.new)) }

    ensures cause { HasCause (D.faults disk.old) (D.faults disk.new) result }

    ensures identity { D.identity disk.new ≡ D.identity disk.old }

    ensures stands { StandsFilling (D.identity disk.old).sectors plan.now 0 0
        (D.moments disk.old) (D.moments disk.new) }
{
    let count = plan.added();
    let mut done = 0;
    while done < count {
        done += fill_run(disk, plan, zeros, done)?;
    }
    Ok(())
}

/// Gives zeros to some new blocks behind the first ones, of which `done` have theirs, and tells how many.
///
/// # Errors
///
/// - `Failed`: the disk failed.
fn fill_run<D: Disk>(disk: &mut D, plan: &Plan, zeros: &[u8], done: u64) -> Result<u64, Failed>
    requires bound { IsBound (D.identity disk.old).name }
    requires plan { IsPlan (D.identity disk.old).sectors plan.now }
    requires zeros { zeros.now ≡ zeros_at_once }
    requires done { done < added plan.now }

    ensures count { IfOk result (λ count. (1 ≤ count) × (done + count ≤ added plan.now)) }
    ensures filled { IfOk result (λ count. FillsBlocks (D.identity disk.old).sectors
        plan.now done 0 (done + count) 0 (D.moments disk.old) (D.moments disk.new)) }

    ensures cause { HasCause (D.faults disk.old) (D.faults disk.new) result }

    ensures identity { D.identity disk.new ≡ D.identity disk.old }

    ensures stands { StandsFilling (D.identity disk.old).sectors plan.now done 0
        (D.moments disk.old) (D.moments disk.new) }
{
    let first = plan.present.geometry.blocks() + done;
    let most = RUN_SECTORS / plan.grown.geometry.shape().spb;
    let count = row_from(&plan.grown.geometry, first, most);
    write_zeros(disk, plan, zeros, done, count)?;
    Ok(count)
}

/// How many blocks from `first` on, at most so many, have their data one behind the other.
fn row_from(geometry: &Geometry, first: u64, most: u64) -> u64
    requires first { first < geometry.now.blocks }
    requires most { 1 ≤ most }

    ensures row { IsRow geometry.now first result }
    ensures some { 1 ≤ result }
    ensures most { result ≤ most }
{
    let spb = geometry.shape().spb;
    let at = geometry.data_at(first);
    let room = most.min(geometry.blocks() - first);
    let last = room - 1;
    // Data lie in the order of the blocks, so the last block tells of all. An area seldom ends among them.
    let is_row = geometry.data_at(first + last) == at + last * spb;
    let mut count = if is_row { room } else { 1 };
    while count < room && geometry.data_at(first + count) == at + count * spb {
        count += 1;
    }
    count
}

/// Writes zeros to `count` new blocks behind the first ones, by one call of the disk. They lie one behind the other.
///
/// # Errors
///
/// - `Failed`: the disk failed. Any of their sectors may have got zeros as a candidate.
fn write_zeros<D: Disk>(
    disk: &mut D,
    plan: &Plan,
    zeros: &[u8],
    done: u64,
    count: u64,
) -> Result<(), Failed>
    requires bound { IsBound (D.identity disk.old).name }
    requires plan { IsPlan (D.identity disk.old).sectors plan.now }
    requires zeros { zeros.now ≡ zeros_at_once }
    requires some { 1 ≤ count }
    requires most { count * plan.now.grown.geometry.shape.spb ≤ 512 }
    requires row { IsRow plan.now.grown.geometry (plan.now.present.geometry.blocks + done) count }

    ensures filled { OnOk result (FillsBlocks (D.identity disk.old).sectors plan.now done 0 (done + count) 0
        (D.moments disk.old) (D.moments disk.new)) }

    ensures cause { HasCause (D.faults disk.old) (D.faults disk.new) result }

    ensures identity { D.identity disk.new ≡ D.identity disk.old }

    ensures stands { StandsFilling (D.identity disk.old).sectors plan.now done 0
        (D.moments disk.old) (D.moments disk.new) }
{
    let geometry = &plan.grown.geometry;
    let first = plan.present.geometry.blocks() + done;
    let size = SECTOR_SIZE * (count * geometry.shape().spb) as usize;
    disk.write_run(geometry.data_at(first), &zeros[..size])
}
