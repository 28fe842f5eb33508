//! The tags of new blocks, in runs of whole sectors.
//!
//! A run goes as far as the tags of an area lie one behind the other. What no new tag takes of its first and its last
//! sector is read before, and written again as it is; no other sector is read.
ghost use Rattle.std.specs.Prelude.{◌≡◌, ◌⊎◌, ◌≤◌, ◌<◌, ◌+◌, ◌-◌, ◌*◌, ◌^◌, ℕ, length, slice_index, IfOk, OnOk};
ghost use Rattle.commit_id.specs.Shape.{IsShape};
ghost use Rattle.disk_model.specs.Causes.{HasCause};
ghost use Rattle.disk_model.specs.Identity.{IsBound};
ghost use Rattle.formatting_model.specs.Blocks.{byte_of_tags};
ghost use Rattle.image_formatting.specs.Tagging.{LiesOn};
ghost use Rattle.image_model.specs.Geometry.{quotient_up, tag_at};
ghost use Rattle.image_model.specs.Sectors.{zero_bytes};
ghost use Rattle.image_model.specs.Superblock.{IsAccepted};
ghost use Rattle.image_resizing.specs.Filled.{FillsBlocks, HasReadAround, IsTagRow, StandsFilling};
ghost use Rattle.image_resizing.specs.Plan.{IsPlan, added};
ghost use Rattle.image_resizing.specs.Room.{tags_at_once, zeros_at_once};

use crate::planning::Plan;
use commit_id::Shape;
use hmac_tag::TagMaker;
use image_formatting::{put_tags, read_behind};
use image_model::SECTOR_SIZE;
use sector_disk::{Disk, Failed};
use superblock::Super;

/// Gives all new blocks the tags of zeros. Nothing is synced.
///
/// # Errors
///
/// - `Failed`: the disk failed. The old blocks are as they were.
pub(crate) fn tag_blocks<D: Disk>(
    disk: &mut D,
    plan: &Plan,
    zeros: &[u8],
    tags: &mut [u8],
) -> Result<(), Failed>
    requires bound { IsBound (D.identity disk.old).name }
    requires plan { IsPlan (D.identity disk.old).sectors plan.now }
    requires zeros { zeros.now ≡ zeros_at_once }
    requires tags { length tags.old ≡ tags_at_once }

    ensures tagged { OnOk result ((written : ℕ) → FillsBlocks (D.identity disk.old).sectors plan.now
        written 0 written (added plan.now) (D.moments disk.old) (D.moments disk.new)) }

    ensures cause { HasCause (D.faults disk.old) (D.faults disk.new) result }

    ensures identity { D.identity disk.new ≡ D.identity disk.old }

    ensures stands { (written : ℕ) → StandsFilling (D.identity disk.old).sectors plan.now written 0
        (D.moments disk.old) (D.moments disk.new) }
{
    let count = plan.added();
    let mut done = 0;
    while done < count {
        done += tag_some(disk, plan, zeros, tags, done)?;
    }
    Ok(())
}

/// Gives their tags to some new blocks behind the first ones, of which `done` have theirs, and tells how many: those of
/// an area that are left, as far as there is room.
///
/// # Errors
///
/// - `Failed`: the disk failed.
fn tag_some<D: Disk>(
    disk: &mut D,
    plan: &Plan,
    zeros: &[u8],
    tags: &mut [u8],
    done: u64,
) -> Result<u64, Failed>
    requires bound { IsBound (D.identity disk.old).name }
    requires plan { IsPlan (D.identity disk.old).sectors plan.now }
    requires zeros { zeros.now ≡ zeros_at_once }
    requires tags { length tags.old ≡ tags_at_once }
    requires done { done < added plan.now }

    ensures count { IfOk result (λ count. (1 ≤ count) × (done + count ≤ added plan.now)) }
    ensures tagged { IfOk result (λ count. (written : ℕ) → FillsBlocks (D.identity disk.old).sectors plan.now
        written done written (done + count) (D.moments disk.old) (D.moments disk.new)) }

    ensures cause { HasCause (D.faults disk.old) (D.faults disk.new) result }

    ensures len { length tags.new ≡ length tags.old }
    ensures identity { D.identity disk.new ≡ D.identity disk.old }

    ensures stands { (written : ℕ) → StandsFilling (D.identity disk.old).sectors plan.now written done
        (D.moments disk.old) (D.moments disk.new) }
{
    let geometry = &plan.grown.geometry;
    let first = plan.present.geometry.blocks() + done;
    let of_area = area_blocks(&plan.grown.fields);
    let begin = geometry.tag_at(first);
    let room = (tags.len() as u64 - begin.byte) / geometry.shape().tag;
    let count = room
        .min(of_area - first % of_area)
        .min(geometry.blocks() - first);
    write_tags(disk, plan, zeros, tags, done, count)?;
    Ok(count)
}

/// How many blocks an area has.
fn area_blocks(fields: &Super) -> u64
    requires { IsAccepted fields.now }

    ensures { result ≡ 2 ^ (fields.now.log2_interleave - fields.now.log2_spb) }
{
    1 << (fields.log2_interleave - fields.log2_spb)
}

/// Writes the tags of `count` new blocks behind the first ones, of which `done` have theirs, by one call of the disk.
/// They lie one behind the other.
///
/// # Errors
///
/// - `Failed`: the disk failed. Any of their sectors may have got its bytes as a candidate.
fn write_tags<D: Disk>(
    disk: &mut D,
    plan: &Plan,
    zeros: &[u8],
    tags: &mut [u8],
    done: u64,
    count: u64,
) -> Result<(), Failed>
    requires bound { IsBound (D.identity disk.old).name }
    requires plan { IsPlan (D.identity disk.old).sectors plan.now }
    requires zeros { zeros.now ≡ zeros_at_once }
    requires row { IsTagRow plan.now.grown.geometry (plan.now.present.geometry.blocks + done) count }
    requires fits { let g = plan.now.grown.geometry in
        (tag_at g (plan.now.present.geometry.blocks + done)).byte + count * g.shape.tag_size ≤ length tags.old }
    requires whole { length tags.old ≡ tags_at_once }

    ensures tagged { OnOk result ((written : ℕ) → FillsBlocks (D.identity disk.old).sectors plan.now
        written done written (done + count) (D.moments disk.old) (D.moments disk.new)) }

    ensures cause { HasCause (D.faults disk.old) (D.faults disk.new) result }

    ensures len { length tags.new ≡ length tags.old }
    ensures identity { D.identity disk.new ≡ D.identity disk.old }

    ensures stands { (written : ℕ) → StandsFilling (D.identity disk.old).sectors plan.now written done
        (D.moments disk.old) (D.moments disk.new) }
{
    let shape = plan.grown.geometry.shape();
    let first = plan.present.geometry.blocks() + done;
    let at = plan.grown.geometry.tag_at(first);
    let from = at.byte as usize;
    let end = from + (count * shape.tag) as usize;
    let run = &mut tags[..end.next_multiple_of(SECTOR_SIZE)];
    read_around(disk, at.sector, from, end, run)?;
    let block = &zeros[..SECTOR_SIZE * shape.spb as usize];
    put_tags_from(&plan.maker, shape, block, first, count, from, run);
    disk.write_run(at.sector, run)
}

/// Reads the first and the last of whole sectors from sector `at` on, as far as they have a byte that is none of those
/// from byte `from` on up to `end`.
///
/// # Errors
///
/// - `Failed`: the disk failed.
fn read_around<D: Disk>(
    disk: &mut D,
    at: u64,
    from: usize,
    end: usize,
    run: &mut [u8],
) -> Result<(), Failed>
    requires bound { IsBound (D.identity disk.old).name }
    requires from { from < 512 }
    requires end { from < end }
    requires run { length run.old ≡ 512 * quotient_up end 512 }
    requires inside { LiesOn at end (D.identity disk.old).sectors }

    ensures around { OnOk result (HasReadAround at from end run.new (D.moments disk.old)) }

    ensures cause { HasCause (D.faults disk.old) (D.faults disk.new) result }

    ensures len { length run.new ≡ length run.old }
    ensures identity { D.identity disk.new ≡ D.identity disk.old }
    ensures kept { D.moments disk.new ≡ D.moments disk.old }
{
    read_behind(disk, at, end, run)?;
    if from == 0 {
        return Ok(());
    }
    disk.read_run(at, &mut run[..SECTOR_SIZE])
}

/// Puts the tags of `count` blocks of zeros, of which `first` is the first, from byte `from` on.
fn put_tags_from(
    maker: &TagMaker,
    shape: Shape,
    zeros: &[u8],
    first: u64,
    count: u64,
    from: usize,
    run: &mut [u8],
)
    requires shape { IsShape shape }
    requires size { maker.now.size ≡ shape.tag }
    requires zeros { zeros.now ≡ zero_bytes (512 * shape.spb) }
    requires blocks { first + count ≤ 2 ^ 48 }
    requires run { from + count * shape.tag ≤ length run.old }

    ensures tags { (p : ℕ) → p < count * shape.tag
        → slice_index run.new (from + p) ≡ byte_of_tags maker.now shape.spb first p }
    ensures rest { (p : ℕ) → p < length run.old → (p < from) ⊎ (from + count * shape.tag ≤ p)
        → slice_index run.new p ≡ slice_index run.old p }
    ensures len { length run.new ≡ length run.old }
{
    put_tags(maker, shape, zeros, first, count, &mut run[from..]);
}
