//! The tags of blocks of zeros, in whole sectors.
ghost use Rattle.std.specs.Prelude.{◌≡◌, ◌+◌, ◌*◌, ◌/◌, ◌<◌, ◌≤◌, ◌^◌, ℕ, length, slice_index, OnOk};
ghost use Rattle.commit_id.specs.Shape.{IsShape};
ghost use Rattle.disk_model.specs.Causes.{HasCause};
ghost use Rattle.disk_model.specs.Disk.{last_image};
ghost use Rattle.disk_model.specs.Identity.{IsBound};
ghost use Rattle.disk_model.specs.Moments.{EachSince, HasNow};
ghost use Rattle.image_model.specs.Geometry.{quotient_up};
ghost use Rattle.image_model.specs.Sectors.{zero_bytes};
ghost use Rattle.image_model.specs.Entries.{IsWithin};
ghost use Rattle.formatting_model.specs.Blocks.{HasTagRun, HoldsTags};
ghost use Rattle.formatting_model.specs.Runs.{ChangesOnly};
ghost use Rattle.formatting_model.specs.Stays.{IsRunByte, ReadsKeep};
ghost use Rattle.formatting_model.specs.Written.{IsOfTagRun, OnlyWrites};
ghost use Rattle.image_formatting.specs.Tagging.{HasReadBehind, LiesOn, MakesTags};

use commit_id::Shape;
use hmac_tag::{Tag, TagMaker};
use image_model::SECTOR_SIZE;
use sector_disk::{Disk, Failed};

/// Writes the tags of `count` blocks of zeros, of which `first` is the first, to the sectors from
/// `at` on. The bytes behind them stay.
///
/// # Errors
///
/// - `Failed`: the disk failed.
pub(crate) fn write_tags<D: Disk>(
    disk: &mut D,
    maker: &TagMaker,
    shape: Shape,
    zeros: &[u8],
    tags: &mut [u8],
    at: u64,
    first: u64,
    count: u64,
) -> Result<(), Failed>
    requires bound { IsBound (D.identity disk.old).name }
    requires makes { MakesTags maker.now shape zeros.now tags.old }
    requires run { LiesOn at (count * shape.tag) (D.identity disk.old).sectors }
    requires blocks { first + count ≤ 2 ^ 48 }

    ensures tags { OnOk result (HasNow (λ c. HasTagRun maker.now shape.spb first count at (last_image c))
        (D.moments disk.new)) }
    ensures stays { OnOk result (ReadsKeep (IsRunByte at (count * shape.tag))
        (D.moments disk.old) (D.moments disk.new)) }

    ensures cause { HasCause (D.faults disk.old) (D.faults disk.new) result }

    ensures identity { D.identity disk.new ≡ D.identity disk.old }

    ensures moments { EachSince (ChangesOnly (IsWithin at (quotient_up (count * shape.tag) 512)))
        (D.moments disk.old) (D.moments disk.new) }
    ensures writes { OnlyWrites (IsOfTagRun at (count * shape.tag)) (D.moments disk.old) (D.moments disk.new) }
{
    let sector_size = SECTOR_SIZE as u64;
    // The tags of 512 blocks end where a sector does.
    let most = sector_size * (sector_size / shape.tag);
    let mut done = 0;
    while done < count {
        let part = most.min(count - done);
        let next = at + done * shape.tag / sector_size;
        write_tag_run(disk, maker, shape, zeros, tags, next, first + done, part)?;
        done += part;
    }
    Ok(())
}

/// Writes so many tags by one call of the disk.
fn write_tag_run<D: Disk>(
    disk: &mut D,
    maker: &TagMaker,
    shape: Shape,
    zeros: &[u8],
    tags: &mut [u8],
    at: u64,
    first: u64,
    count: u64,
) -> Result<(), Failed>
    requires bound { IsBound (D.identity disk.old).name }
    requires makes { MakesTags maker.now shape zeros.now tags.old }
    requires some { 1 ≤ count }
    requires fits { count * shape.tag ≤ length tags.old }
    requires run { LiesOn at (count * shape.tag) (D.identity disk.old).sectors }
    requires blocks { first + count ≤ 2 ^ 48 }

    ensures tags { OnOk result (HasNow (λ c. HasTagRun maker.now shape.spb first count at (last_image c))
        (D.moments disk.new)) }
    ensures stays { OnOk result (ReadsKeep (IsRunByte at (count * shape.tag))
        (D.moments disk.old) (D.moments disk.new)) }

    ensures cause { HasCause (D.faults disk.old) (D.faults disk.new) result }

    ensures identity { D.identity disk.new ≡ D.identity disk.old }

    ensures moments { EachSince (ChangesOnly (IsWithin at (quotient_up (count * shape.tag) 512)))
        (D.moments disk.old) (D.moments disk.new) }
    ensures writes { OnlyWrites (IsOfTagRun at (count * shape.tag)) (D.moments disk.old) (D.moments disk.new) }
{
    let size = count as usize * shape.tag as usize;
    let run = &mut tags[..size.next_multiple_of(SECTOR_SIZE)];
    read_behind(disk, at, size, run)?;
    put_tags(
        maker,
        shape,
        &zeros[..SECTOR_SIZE * shape.spb as usize],
        first,
        count,
        run,
    );
    disk.write_run(at, run)
}

/// Reads the last sector of so many bytes from sector `at` on, if they do not fill it: for a run of whole sectors that
/// is to keep what stands behind them.
///
/// # Errors
///
/// - `Failed`: the disk failed.
pub fn read_behind<D: Disk>(
    disk: &mut D,
    at: u64,
    size: usize,
    run: &mut [u8],
) -> Result<(), Failed>
    requires bound { IsBound (D.identity disk.old).name }
    requires some { 1 ≤ size }
    requires run { length run.old ≡ 512 * quotient_up size 512 }
    requires inside { LiesOn at size (D.identity disk.old).sectors }

    ensures behind { OnOk result (HasReadBehind at (512 * (size / 512)) (length run.old) run.new
        (D.moments disk.old)) }
    ensures before { (p : ℕ) → p < 512 * (size / 512) → slice_index run.new p ≡ slice_index run.old p }

    ensures cause { HasCause (D.faults disk.old) (D.faults disk.new) result }

    ensures len { length run.new ≡ length run.old }
    ensures identity { D.identity disk.new ≡ D.identity disk.old }
    ensures kept { D.moments disk.new ≡ D.moments disk.old }
{
    if size % SECTOR_SIZE == 0 {
        return Ok(());
    }
    let last = size / SECTOR_SIZE;
    disk.read_run(at + last as u64, &mut run[SECTOR_SIZE * last..])
}

/// Puts the tags of `count` blocks of zeros, of which `first` is the first, one behind the other.
pub fn put_tags(
    maker: &TagMaker,
    shape: Shape,
    zeros: &[u8],
    first: u64,
    count: u64,
    bytes: &mut [u8],
)
    requires shape { IsShape shape }
    requires size { maker.now.size ≡ shape.tag }
    requires zeros { zeros.now ≡ zero_bytes (512 * shape.spb) }
    requires blocks { first + count ≤ 2 ^ 48 }
    requires bytes { count * shape.tag ≤ length bytes.old }

    ensures tags { HoldsTags maker.now shape.spb first (count * shape.tag) bytes.new }
    ensures behind { (p : ℕ) → count * shape.tag ≤ p → slice_index bytes.new p ≡ slice_index bytes.old p }
    ensures len { length bytes.new ≡ length bytes.old }
{
    for i in 0..count {
        let tag = maker.tag((first + i) * shape.spb, zeros);
        put_tag(bytes, (i * shape.tag) as usize, &tag);
    }
}

/// Puts a tag.
fn put_tag(bytes: &mut [u8], from: usize, tag: &Tag)
    requires { from + length tag.now ≤ length bytes.old }

    ensures tag { (i : ℕ) → i < length tag.now → slice_index bytes.new (from + i) ≡ slice_index tag.now i }
    ensures others { (p : ℕ) → (IsWithin from (length tag.now) p → ⊥)
        → slice_index bytes.new p ≡ slice_index bytes.old p }
    ensures len { length bytes.new ≡ length bytes.old }
{
    let tag = tag.bytes();
    bytes[from..from + tag.len()].copy_from_slice(tag);
}
