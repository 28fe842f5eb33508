//! Prints the bad blocks of an image, as they are found, and then how many there are.
//!
//! A line is printed before the next block is judged, so that memory does not grow with the number of bad blocks.
ghost use Rattle.std.specs.Prelude.{◌≡◌, ltb, [], IfErr, IfOk};
ghost use Rattle.std.specs.Option.{IsSomeAnd};
ghost use Rattle.disk_model.specs.Causes.{HasCause};
ghost use Rattle.disk_model.specs.Identity.{IsBound};
ghost use Rattle.hmac_tag.specs.TagMaker.{key_of};
ghost use Rattle.stream_io.specs.Stream.{AddsPrefix};
ghost use Rattle.image_check.specs.Checked.{IsCheckOf};
ghost use Rattle.check_model.specs.Report.{with_found};
ghost use Rattle.script_text.specs.Found.{finds_fault};
ghost use Rattle.command_ending.specs.Ended.{Puts};
ghost use Rattle.command_task.specs.declared.asked.Task.TheVariants.{Check};
ghost use Rattle.command_task.specs.Calls.{HasCauseOfTask, IsCountedInTask, RunsTask};
ghost use Rattle.command_image.specs.Listing.{CutsList, IsListed, ListsBad};
ghost use Rattle.command_model.specs.Checking.{bad_line, counts_line};
ghost use Rattle.command_task.specs.Running.{ending_by};
ghost use Rattle.command_image.specs.Tasks.{EndsTask};

use command_ending::{Ended, MOST_DIGITS, Outer, put_pieces, tag_digits};
use command_task::ended_by_opening;
use hmac_tag::Hash;
use image_check::{Bad, CheckedImage, What};
use itoa::Buffer;
use script_text::TagsFound;
use sector_disk::{Disk, Failed};
use std::alloc::Global;
use stream_io::Sink;

/// Prints the bad blocks of the image that the disk is bound to, and how many there are. It tells whether there is
/// one. Nothing is written to the disk.
///
/// # Errors
///
/// - `Image`: the image is refused.
/// - `Memory`: there is none for its journal, or for what is read.
/// - `Disk`, `Sink`: that failed. Where it was the disk, whole lines are printed.
pub fn print_check<D: Disk, O: Sink>(
    alloc: Global,
    disk: &mut D,
    hash: Hash,
    what: What,
    out: &mut O,
) -> Result<TagsFound, Ended>
    requires { IsBound (D.identity disk.old).name }

    ensures runs { RunsTask D.identity D.moments O.held (Check what) (key_of hash) (ending_by result)
        disk.old disk.new out.old out.new }

    ensures ends { IfErr result EndsTask }
    ensures cause { HasCauseOfTask D.faults O.faults result disk.old disk.new out.old out.new }
    ensures counted { IsCountedInTask D.faults O.faults result disk.old disk.new out.old out.new }

    ensures identity { D.identity disk.new ≡ D.identity disk.old }
    ensures kept { D.moments disk.new ≡ D.moments disk.old }
{
    let mut image = match CheckedImage::open(alloc, disk, hash, what) {
        Ok(image) => image,
        Err(fault) => return Err(ended_by_opening(fault)),
    };
    // They are counted before a line is printed, so that a failed disk leaves no list without its last line but where a
    // block was not read.
    let Ok(awaiting) = image.count_awaiting(disk) else {
        return Err(Ended::Failed(Outer::Disk));
    };
    let bad = match print_bad(disk, &mut image, out) {
        Ok(bad) => bad,
        Err(ended) => return Err(ended),
    };
    match put_counts(out, image.blocks(), bad, awaiting) {
        Ok(()) => Ok(tags_found(bad)),
        Err(_) => Err(Ended::Failed(Outer::Sink)),
    }
}

/// Prints the line of each bad block of an image, and tells how many there are.
///
/// # Errors
///
/// - `Disk`, `Sink`: that failed. Where it was the disk, whole lines are printed.
fn print_bad<D: Disk, O: Sink>(
    disk: &mut D,
    image: &mut CheckedImage,
    out: &mut O,
) -> Result<u64, Ended>
    requires { IsCheckOf image.old (D.identity disk.old) (D.moments disk.old) }

    ensures listed { ListsBad D.identity D.moments O.held image.old result disk.old out.old out.new }

    ensures cut { CutsList D.identity D.moments O.held image.old result disk.old out.old out.new }
    ensures ends { IfErr result EndsTask }
    ensures cause { HasCauseOfTask D.faults O.faults result disk.old disk.new out.old out.new }
    ensures counted { IsCountedInTask D.faults O.faults result disk.old disk.new out.old out.new }

    ensures format { image.new.format ≡ image.old.format }
    ensures identity { D.identity disk.new ≡ D.identity disk.old }
    ensures kept { D.moments disk.new ≡ D.moments disk.old }
{
    let mut bad = 0;
    for block in 0..image.blocks() {
        let Ok(found) = image.judge(disk, block) else {
            return Err(Ended::Failed(Outer::Disk));
        };
        let Ok(more) = put_found(out, &found) else {
            return Err(Ended::Failed(Outer::Sink));
        };
        bad += more;
    }
    Ok(bad)
}

/// Writes the line of a block that was found, if it was, and tells how many lines that are.
///
/// # Errors
///
/// - `Failed`: the sink failed. It has taken some of the line from the front, or none, and not all.
fn put_found<O: Sink>(out: &mut O, found: &Option<Bad>) -> Result<u64, Failed>
    ensures listed { IfOk result (λ count.
        IsListed (with_found found.now []) count (O.held out.old) (O.held out.new)) }

    ensures cause { HasCause (O.faults out.old) (O.faults out.new) result }
    ensures err { IfErr result (λ failed.
        IsSomeAnd found.now (λ bad. AddsPrefix (bad_line bad) (O.held out.old) (O.held out.new))) }
{
    let Some(bad) = found else {
        return Ok(0);
    };
    match put_bad(out, bad) {
        Ok(()) => Ok(1),
        Err(failed) => Err(failed),
    }
}

/// Writes the line of a bad block.
///
/// # Errors
///
/// - `Failed`: the sink failed. It has taken some of the line from the front, or none, and not all.
fn put_bad<O: Sink>(out: &mut O, bad: &Bad) -> Result<(), Failed>
    ensures line { Puts (bad_line bad.now) (O.held out.old) (O.held out.new) result }
    ensures cause { HasCause (O.faults out.old) (O.faults out.new) result }
{
    let mut blocks = Buffer::new();
    let mut stored = [0; MOST_DIGITS];
    let mut computed = [0; MOST_DIGITS];
    let block = blocks.format(bad.block).as_bytes();
    let stored = tag_digits(&bad.stored, &mut stored);
    let computed = tag_digits(&bad.computed, &mut computed);
    put_pieces(
        out,
        &[
            b"bad ",
            block,
            b" stored ",
            stored,
            b" computed ",
            computed,
            b"\n",
        ],
    )
}

/// Writes the last line: how many blocks there are, how many are bad, and how many await their tags.
///
/// # Errors
///
/// - `Failed`: the sink failed. It has taken some of the line from the front, or none, and not all.
fn put_counts<O: Sink>(out: &mut O, blocks: u64, bad: u64, awaiting: u64) -> Result<(), Failed>
    ensures line { Puts (counts_line blocks bad awaiting) (O.held out.old) (O.held out.new) result }
    ensures cause { HasCause (O.faults out.old) (O.faults out.new) result }
{
    let mut block_digits = Buffer::new();
    let mut bad_digits = Buffer::new();
    let mut awaiting_digits = Buffer::new();
    let blocks = block_digits.format(blocks).as_bytes();
    let bad = bad_digits.format(bad).as_bytes();
    let awaiting = awaiting_digits.format(awaiting).as_bytes();
    put_pieces(
        out,
        &[
            b"blocks ",
            blocks,
            b" bad ",
            bad,
            b" awaiting ",
            awaiting,
            b"\n",
        ],
    )
}

/// Whether there is a bad block, where there are so many.
pub(crate) fn tags_found(bad: u64) -> TagsFound
    ensures { finds_fault result ≡ ltb 0 bad }
{
    if bad > 0 {
        TagsFound::Differing
    } else {
        TagsFound::Matching
    }
}
