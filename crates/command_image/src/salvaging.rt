//! Prints what can still be read of an image, block by block, and then how many blocks there are.
//!
//! A line is printed before the next block is read, so that one block and its line are held at a time.
ghost use Rattle.std.specs.Prelude.{◌≡◌, ◌+◌, ◌<◌, ◌^◌, if◌then◌else◌, length, IfErr};
ghost use Rattle.disk_model.specs.Causes.{HasCause};
ghost use Rattle.disk_model.specs.Identity.{IsBound};
ghost use Rattle.hmac_tag.specs.TagMaker.{key_of};
ghost use Rattle.image_salvage.specs.Salvaged.{IsSalvageOf, IsSameSalvage, block_size};
ghost use Rattle.image_salvage.specs.Telling.{as_verdict};
ghost use Rattle.salvage_model.specs.Salvaging.{counts_text};
ghost use Rattle.salvage_model.specs.Verdicts.{is_good};
ghost use Rattle.command_ending.specs.Ended.{Puts};
ghost use Rattle.command_task.specs.declared.asked.Task.TheVariants as Tasks;
ghost use Rattle.command_task.specs.Calls.{HasCauseOfTask, IsCountedInTask, RunsTask};
ghost use Rattle.command_task.specs.Running.{ending_by};
ghost use Rattle.command_image.specs.Listing.{CutsBlocks, TellsBlocks, TellsImage};
ghost use Rattle.command_image.specs.Tasks.{EndsTask};

use crate::checking::tags_found;
use crate::verdict_lines::write_verdict;
use command_ending::{Ended, Outer, put_pieces};
use command_task::ended_by_opening;
use hmac_tag::Hash;
use image_refusal::{CallFault, HeadFault};
use image_salvage::{Refused, Salvage, Verdict};
use itoa::Buffer;
use script_text::TagsFound;
use sector_disk::{Disk, Failed};
use std::alloc::Global;
use stream_io::{Sink, put_all};

/// Prints a line for each block of the image that the disk is bound to, with what stands in its place and, where its
/// tags differ, both of them; and then how many blocks there are, and how many are bad. It tells whether one is.
/// Nothing is written to the disk.
///
/// # Errors
///
/// - `Image`: the superblock or the geometry is refused.
/// - `Memory`: there is none for what is read, or for a line.
/// - `Disk`, `Sink`: that failed. Where it was the disk, whole lines are printed.
pub fn print_salvage<D: Disk, O: Sink>(
    alloc: Global,
    disk: &mut D,
    hash: Hash,
    out: &mut O,
) -> Result<TagsFound, Ended>
    requires { IsBound (D.identity disk.old).name }

    ensures runs { RunsTask D.identity D.moments O.held Tasks.Salvage (key_of hash) (ending_by result)
        disk.old disk.new out.old out.new }

    ensures ends { IfErr result EndsTask }
    ensures cause { HasCauseOfTask D.faults O.faults result disk.old disk.new out.old out.new }
    ensures counted { IsCountedInTask D.faults O.faults result disk.old disk.new out.old out.new }

    ensures identity { D.identity disk.new ≡ D.identity disk.old }
    ensures kept { D.moments disk.new ≡ D.moments disk.old }
{
    let mut ended = Err(Ended::Memory);
    let _ = salvage_disk(alloc, disk, hash, out, &mut ended);
    ended
}

/// Does that, gives the disk back, and tells in `ended` how it ended.
///
/// # Errors
///
/// - `Image`: the superblock or the geometry is refused.
/// - `Memory`: there is none for what is read, or for a line.
/// - `Disk`, `Sink`: that failed.
fn salvage_disk<'d, D: Disk, O: Sink>(
    alloc: Global,
    disk: &'d mut D,
    hash: Hash,
    out: &mut O,
    ended: &mut Result<TagsFound, Ended>,
) -> &'d mut D
    requires { IsBound (D.identity disk.old).name }

    ensures runs { RunsTask D.identity D.moments O.held Tasks.Salvage (key_of hash) (ending_by ended.new)
        disk.old result.now out.old out.new }

    ensures ends { IfErr ended.new EndsTask }
    ensures cause { HasCauseOfTask D.faults O.faults ended.new disk.old result.now out.old out.new }
    ensures counted { IsCountedInTask D.faults O.faults ended.new disk.old result.now out.old out.new }

    ensures identity { D.identity result.now ≡ D.identity disk.old }
    ensures kept { D.moments result.now ≡ D.moments disk.old }
    ensures same_disk { result.ghost_name ≡ disk.entry.ghost_name }
{
    match Salvage::open(alloc, disk, hash) {
        Err(refused) => {
            let (fault, disk) = handed_back(refused);
            *ended = Err(ended_by_opening(CallFault::from(fault)));
            disk
        }
        Ok(mut salvage) => {
            *ended = print_image(alloc, &mut salvage, out);
            salvage.give_back()
        }
    }
}

/// Why an image is not salvaged, and the disk that comes back.
fn handed_back<'d, D: Disk>(refused: Refused<'d, D>) -> (CallFault<HeadFault>, &'d mut D)
    ensures fault { result.0 ≡ refused.entry.fault }
    ensures disk { result.1.now ≡ refused.entry.disk.now }
    ensures same_disk { result.1.ghost_name ≡ refused.entry.disk.ghost_name }
{
    let Refused { fault, disk } = refused;
    (fault, disk)
}

/// Prints all lines of an image of which no block was told yet. It tells whether a block is bad.
///
/// # Errors
///
/// - `Memory`: there is none for a block, or for a line.
/// - `Disk`, `Sink`: that failed.
fn print_image<D: Disk, O: Sink>(
    alloc: Global,
    salvage: &mut Salvage<'_, D>,
    out: &mut O,
) -> Result<TagsFound, Ended>
    requires image { IsSalvageOf salvage.old.image (D.identity salvage.old.disk.now)
        (D.moments salvage.old.disk.now) }
    requires told { salvage.old.image.told ≡ 0 }

    ensures told { TellsImage D.identity D.moments O.held salvage.old.image (ending_by result)
        salvage.old.disk.now out.old out.new }

    ensures ends { IfErr result EndsTask }
    ensures cause { HasCauseOfTask D.faults O.faults result salvage.old.disk.now salvage.new.disk.now out.old out.new }
    ensures counted { IsCountedInTask D.faults O.faults result
        salvage.old.disk.now salvage.new.disk.now out.old out.new }

    ensures identity { D.identity salvage.new.disk.now ≡ D.identity salvage.old.disk.now }
    ensures kept { D.moments salvage.new.disk.now ≡ D.moments salvage.old.disk.now }
    ensures same_disk { salvage.new.disk.ghost_name ≡ salvage.old.disk.ghost_name }
{
    let Ok(mut bytes) = Vec::from_elem(alloc, 0, salvage.block_size()) else {
        return Err(Ended::Memory);
    };
    let bad = match print_blocks(alloc, salvage, &mut bytes, out) {
        Ok(bad) => bad,
        Err(ended) => return Err(ended),
    };
    match put_counts(out, salvage.blocks(), bad) {
        Ok(()) => Ok(tags_found(bad)),
        Err(_) => Err(Ended::Failed(Outer::Sink)),
    }
}

/// Prints the line of each block of an image of which no block was told yet, and tells how many are bad. `bytes` is
/// room for one.
///
/// # Errors
///
/// - `Memory`: there is none for a line.
/// - `Disk`, `Sink`: that failed. Where it was the disk, whole lines are printed.
fn print_blocks<D: Disk, O: Sink>(
    alloc: Global,
    salvage: &mut Salvage<'_, D>,
    bytes: &mut [u8],
    out: &mut O,
) -> Result<u64, Ended>
    requires image { IsSalvageOf salvage.old.image (D.identity salvage.old.disk.now)
        (D.moments salvage.old.disk.now) }
    requires told { salvage.old.image.told ≡ 0 }
    requires bytes { length bytes.old ≡ block_size salvage.old.image }

    ensures told { TellsBlocks D.identity D.moments O.held salvage.old.image result
        salvage.old.disk.now out.old out.new }

    ensures cut { CutsBlocks D.identity D.moments O.held salvage.old.image result
        salvage.old.disk.now out.old out.new }
    ensures ends { IfErr result EndsTask }
    ensures cause { HasCauseOfTask D.faults O.faults result salvage.old.disk.now salvage.new.disk.now out.old out.new }
    ensures counted { IsCountedInTask D.faults O.faults result
        salvage.old.disk.now salvage.new.disk.now out.old out.new }

    ensures same { IsSameSalvage salvage.old.image salvage.new.image }
    ensures identity { D.identity salvage.new.disk.now ≡ D.identity salvage.old.disk.now }
    ensures kept { D.moments salvage.new.disk.now ≡ D.moments salvage.old.disk.now }
    ensures same_disk { salvage.new.disk.ghost_name ≡ salvage.old.disk.ghost_name }
{
    let mut line = Vec::new(alloc);
    let mut bad = 0;
    'lines: loop {
        let Ok(told) = salvage.next(bytes) else {
            return Err(Ended::Failed(Outer::Disk));
        };
        let Some(verdict) = told else {
            return Ok(bad);
        };
        let Ok(()) = write_verdict(&mut line, &verdict, bytes) else {
            return Err(Ended::Memory);
        };
        let Ok(()) = put_all(out, &line) else {
            return Err(Ended::Failed(Outer::Sink));
        };
        bad = bad_with(bad, &verdict);
    }
}

/// How many blocks are bad with this one, where so many were.
fn bad_with(bad: u64, verdict: &Verdict) -> u64
    requires { bad + 1 < 2 ^ 64 }

    ensures { result ≡ (if is_good (as_verdict verdict.now) then bad else bad + 1) }
{
    if verdict.is_good() { bad } else { bad + 1 }
}

/// Writes the last line: how many blocks there are, and how many are bad.
///
/// # Errors
///
/// - `Failed`: the sink failed. It has taken some of the line from the front, or none, and not all.
fn put_counts<O: Sink>(out: &mut O, blocks: u64, bad: u64) -> Result<(), Failed>
    ensures line { Puts (counts_text blocks bad) (O.held out.old) (O.held out.new) result }
    ensures cause { HasCause (O.faults out.old) (O.faults out.new) result }
{
    let mut block_digits = Buffer::new();
    let mut bad_digits = Buffer::new();
    let blocks = block_digits.format(blocks).as_bytes();
    let bad = bad_digits.format(bad).as_bytes();
    put_pieces(out, &[b"blocks ", blocks, b" bad ", bad, b"\n"])
}
