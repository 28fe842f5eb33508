//! Makes a new image, exercises a device on it, and prints what was counted.
ghost use Rattle.std.specs.Prelude.{◌≡◌, ◌≤◌, [], IfErr, None};
ghost use Rattle.disk_model.specs.Causes.{Rose};
ghost use Rattle.disk_model.specs.Identity.{IsBound};
ghost use Rattle.device.specs.Calls.{Works};
ghost use Rattle.script_session.specs.Stop.{HasStopCause};
ghost use Rattle.script_text.specs.Found.{finds_fault};
ghost use Rattle.workload_model.specs.Exercise.{finds_faults};
ghost use Rattle.command_task.specs.declared.asked.Task.TheVariants.{Exercise};
ghost use Rattle.command_task.specs.Calls.{HasCauseOfTask, IsCountedInTask, PassesMoments, RunsTask};
ghost use Rattle.command_image.specs.Exercised.{ClosesExercise, EndsExercise, ExercisesDevice, ExercisesNew, IsTallyTold, TellsExercise, ended_count};
ghost use Rattle.command_model.specs.Exercising as Exercising;
ghost use Rattle.command_task.specs.Running.{ending_by};
ghost use Rattle.script_lines.specs.Ends.{HasEndCause, IsCounted};
ghost use Rattle.command_image.specs.Tasks.{EndsTask};
ghost use Rattle.command_task.specs.Words.{most_requests};

use crate::making::ended_by_format;
use command_ending::{Ended, Outer};
use command_task::{ended_by_opening, handed_back};
use device::{Consent, Device, OpenMode};
use device_exercise::exercise;
use hmac_tag::Hash;
use image_formatting::{ImageMode, NewImage, Padding, Wipe, format, new_image_opens};
use image_judging::images_that_open_have_no_fault;
use script_session::Stop;
use script_text::TagsFound;
use sector_disk::Disk;
use sector_pool::Region;
use std::alloc::Global;
use stream_io::{Sink, put_all};
use workload::Tally;

/// Makes a new image on the disk, runs so many requests of the workload of a seed on a device in journal mode, reads
/// every block, closes the device, and prints what was counted. It tells whether a block's stored tag differed.
///
/// # Errors
///
/// - `Image`: the disk has no room for the image. Nothing was written.
/// - `Memory`: there is none for what is written at once, for the device, for a request, or for the line.
/// - `Disk`, `Sink`: that failed.
///
/// Own: `docs/COMMANDS.md`, the exercise.
pub fn exercise_image<D: Disk, O: Sink>(
    alloc: Global,
    disk: &mut D,
    seed: u64,
    count: u64,
    out: &mut O,
) -> Result<TagsFound, Ended>
    requires bound { IsBound (D.identity disk.old).name }
    requires count { count ≤ most_requests }

    ensures runs { RunsTask D.identity D.moments O.held (Exercise seed count) None (ending_by result)
        disk.old disk.new out.old out.new }
    ensures moments { PassesMoments D.identity D.moments (Exercise seed count) None disk.old disk.new }
    ensures closed { ClosesExercise D.identity D.moments seed count result disk.old disk.new }

    ensures ends { IfErr result EndsTask }
    ensures cause { HasCauseOfTask D.faults O.faults result disk.old disk.new out.old out.new }
    ensures counted { IsCountedInTask D.faults O.faults result disk.old disk.new out.old out.new }

    ensures identity { D.identity disk.new ≡ D.identity disk.old }
{
    // A new image can be opened.
    new_image_opens();
    match format(alloc, disk, Hash::Sha256, image()) {
        Err(fault) => Err(ended_by_format(fault)),
        Ok(_) => exercise_made(alloc, disk, seed, count, out),
    }
}

/// The image that is exercised: areas of eight sectors, a journal of four sections, and else what `format` makes
/// without an option.
fn image() -> NewImage
    ensures { result ≡ Exercising.exercise_image }
{
    NewImage {
        tag_size: 32,
        log2_spb: 0,
        log2_interleave: 3,
        mode: ImageMode::Journal,
        sections: 4,
        log2_region: 15,
        salt: None,
        padding: Padding::Fixed,
        wipe: Wipe::Wiped,
    }
}

/// Exercises a device on a new image, closes it, and prints what was counted. It tells whether a block's stored tag
/// differed.
///
/// # Errors
///
/// - `Memory`: there is none for the device, for a request, or for the line.
/// - `Disk`, `Sink`: that failed.
fn exercise_made<D: Disk, O: Sink>(
    alloc: Global,
    disk: &mut D,
    seed: u64,
    count: u64,
    out: &mut O,
) -> Result<TagsFound, Ended>
    requires bound { IsBound (D.identity disk.old).name }
    requires count { count ≤ most_requests }

    ensures exercised { TellsExercise D.identity D.moments O.held seed count result
        disk.old disk.new out.old out.new }

    ensures ends { IfErr result EndsTask }
    ensures cause { HasCauseOfTask D.faults O.faults result disk.old disk.new out.old out.new }
    ensures counted { IsCountedInTask D.faults O.faults result disk.old disk.new out.old out.new }

    ensures identity { D.identity disk.new ≡ D.identity disk.old }
{
    let mut region = Region::new();
    let mut counted = Err(Ended::Memory);
    let _ = exercise_new(alloc, disk, &mut region, seed, count, &mut counted);
    put_tally(alloc, counted?, out)
}

/// Opens a device in journal mode on a new image, exercises it, and closes it. It gives the disk back, and tells in
/// `counted` what was counted, or what ended it.
fn exercise_new<'d, D: Disk>(
    alloc: Global,
    disk: &'d mut D,
    pool: &mut Region,
    seed: u64,
    count: u64,
    counted: &mut Result<Tally, Ended>,
) -> &'d mut D
    requires bound { IsBound (D.identity disk.old).name }
    requires count { count ≤ most_requests }

    ensures exercised { ExercisesNew D.identity D.moments seed count counted.new disk.old result.now }

    ensures ends { IfErr counted.new EndsExercise }
    ensures cause { IfErr counted.new (HasEndCause (Rose (D.faults disk.old) (D.faults result.now)) ⊥ ⊥) }
    ensures counted { IsCounted Outer.Disk (D.faults disk.old) (D.faults result.now) counted.new }

    ensures identity { D.identity result.now ≡ D.identity disk.old }
    ensures same_disk { result.ghost_name ≡ disk.entry.ghost_name }
{
    // What has no fault can be opened. No tag of a new image is made anew, so no consent is asked.
    images_that_open_have_no_fault();
    let mode = OpenMode::Journal(Consent::Withheld);
    match Device::open(alloc, disk, pool, Hash::Sha256, mode) {
        Err(refused) => {
            let (fault, disk) = handed_back(refused);
            *counted = Err(ended_by_opening(fault));
            disk
        }
        Ok(device) => {
            let (ended, disk) = exercise_device(alloc, device, seed, count);
            *counted = ended_count(ended);
            disk
        }
    }
}

/// Exercises a device that has just been opened, and closes it. It tells what was counted, and gives the disk back.
///
/// # Errors
///
/// - `Disk`: the disk failed.
/// - `Memory`: there is none for a request. The device is not closed.
fn exercise_device<'d, 'p, D: Disk>(
    alloc: Global,
    device: Device<'d, 'p, D>,
    seed: u64,
    count: u64,
) -> (Result<Tally, Stop>, &'d mut D)
    requires works { Works D.identity D.moments device.condition device.parts device.disk.now }
    requires requests { (device.parts.common.slots.slots ≡ [])
        × (device.parts.common.slots.submitted ≡ 0) }
    requires count { count ≤ most_requests }

    ensures exercised { ExercisesDevice D.moments seed count result.0 device.entry.parts
        device.entry.disk.now result.1.now }

    ensures cause { HasStopCause (D.faults device.entry.disk.now) (D.faults result.1.now) result.0 }

    ensures identity { D.identity result.1.now ≡ D.identity device.entry.disk.now }
    ensures same_disk { result.1.ghost_name ≡ device.entry.disk.ghost_name }
{
    let mut device = device;
    match exercise(alloc, &mut device, seed, count) {
        Ok(tally) => match device.close() {
            (Ok(()), disk) => (Ok(tally), disk),
            (Err(_), disk) => (Err(Stop::Disk), disk),
        },
        Err(stop) => (Err(stop), device.give_back()),
    }
}

/// What was counted, or what ends a command whose exercise is stopped.
fn ended_count(counted: Result<Tally, Stop>) -> Result<Tally, Ended>
    ensures { result ≡ ended_count counted }
{
    match counted {
        Ok(tally) => Ok(tally),
        Err(Stop::Disk) => Err(Ended::Failed(Outer::Disk)),
        Err(Stop::Memory) => Err(Ended::Memory),
    }
}

/// Prints what was counted. It tells whether a block's stored tag differed.
///
/// # Errors
///
/// - `Memory`: there is none for the line. Nothing is printed.
/// - `Sink`: the sink failed. It has taken some of the line from the front, or none, and not all.
fn put_tally<O: Sink>(alloc: Global, tally: Tally, out: &mut O) -> Result<TagsFound, Ended>
    ensures told { IsTallyTold tally (O.held out.old) (O.held out.new) result }
    ensures cause { IfErr result (HasEndCause ⊥ ⊥ (Rose (O.faults out.old) (O.faults out.new))) }
    ensures counted { IsCounted Outer.Sink (O.faults out.old) (O.faults out.new) result }
{
    let Ok(text) = tally.text(alloc) else {
        return Err(Ended::Memory);
    };
    match put_all(out, text.as_slice()) {
        Ok(()) => Ok(tags_found(&tally)),
        Err(_) => Err(Ended::Failed(Outer::Sink)),
    }
}

/// Differing where a reply told a block whose stored tag differs.
fn tags_found(tally: &Tally) -> TagsFound
    ensures { finds_fault result ≡ finds_faults tally.now }
{
    if tally.finds_fault() {
        TagsFound::Differing
    } else {
        TagsFound::Matching
    }
}
