//! Opens two images as the legs of a mirror, and runs a script on it.
ghost use Rattle.std.specs.Prelude.{◌≡◌, [], IfErr};
ghost use Rattle.disk_model.specs.Identity.{IsBound};
ghost use Rattle.hmac_tag.specs.TagMaker.{key_of};
ghost use Rattle.command_task.specs.Running.{IsBeforeScript};
ghost use Rattle.command_mirror.specs.Calls.{EndsMirror, HasCauseOfMirror, IsCountedInMirror, ReadsMirror, RunsMirror};
ghost use Rattle.command_mirror.specs.Calls.{ending_by};

use crate::refusing::{ended_by_legs, ended_by_second};
use crate::running::run_mirror;
use command_ending::Ended;
use command_task::{ended_by_opening, handed_back};
use device::{Consent, Device, OpenMode};
use hmac_tag::Hash;
use image_judging::images_that_open_have_no_fault;
use mirror_core::mirror_of;
use script_reader::LineReader;
use script_text::TagsFound;
use sector_disk::Disk;
use sector_pool::Region;
use std::alloc::Global;
use stream_io::{Sink, Source};

/// Opens two images in journal mode under one hash, each on a disk that is bound, as the legs of a mirror; levels it, runs
/// a script on it, and closes it. It tells whether a line told a block that matches on neither leg.
///
/// # Errors
///
/// - `Memory`: there is none for a second key, a reader of lines, a device, the levelling, or what a line needs.
/// - `Image`, `Second`: that image is refused.
/// - `Legs`: the images differ in how many blocks they have, or in how many bytes a block has.
/// - `Line`, `Length`: the script is refused.
/// - `Disk`, `Script`, `Sink`: that failed.
pub fn mirror_images<D: Disk, E: Disk, S: Source, O: Sink>(
    alloc: Global,
    disk: &mut D,
    second: &mut E,
    hash: Hash,
    consent: Consent,
    script: &mut S,
    out: &mut O,
) -> Result<TagsFound, Ended>
    requires first { IsBound (D.identity disk.old).name }
    requires second { IsBound (E.identity second.old).name }

    ensures runs { RunsMirror D.identity D.moments E.identity E.moments S.left O.held consent (key_of hash)
        (ending_by result) disk.old disk.new second.old second.new script.old out.old out.new }

    ensures ends { IfErr result EndsMirror }
    ensures cause { HasCauseOfMirror D.faults E.faults S.faults O.faults result
        disk.old disk.new second.old second.new script.old script.new out.old out.new }
    ensures counted { IsCountedInMirror D.faults E.faults S.faults O.faults result
        disk.old disk.new second.old second.new script.old script.new out.old out.new }

    ensures unread { IfErr result (λ ended. IsBeforeScript ended → script.new ≡ script.old) }
    ensures read { ReadsMirror D.identity D.moments E.identity E.moments S.left O.held S.faults consent (key_of hash)
        disk.old second.old script.old script.new out.old out.new }
    ensures identity { D.identity disk.new ≡ D.identity disk.old }
    ensures second_identity { E.identity second.new ≡ E.identity second.old }
{
    let Ok(twin) = hash.twin(alloc) else {
        return Err(Ended::Memory);
    };
    let Ok(mut reader) = LineReader::new(alloc) else {
        return Err(Ended::Memory);
    };
    let mut region = Region::new();
    let mut second_region = Region::new();
    let mut ended = Err(Ended::Memory);
    let _ = mirror_devices(
        alloc,
        disk,
        second,
        &mut region,
        &mut second_region,
        hash,
        twin,
        consent,
        &mut reader,
        script,
        out,
        &mut ended,
    );
    ended
}

/// Does that with a reader that has read nothing, and with memory for the journals' sectors, none at first. It gives the
/// disks back, and tells in `ended` how the run ended.
fn mirror_devices<'a, 'b, D: Disk, E: Disk, S: Source, O: Sink>(
    alloc: Global,
    disk: &'a mut D,
    second: &'b mut E,
    pool: &mut Region,
    second_pool: &mut Region,
    hash: Hash,
    twin: Hash,
    consent: Consent,
    reader: &mut LineReader,
    script: &mut S,
    out: &mut O,
    ended: &mut Result<TagsFound, Ended>,
) -> (&'a mut D, &'b mut E)
    requires first { IsBound (D.identity disk.old).name }
    requires second { IsBound (E.identity second.old).name }
    requires twins { key_of twin ≡ key_of hash }
    requires reader { reader.old ≡ record { unread = []; line = []; taken = 0 } }

    ensures runs { RunsMirror D.identity D.moments E.identity E.moments S.left O.held consent (key_of hash)
        (ending_by ended.new) disk.old result.0.now second.old result.1.now script.old out.old out.new }

    ensures ends { IfErr ended.new EndsMirror }
    ensures cause { HasCauseOfMirror D.faults E.faults S.faults O.faults ended.new
        disk.old result.0.now second.old result.1.now script.old script.new out.old out.new }
    ensures counted { IsCountedInMirror D.faults E.faults S.faults O.faults ended.new
        disk.old result.0.now second.old result.1.now script.old script.new out.old out.new }

    ensures unread { IfErr ended.new (λ ended. IsBeforeScript ended → script.new ≡ script.old) }
    ensures read { ReadsMirror D.identity D.moments E.identity E.moments S.left O.held S.faults consent (key_of hash)
        disk.old second.old script.old script.new out.old out.new }
    ensures identity { D.identity result.0.now ≡ D.identity disk.old }
    ensures second_identity { E.identity result.1.now ≡ E.identity second.old }
    ensures same_disk { result.0.ghost_name ≡ disk.entry.ghost_name }
    ensures same_second { result.1.ghost_name ≡ second.entry.ghost_name }
{
    // What has no fault can be opened.
    images_that_open_have_no_fault();
    let mode = OpenMode::Journal(consent);
    match Device::open(alloc, disk, pool, hash, mode) {
        Err(refused) => {
            let (fault, disk) = handed_back(refused);
            *ended = Err(ended_by_opening(fault));
            (disk, second)
        }
        Ok(first) => match Device::open(alloc, second, second_pool, twin, mode) {
            Err(refused) => {
                let (fault, second) = handed_back(refused);
                *ended = Err(ended_by_second(fault));
                (first.give_back(), second)
            }
            Ok(other) => match mirror_of(first, other) {
                Err((first, other, unequal)) => {
                    *ended = Err(ended_by_legs(unequal));
                    (first.give_back(), other.give_back())
                }
                Ok(mirror) => run_mirror(alloc, mirror, reader, script, out, ended),
            },
        },
    }
}
