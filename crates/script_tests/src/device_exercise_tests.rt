//! Exercises of a new image in memory, in each mode, with values from a program that knows the rules alone.
ghost use Rattle.std.specs.Prelude.{◌≡◌, ◌≤◌, []};
ghost use Rattle.disk_model.specs.Identity.{IsBound};
ghost use Rattle.device_parts.specs.declared.condition.Condition.TheVariants.{Working};
ghost use Rattle.device.specs.Calls.{Works};
ghost use Rattle.device.specs.Device.{IsReady};

use device::{Consent, Device, OpenMode};
use device_exercise::exercise;
use hmac_tag::Hash;
use image_formatting::{ImageMode, NewImage, Padding, Wipe, format};
use script_session::Stop;
use sector_disk::{Disk, MemDisk};
use sector_pool::Region;
use std::alloc::Global;
use std::test::Fail;
use workload::Tally;

/// What a new image is to be: a journal of one section, and zeros with their tags.
const NEW: NewImage = NewImage {
    tag_size: 32,
    log2_spb: 0,
    log2_interleave: 3,
    mode: ImageMode::Journal,
    sections: 1,
    log2_region: 15,
    salt: None,
    padding: Padding::Fixed,
    wipe: Wipe::Wiped,
};

/// An exercise with a device of its own in a mode. None where it is not opened.
fn exercise_on<D: Disk>(
    alloc: Global,
    disk: &mut D,
    mode: OpenMode,
    seed: u64,
    count: u64,
) -> Option<Result<Tally, Stop>>
    requires bound { IsBound (D.identity disk.old).name }
    requires count { count ≤ 1000 }
{
    let mut region = Region::new();
    let Ok(mut device) = Device::open(alloc, disk, &mut region, Hash::Sha256, mode) else {
        return None;
    };
    let told = exercise_of(alloc, &mut device, seed, count);
    let _ = device.close();
    told
}

/// An exercise of a new device. None where that has not as many blocks as it is to have.
fn exercise_of<'d, 'p, D: Disk>(
    alloc: Global,
    device: &mut Device<'d, 'p, D>,
    seed: u64,
    count: u64,
) -> Option<Result<Tally, Stop>>
    requires works { Works D.identity D.moments device.old.condition device.old.parts device.old.disk.now }
    requires requests { device.old.parts.common.slots.slots ≡ [] }
    requires submitted { device.old.parts.common.slots.submitted ≡ 0 }
    requires count { count ≤ 1000 }

    ensures ready { IsReady device.new.condition device.new.parts
        (D.identity device.new.disk.now) (D.moments device.new.disk.now) }
{
    if device.blocks() != 328 {
        return None;
    }
    Some(exercise(alloc, device, seed, count))
}

/// The line of an exercise of a new image.
fn told_of(alloc: Global, mode: OpenMode, seed: u64, count: u64) -> Result<Vec<u8>, Fail>
    requires { count ≤ 1000 }
{
    let mut disk = MemDisk::new(alloc, 752, 8000)?;
    format(alloc, &mut disk, Hash::Sha256, NEW)?;
    match exercise_on(alloc, &mut disk, mode, seed, count) {
        Some(Ok(tally)) => Ok(tally.text(alloc)?),
        _ => Ok(Vec::new(alloc)),
    }
}

#[test]
fn an_exercise_counts_requests_and_replies(rt: HostRuntime) -> Result<(), Fail> {
    let rows = [
        (
            OpenMode::Journal(Consent::Withheld),
            0,
            1,
            "fills 1 reads 0 flushes 0 faults 0 sum 264192\n",
        ),
        (
            OpenMode::Direct(Consent::Withheld),
            7,
            0,
            "fills 0 reads 0 flushes 0 faults 0 sum 0\n",
        ),
    ];
    for (mode, seed, count, wanted) in rows {
        let text = told_of(rt.alloc(), mode, seed, count)?;
        assert_eq!(rt; text.as_slice(), wanted.as_bytes(), "{wanted}");
    }
    Ok(())
}
