//! A journal that is full, on a new image in memory.
ghost use Rattle.std.specs.Prelude.{◌≡◌, IfSome};
ghost use Rattle.disk_model.specs.Identity.{IsBound};
ghost use Rattle.device_parts.specs.declared.condition.Condition.TheVariants.{Working};
ghost use Rattle.device.specs.Calls.{Works};
ghost use Rattle.device.specs.Device.{IsReady};

use device::{Consent, Device, OpenMode, finish, make_room, step};
use device_parts::{Actor, Moved, Served};
use hmac_tag::Hash;
use image_formatting::{ImageMode, NewImage, Padding, Wipe, format};
use request_slots::{Bytes, Request, Ticket};
use sector_disk::{Disk, MemDisk};
use sector_pool::Region;
use std::alloc::{AllocError, Global};
use std::test::Fail;

/// What the image is to be: a journal of one section, of 8 metadata sectors and 80 entries of one sector.
const SMALL: NewImage = NewImage {
    tag_size: 32,
    log2_spb: 0,
    log2_interleave: 3,
    mode: ImageMode::Journal,
    sections: 1,
    log2_region: 15,
    salt: None,
    padding: Padding::Fixed,
    wipe: Wipe::Kept,
};

/// Serves a request once, if it is in flight.
fn serve_once<D: Disk>(device: &mut Device<'_, '_, D>, ticket: &Ticket) -> Option<Served>
    requires { IsReady device.old.condition device.old.parts
        (D.identity device.old.disk.now) (D.moments device.old.disk.now) }

    ensures ready { IsReady device.new.condition device.new.parts
        (D.identity device.new.disk.now) (D.moments device.new.disk.now) }
    ensures works { IfSome result (λ served. device.new.condition ≡ Working) }
{
    if !device.holds(ticket) {
        return None;
    }
    device.serve(ticket).ok()
}

/// Serves a request until that does anything else than one block of many.
fn serve_on<D: Disk>(device: &mut Device<'_, '_, D>, ticket: &Ticket) -> Option<Served>
    requires { IsReady device.old.condition device.old.parts
        (D.identity device.old.disk.now) (D.moments device.old.disk.now) }

    ensures ready { IsReady device.new.condition device.new.parts
        (D.identity device.new.disk.now) (D.moments device.new.disk.now) }
    ensures works { IfSome result (λ served. device.new.condition ≡ Working) }
{
    for _ in 0..200 {
        let served = serve_once(device, ticket);
        if !matches!(served, Some(Served::Did)) {
            return served;
        }
    }
    None
}

/// Opens a device in journal mode on a disk.
fn open_device<'d, 'p, D: Disk>(
    alloc: Global,
    disk: &'d mut D,
    region: &'p mut Region,
) -> Option<Device<'d, 'p, D>>
    requires { IsBound (D.identity disk.old).name }

    ensures ready { IfSome result (λ device. IsReady device.condition device.parts
        (D.identity device.disk.now) (D.moments device.disk.now)) }
    ensures works { IfSome result (λ device. device.condition ≡ Working) }
{
    match Device::open(
        alloc,
        disk,
        region,
        Hash::Sha256,
        OpenMode::Journal(Consent::Withheld),
    ) {
        Ok(device) => Some(device),
        Err(_) => None,
    }
}

/// What came of a write of more blocks than the journal has entries.
#[derive(Clone, Copy, Debug, PartialEq, Eq)]
struct Filled {
    /// What a serve did last before room was made.
    full: Served,
    /// What a commit does once room is made.
    left: Moved,
    /// What a serve does once the request was served to its end.
    last: Served,
}

/// Serves a request as long as it goes on, makes room, and serves it to its end.
fn fill<D: Disk>(device: &mut Device<'_, '_, D>, request: Request) -> Option<Filled>
    requires works { Works D.identity D.moments device.old.condition device.old.parts device.old.disk.now }
{
    if !device.has_ticket() {
        return None;
    }
    let Ok(ticket) = device.submit(request) else {
        return None;
    };
    let full = serve_on(device, &ticket)?;
    let Ok(()) = make_room(device) else {
        return None;
    };
    let Ok(left) = step(device, Actor::Commit) else {
        return None;
    };
    if !device.holds(&ticket) {
        return None;
    }
    let Ok(()) = finish(device, &ticket) else {
        return None;
    };
    let last = serve_on(device, &ticket)?;
    Some(Filled { full, left, last })
}

/// The same of a device on this disk, with a write of 81 blocks.
fn fill_disk<D: Disk>(alloc: Global, disk: &mut D) -> Result<Option<Filled>, AllocError>
    requires { IsBound (D.identity disk.old).name }
{
    let write = Request::Write {
        first: 0,
        count: 81,
        bytes: Bytes::from_vec(Vec::from_elem(alloc, 0xaa, 81 * 512)?),
        fua: false,
    };
    let mut region = Region::new();
    let Some(mut device) = open_device(alloc, disk, &mut region) else {
        return Ok(None);
    };
    let filled = fill(&mut device, write);
    let _ = device.give_back();
    Ok(filled)
}

#[test]
fn a_full_journal_gets_room(rt: HostRuntime) -> Result<(), Fail> {
    let mut disk = MemDisk::new(rt.alloc(), 512, 2000)?;
    format(rt.alloc(), &mut disk, Hash::Sha256, SMALL)?;
    let filled = Filled {
        full: Served::NoRoom,
        left: Moved::Idle,
        last: Served::Done,
    };
    assert_eq!(rt; fill_disk(rt.alloc(), &mut disk)?, Some(filled));
    Ok(())
}
