//! A device on new images in memory, in each mode: what it replies, and what it leaves for the next one.
ghost use Rattle.std.specs.Prelude.{◌≡◌, ◌≤◌, IfSome};
ghost use Rattle.disk_model.specs.Identity.{IsBound};
ghost use Rattle.device.specs.Device.{IsReady};

use device::{Consent, Device, OpenMode};
use device_parts::{Actor, Moved, Served};
use hmac_tag::Hash;
use image_formatting::{ImageMode, NewImage, Padding, Wipe, format};
use request_slots::{Bytes, Reply, Request};
use sector_disk::{Disk, MemDisk};
use sector_pool::Region;
use std::alloc::{AllocError, Global};
use std::test::Fail;

/// What the image is to be: a journal of one section, of 8 metadata sectors and 80 entries of one sector.
pub(crate) const SMALL: NewImage = NewImage {
    tag_size: 32,
    log2_spb: 0,
    log2_interleave: 3,
    mode: ImageMode::Journal,
    sections: 1,
    log2_region: 15,
    salt: None,
    padding: Padding::Fixed,
    wipe: Wipe::Kept,
};

/// A disk with a new image.
pub(crate) fn new_disk(alloc: Global) -> Result<MemDisk, Fail> {
    let mut disk = MemDisk::new(alloc, 512, 2000)?;
    format(alloc, &mut disk, Hash::Sha256, SMALL)?;
    Ok(disk)
}

/// A write of block 5, whose bytes are all this one, that is to be flushed.
pub(crate) fn write_of(alloc: Global, byte: u8) -> Result<Request, AllocError> {
    Ok(Request::Write {
        first: 5,
        count: 1,
        bytes: Bytes::from_vec(Vec::from_elem(alloc, byte, 512)?),
        fua: true,
    })
}

/// A read of block 5.
fn read_of(alloc: Global) -> Result<Request, AllocError> {
    Ok(Request::Read {
        first: 5,
        count: 1,
        buffer: Bytes::from_vec(Vec::from_elem(alloc, 0, 512)?),
    })
}

/// Opens a device on a disk.
pub(crate) fn open_device<'d, 'p, D: Disk>(
    alloc: Global,
    disk: &'d mut D,
    region: &'p mut Region,
    hash: Hash,
    mode: OpenMode,
) -> Option<Device<'d, 'p, D>>
    requires { IsBound (D.identity disk.old).name }

    ensures { IfSome result (λ device. IsReady device.condition device.parts
        (D.identity device.disk.now) (D.moments device.disk.now)) }
{
    match Device::open(alloc, disk, region, hash, mode) {
        Ok(device) => Some(device),
        Err(_) => None,
    }
}

/// The reply to a request of one block.
pub(crate) fn reply_to<D: Disk>(device: &mut Device<'_, '_, D>, request: Request) -> Option<Reply>
    requires { IsReady device.old.condition device.old.parts
        (D.identity device.old.disk.now) (D.moments device.old.disk.now) }

    ensures { IsReady device.new.condition device.new.parts
        (D.identity device.new.disk.now) (D.moments device.new.disk.now) }
{
    if !device.has_ticket() {
        return None;
    }
    let Ok(ticket) = device.submit(request) else {
        return None;
    };
    if !device.holds(&ticket) {
        return None;
    }
    let Ok(Served::Done) = device.serve(&ticket) else {
        return None;
    };
    if !device.holds(&ticket) {
        return None;
    }
    device.take(ticket).ok()
}

/// The byte that the block has that was read, where its tag is that of its bytes.
fn byte_of(reply: Option<Reply>) -> Option<u8> {
    match reply {
        Some(Reply::Read { buffer }) => buffer.as_slice().first().copied(),
        _ => None,
    }
}

/// What came of a write that was flushed.
#[derive(Clone, Copy, Debug, PartialEq, Eq)]
pub(crate) struct Written {
    /// The byte that a read behind it gave.
    pub(crate) byte: Option<u8>,
    /// What the actor did then.
    pub(crate) moved: Option<Moved>,
}

/// Writes a block and flushes it, reads it, lets an actor do a step and closes the device, where all went well.
pub(crate) fn write_and_read<D: Disk>(
    alloc: Global,
    disk: &mut D,
    mode: OpenMode,
    actor: Actor,
) -> Result<Option<Written>, AllocError>
    requires { IsBound (D.identity disk.old).name }
{
    let write = write_of(alloc, 0xaa)?;
    let read = read_of(alloc)?;
    let mut region = Region::new();
    let Some(mut device) = open_device(alloc, disk, &mut region, Hash::Sha256, mode) else {
        return Ok(None);
    };
    let written = reply_to(&mut device, write);
    let byte = byte_of(reply_to(&mut device, read));
    let moved = device.step(actor).ok();
    let (closed, _) = device.close();
    let is_written = matches!(written, Some(Reply::Written { .. }));
    Ok(if is_written && closed.is_ok() {
        Some(Written { byte, moved })
    } else {
        None
    })
}

/// The byte that the block has for a device of its own, which has the blocks that it should and is not closed.
pub(crate) fn read_alone<D: Disk>(
    alloc: Global,
    disk: &mut D,
    hash: Hash,
    mode: OpenMode,
) -> Result<Option<u8>, AllocError>
    requires { IsBound (D.identity disk.old).name }
{
    let read = read_of(alloc)?;
    let mut region = Region::new();
    let Some(mut device) = open_device(alloc, disk, &mut region, hash, mode) else {
        return Ok(None);
    };
    let is_small = device.blocks() > 5 && device.block_size() == 512;
    let byte = if is_small {
        byte_of(reply_to(&mut device, read))
    } else {
        None
    };
    let _ = device.give_back();
    Ok(byte)
}

/// Writes a block and flushes it in journal mode. Whether that was done, and the close behind it fails.
fn close_fails<D: Disk>(
    alloc: Global,
    disk: &mut D,
    region: &mut Region,
) -> Result<bool, AllocError>
    requires { IsBound (D.identity disk.old).name }
{
    let write = write_of(alloc, 0xaa)?;
    let Some(mut device) = open_device(
        alloc,
        disk,
        region,
        Hash::Sha256,
        OpenMode::Journal(Consent::Withheld),
    ) else {
        return Ok(false);
    };
    let written = reply_to(&mut device, write);
    let (closed, _) = device.close();
    Ok(matches!(written, Some(Reply::Written { .. })) && closed.is_err())
}

/// So many sectors from sector 8 on, by the oldest candidates of a disk of 512 sectors.
fn oldest_from_8(alloc: Global, disk: &MemDisk, sectors: usize) -> Result<Vec<u8>, Fail>
    requires low { 1 ≤ sectors }
    requires high { sectors ≤ 504 }
{
    let choice = vec![in alloc; 0u32; 512]?;
    if !disk.has(&choice) {
        return Err(Fail::from("candidate"));
    }
    let mut image = disk.image(alloc, &choice)?;
    if image.sectors() < 512 {
        return Err(Fail::from("sectors"));
    }
    let mut bytes = vec![in alloc; 0; sectors * 512]?;
    image.read_run(8, &mut bytes)?;
    Ok(bytes)
}

#[test]
fn in_journal_mode_a_write_is_placed_by_a_step(rt: HostRuntime) -> Result<(), Fail> {
    let byte = Some(0xaa);
    let moved = Some(Moved::Did);
    let mut disk = new_disk(rt.alloc())?;
    let written = write_and_read(
        rt.alloc(),
        &mut disk,
        OpenMode::Journal(Consent::Withheld),
        Actor::Place,
    )?;
    assert_eq!(rt; written, Some(Written { byte, moved }));
    let in_journal_mode = read_alone(
        rt.alloc(),
        &mut disk,
        Hash::Sha256,
        OpenMode::Journal(Consent::Withheld),
    )?;
    assert_eq!(rt; in_journal_mode, byte);
    // A close has brought all to its place, where direct mode looks.
    let in_direct_mode = read_alone(
        rt.alloc(),
        &mut disk,
        Hash::Sha256,
        OpenMode::Direct(Consent::Withheld),
    )?;
    assert_eq!(rt; in_direct_mode, byte);
    Ok(())
}

#[test]
fn a_close_that_the_disk_stops_leaves_the_journal_in_memory(rt: HostRuntime) -> Result<(), Fail> {
    let mut disk = new_disk(rt.alloc())?;
    // The commit writes the 88 sectors of the journal, and a place one.
    disk.stop_after(89);
    let mut region = Region::new();
    assert!(rt; close_fails(rt.alloc(), &mut disk, &mut region)?);
    let journal = oldest_from_8(rt.alloc(), &disk, 88)?;
    assert!(rt; region.whole().bytes() == journal.as_slice());
    Ok(())
}
