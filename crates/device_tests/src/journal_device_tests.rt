//! A device in journal mode on new images in memory: what it replies, and what it leaves.
ghost use Rattle.std.specs.Prelude.{IfSome};
ghost use Rattle.disk_model.specs.Identity.{IsBound};
ghost use Rattle.device_parts.specs.declared.condition.Condition.TheVariants.{Working};
ghost use Rattle.journal_device.specs.Device.{IsReady};

use device_opening::open_journal;
use device_parts::{Condition, Served};
use hmac_tag::Hash;
use image_formatting::{ImageMode, NewImage, Padding, Wipe, format};
use image_judging::Consent;
use journal_device::{JournalParts, close, serve};
use request_slots::{Bytes, Reply, Request, Ticket};
use sector_disk::{Disk, Failed, MemDisk};
use sector_pool::Region;
use std::alloc::{AllocError, Global};
use std::test::Fail;

/// What the image is to be: a journal of one section, of 8 metadata sectors and 80 entries of one sector.
const SMALL: NewImage = NewImage {
    tag_size: 32,
    log2_spb: 0,
    log2_interleave: 3,
    mode: ImageMode::Journal,
    sections: 1,
    log2_region: 15,
    salt: None,
    padding: Padding::Fixed,
    wipe: Wipe::Kept,
};

/// How many entries its journal has.
const ENTRIES: u64 = 80;

/// A disk with a new image.
fn new_disk(alloc: Global) -> Result<MemDisk, Fail> {
    let mut disk = MemDisk::new(alloc, 512, 2000)?;
    format(alloc, &mut disk, Hash::Sha256, SMALL)?;
    Ok(disk)
}

/// A disk with a new image whose tags are to be recalculated.
fn awaiting_disk(alloc: Global) -> Result<MemDisk, Fail> {
    let mut disk = MemDisk::new(alloc, 512, 2000)?;
    let new = NewImage {
        wipe: Wipe::Recalculated,
        ..SMALL
    };
    format(alloc, &mut disk, Hash::Sha256, new)?;
    Ok(disk)
}

/// The lowest byte of the flags in sector 0.
fn flags_on<D: Disk>(disk: &mut D) -> Result<u8, Failed>
    requires { IsBound (D.identity disk.old).name }
{
    let mut sector = [0; 512];
    if disk.sectors() == 0 {
        return Err(Failed);
    }
    disk.read_run(0, &mut sector)?;
    Ok(sector[24])
}

/// A write of so many blocks from block 5 on, whose bytes are all this one.
fn write_of(alloc: Global, count: u16, byte: u8, fua: bool) -> Result<Request, AllocError> {
    Ok(Request::Write {
        first: 5,
        count: count as u64,
        bytes: Bytes::from_vec(Vec::from_elem(alloc, byte, 512 * count as usize)?),
        fua,
    })
}

/// A read of block 5.
fn read_of(alloc: Global) -> Result<Request, AllocError> {
    Ok(Request::Read {
        first: 5,
        count: 1,
        buffer: Bytes::from_vec(Vec::from_elem(alloc, 0, 512)?),
    })
}

/// Opens a device on a disk.
fn open_device<'p, D: Disk>(
    alloc: Global,
    disk: &mut D,
    region: &'p mut Region,
) -> Option<JournalParts<'p>>
    requires { IsBound (D.identity disk.old).name }

    ensures { IfSome result (λ device. IsReady Working device.parts device.state
        (D.identity disk.new) (D.moments disk.new)) }
{
    open_journal(alloc, disk, Hash::Sha256, Consent::Withheld, region).ok()
}

/// Submits a request.
fn submit<D: Disk>(
    disk: &D,
    device: &mut JournalParts<'_>,
    condition: Condition,
    request: Request,
) -> Option<Ticket>
    requires { IsReady condition device.old.parts device.old.state
        (D.identity disk.now) (D.moments disk.now) }

    ensures { IsReady condition device.new.parts device.new.state
        (D.identity disk.now) (D.moments disk.now) }
{
    if !device.parts.slots.has_ticket() {
        return None;
    }
    device.parts.slots.submit(request).ok()
}

/// Serves a request once, if it is in flight.
fn serve_once<D: Disk>(
    disk: &mut D,
    device: &mut JournalParts<'_>,
    condition: &mut Condition,
    ticket: &Ticket,
) -> Option<Served>
    requires { IsReady condition.old device.old.parts device.old.state
        (D.identity disk.old) (D.moments disk.old) }

    ensures { IsReady condition.new device.new.parts device.new.state
        (D.identity disk.new) (D.moments disk.new) }
{
    if !device.parts.slots.holds(ticket) {
        return None;
    }
    match *condition {
        Condition::Broken => None,
        Condition::Working => match serve(disk, &mut device.parts, &mut device.state, ticket) {
            Ok(served) => Some(served),
            Err(_) => {
                *condition = Condition::Broken;
                None
            }
        },
    }
}

/// Serves a request until that does anything else than one block of many. Tells what it did, and after how many blocks.
fn serve_on<D: Disk>(
    disk: &mut D,
    device: &mut JournalParts<'_>,
    condition: &mut Condition,
    ticket: &Ticket,
) -> (Option<Served>, u64)
    requires { IsReady condition.old device.old.parts device.old.state
        (D.identity disk.old) (D.moments disk.old) }

    ensures { IsReady condition.new device.new.parts device.new.state
        (D.identity disk.new) (D.moments disk.new) }
{
    for count in 0..2 * ENTRIES {
        let served = serve_once(disk, device, condition, ticket);
        if !matches!(served, Some(Served::Did)) {
            return (served, count);
        }
    }
    (None, 0)
}

/// The reply to a request, if it gets one.
fn reply_to<D: Disk>(
    disk: &mut D,
    device: &mut JournalParts<'_>,
    condition: &mut Condition,
    request: Request,
) -> Option<Reply>
    requires { IsReady condition.old device.old.parts device.old.state
        (D.identity disk.old) (D.moments disk.old) }

    ensures { IsReady condition.new device.new.parts device.new.state
        (D.identity disk.new) (D.moments disk.new) }
{
    let ticket = submit(disk, device, *condition, request)?;
    let (Some(Served::Done), _) = serve_on(disk, device, condition, &ticket) else {
        return None;
    };
    if !device.parts.slots.holds(&ticket) {
        return None;
    }
    device.parts.slots.take(ticket).ok()
}

/// The byte that the block has that was read, where its tag is that of its bytes.
fn byte_of(reply: Option<Reply>) -> Option<u8> {
    match reply {
        Some(Reply::Read { buffer }) => buffer.as_slice().first().copied(),
        _ => None,
    }
}

/// Closes a device whose journal holds block 5. Tells whether all was so.
fn close_journaled<D: Disk>(
    disk: &mut D,
    device: &mut JournalParts<'_>,
    condition: Condition,
) -> bool
    requires { IsReady condition device.old.parts device.old.state
        (D.identity disk.old) (D.moments disk.old) }
{
    device.state.journal.is_journaled(5) && close_device(disk, device, condition)
}

/// Closes a device. Tells whether that went well.
fn close_device<D: Disk>(disk: &mut D, device: &mut JournalParts<'_>, condition: Condition) -> bool
    requires { IsReady condition device.old.parts device.old.state
        (D.identity disk.old) (D.moments disk.old) }
{
    match condition {
        Condition::Broken => false,
        Condition::Working => close(disk, &mut device.parts, &mut device.state).is_ok(),
    }
}

/// Writes a block and flushes it, reads it and closes the device: the byte that was read, where all went well.
fn write_and_read<D: Disk>(alloc: Global, disk: &mut D) -> Result<Option<u8>, AllocError>
    requires { IsBound (D.identity disk.old).name }
{
    let write = write_of(alloc, 1, 0xaa, true)?;
    let read = read_of(alloc)?;
    let mut region = Region::new();
    let Some(mut device) = open_device(alloc, disk, &mut region) else {
        return Ok(None);
    };
    let mut condition = Condition::Working;
    let written = reply_to(disk, &mut device, &mut condition, write);
    let byte = byte_of(reply_to(disk, &mut device, &mut condition, read));
    let is_closed = close_journaled(disk, &mut device, condition);
    let is_written = matches!(written, Some(Reply::Written { .. }));
    Ok(if is_written && is_closed { byte } else { None })
}

/// The byte that the block has for a device of its own, where no journal holds it.
fn read_alone<D: Disk>(alloc: Global, disk: &mut D) -> Result<Option<u8>, AllocError>
    requires { IsBound (D.identity disk.old).name }
{
    let read = read_of(alloc)?;
    let mut region = Region::new();
    let Some(mut device) = open_device(alloc, disk, &mut region) else {
        return Ok(None);
    };
    if device.state.journal.is_journaled(5) {
        return Ok(None);
    }
    let mut condition = Condition::Working;
    Ok(byte_of(reply_to(disk, &mut device, &mut condition, read)))
}

/// Reads the block and closes the device: the byte that was read, where all went well.
fn read_and_close<D: Disk>(alloc: Global, disk: &mut D) -> Result<Option<u8>, AllocError>
    requires { IsBound (D.identity disk.old).name }
{
    let read = read_of(alloc)?;
    let mut region = Region::new();
    let Some(mut device) = open_device(alloc, disk, &mut region) else {
        return Ok(None);
    };
    let mut condition = Condition::Working;
    let byte = byte_of(reply_to(disk, &mut device, &mut condition, read));
    let is_closed = close_device(disk, &mut device, condition);
    Ok(if is_closed { byte } else { None })
}

#[test]
fn what_is_written_is_read_from_the_journal_and_then_from_its_place(
    rt: HostRuntime,
) -> Result<(), Fail> {
    let mut disk = new_disk(rt.alloc())?;
    assert_eq!(rt; write_and_read(rt.alloc(), &mut disk)?, Some(0xaa));
    assert_eq!(rt; read_alone(rt.alloc(), &mut disk)?, Some(0xaa));
    Ok(())
}

#[test]
fn an_image_that_was_closed_is_opened_without_a_write(rt: HostRuntime) -> Result<(), Fail> {
    let mut disk = new_disk(rt.alloc())?;
    assert_eq!(rt; write_and_read(rt.alloc(), &mut disk)?, Some(0xaa));
    // The first sector write would stop the disk, so that the calls behind it fail.
    disk.stop_after(1);
    assert_eq!(rt; read_alone(rt.alloc(), &mut disk)?, Some(0xaa));
    assert_eq!(rt; read_alone(rt.alloc(), &mut disk)?, Some(0xaa));
    Ok(())
}

#[test]
fn a_region_is_recalculated_once_its_block_is_read_from_its_place(
    rt: HostRuntime,
) -> Result<(), Fail> {
    // The image has one region. No write gave the block its tag.
    let mut disk = awaiting_disk(rt.alloc())?;
    assert_eq!(rt; flags_on(&mut disk)?, 0x0a);
    assert_eq!(rt; read_alone(rt.alloc(), &mut disk)?, Some(0));
    // Of a block that the journal holds nothing is recalculated, so the region awaits still.
    assert_eq!(rt; write_and_read(rt.alloc(), &mut disk)?, Some(0xaa));
    assert_eq!(rt; flags_on(&mut disk)?, 0x0a);
    assert_eq!(rt; read_and_close(rt.alloc(), &mut disk)?, Some(0xaa));
    assert_eq!(rt; flags_on(&mut disk)?, 0x08);
    Ok(())
}
