//! A device on images with a bitmap in memory: which bits its calls leave in bitmap mode, when consent is asked for,
//! what comes of a journal, and what the other modes make of a bitmap.
ghost use Rattle.std.specs.Prelude.{◌≡◌};
ghost use Rattle.disk_model.specs.Identity.{IsBound};

use crate::blank_journal_tests::has_id;
use crate::call_tests::{
    SMALL, Written, open_device, read_alone, reply_to, write_and_read, write_of,
};
use device::{Consent, OpenMode};
use device_opening::{open_bitmap, open_direct, open_journal};
use device_parts::{Actor, Moved};
use hmac_tag::{Hash, Key};
use image_formatting::{NewImage, format};
use image_model::{DIRTY_BITMAP, FIXED_PADDING};
use image_refusal::{CallFault, OpenFault};
use request_slots::Reply;
use sector_disk::{Disk, Failed, MemDisk};
use sector_pool::Region;
use std::alloc::{AllocError, Global};
use std::test::Fail;
use superblock::{Super, judge, write};

/// The first sector of the bitmap.
const BITMAP_AT: u64 = 8;

/// The sector of block 5: by the formulas of the layout its area has sectors 96 to 103 for tags.
const BLOCK_AT: u64 = 109;

/// The hash under a key.
fn under_key(alloc: Global) -> Result<Hash, Fail> {
    Ok(Hash::Hmac(Key::from_bytes(alloc, b"Jefe")?))
}

/// Writes a sector whose bytes are all this one.
fn fill_sector<D: Disk>(disk: &mut D, at: u64, byte: u8) -> Result<(), Failed>
    requires { IsBound (D.identity disk.old).name }

    ensures { D.identity disk.new ≡ D.identity disk.old }
{
    if at >= disk.sectors() {
        return Err(Failed);
    }
    disk.write_run(at, &[byte; 512])
}

/// The first byte of a sector, as the disk itself reads it.
fn byte_at<D: Disk>(disk: &mut D, at: u64) -> Result<u8, Failed>
    requires { IsBound (D.identity disk.old).name }
{
    let mut sector = [0; 512];
    if at >= disk.sectors() {
        return Err(Failed);
    }
    disk.read_run(at, &mut sector)?;
    Ok(sector[0])
}

/// The flags of the first sector, of which the lowest byte is at 24.
fn flags_of<D: Disk>(disk: &mut D) -> Result<u8, Failed>
    requires { IsBound (D.identity disk.old).name }
{
    let mut sector = [0; 512];
    if disk.sectors() == 0 {
        return Err(Failed);
    }
    disk.read_run(0, &mut sector)?;
    Ok(sector[24])
}

/// Writes the superblock of an image with a bitmap, in regions of one block.
fn put_fields<D: Disk>(disk: &mut D, provided: u64) -> Result<(), Fail>
    requires { IsBound (D.identity disk.old).name }

    ensures { D.identity disk.new ≡ D.identity disk.old }
{
    let fields = Super {
        version: 4,
        log2_interleave: 3,
        tag_size: 32,
        sections: 1,
        provided,
        flags: FIXED_PADDING | DIRTY_BITMAP,
        log2_spb: 0,
        log2_region: 0,
        recalc_sector: 0,
        salt: [0; 16],
    };
    judge(&fields)?;
    let mut head = [0; 512];
    write(&fields, &mut head);
    if disk.sectors() == 0 {
        return Err(Failed.into());
    }
    Ok(disk.write_run(0, &head)?)
}

/// A disk with a new image with a bitmap, of which no bit is set. Its regions have their bits in one sector.
fn new_disk(alloc: Global, hash: Hash) -> Result<MemDisk, Fail> {
    let mut disk = MemDisk::new(alloc, 512, 2000)?;
    let new = NewImage {
        log2_region: 0,
        ..SMALL
    };
    let provided = format(alloc, &mut disk, hash, new)?;
    put_fields(&mut disk, provided)?;
    fill_sector(&mut disk, BITMAP_AT, 0)?;
    Ok(disk)
}

/// Writes block 5 and flushes it, by a device that is not closed. Whether that was done.
fn write_alone<D: Disk>(
    alloc: Global,
    disk: &mut D,
    hash: Hash,
    mode: OpenMode,
) -> Result<bool, AllocError>
    requires { IsBound (D.identity disk.old).name }
{
    let write = write_of(alloc, 0xaa)?;
    let mut region = Region::new();
    let Some(mut device) = open_device(alloc, disk, &mut region, hash, mode) else {
        return Ok(false);
    };
    let written = reply_to(&mut device, write);
    let _ = device.give_back();
    Ok(matches!(written, Some(Reply::Written { .. })))
}

#[test]
fn a_write_sets_the_bit_of_its_region_and_a_clean_clears_it(rt: HostRuntime) -> Result<(), Fail> {
    let alloc = rt.alloc();
    let byte = Some(0xaa);
    let moved = Some(Moved::Did);
    let mode = OpenMode::Bitmap(Consent::Withheld);
    let mut disk = new_disk(alloc, Hash::Sha256)?;
    let written = write_and_read(alloc, &mut disk, mode, Actor::Clean)?;
    assert_eq!(rt; written, Some(Written { byte, moved }));
    assert_eq!(rt; byte_at(&mut disk, BITMAP_AT)?, 0);
    assert!(rt; write_alone(alloc, &mut disk, Hash::Sha256, mode)?);
    assert_eq!(rt; byte_at(&mut disk, BITMAP_AT)?, 0x20);
    let read = read_alone(alloc, &mut disk, Hash::Sha256, mode)?;
    assert_eq!(rt; read, byte);
    Ok(())
}

#[test]
fn a_set_bit_under_a_key_wants_consent(rt: HostRuntime) -> Result<(), Fail> {
    let alloc = rt.alloc();
    let withheld = OpenMode::Bitmap(Consent::Withheld);
    let mut disk = new_disk(alloc, under_key(alloc)?)?;
    assert!(rt; write_alone(alloc, &mut disk, under_key(alloc)?, withheld)?);
    // Bytes that no tag vouches for.
    fill_sector(&mut disk, BLOCK_AT, 0xbb)?;
    let key = under_key(alloc)?;
    let mut region = Region::new();
    let fault = open_bitmap(alloc, &mut disk, key, Consent::Withheld, &mut region).err();
    assert!(rt;
        matches!(
            fault,
            Some(CallFault::Refused(OpenFault::Consent { flags: 0xc }))
        )
    );
    assert_eq!(rt; byte_at(&mut disk, BITMAP_AT)?, 0x20);
    assert_eq!(rt; byte_at(&mut disk, BLOCK_AT)?, 0xbb);
    let given = OpenMode::Bitmap(Consent::Given);
    let read = read_alone(alloc, &mut disk, under_key(alloc)?, given)?;
    assert_eq!(rt; read, Some(0xbb));
    Ok(())
}

#[test]
fn a_journal_becomes_a_bitmap_and_back_and_its_entries_stay(rt: HostRuntime) -> Result<(), Fail> {
    let alloc = rt.alloc();
    let journal = OpenMode::Journal(Consent::Withheld);
    let bitmap = OpenMode::Bitmap(Consent::Withheld);
    let mut disk = crate::call_tests::new_disk(alloc)?;
    assert!(rt; write_alone(alloc, &mut disk, Hash::Sha256, journal)?);
    let read = read_alone(alloc, &mut disk, Hash::Sha256, bitmap)?;
    assert_eq!(rt; read, Some(0xaa));
    assert_eq!(rt; byte_at(&mut disk, BITMAP_AT)?, 0);
    // The flags are those of fixed padding and of a bitmap.
    assert_eq!(rt; flags_of(&mut disk)?, 0xc);
    let again = read_alone(alloc, &mut disk, Hash::Sha256, bitmap)?;
    assert_eq!(rt; again, Some(0xaa));
    let back = read_alone(alloc, &mut disk, Hash::Sha256, journal)?;
    assert_eq!(rt; back, Some(0xaa));
    assert_eq!(rt; flags_of(&mut disk)?, 0x8);
    Ok(())
}

/// A disk with a bitmap of which the bit of block 5 is set, and bytes in this block that no tag vouches for.
fn marked_disk(alloc: Global, hash: Hash, again: Hash) -> Result<MemDisk, Fail> {
    let mut disk = new_disk(alloc, hash)?;
    let mode = OpenMode::Bitmap(Consent::Withheld);
    if !write_alone(alloc, &mut disk, again, mode)? {
        return Err(Failed.into());
    }
    fill_sector(&mut disk, BLOCK_AT, 0xbb)?;
    Ok(disk)
}

#[test]
fn journal_mode_makes_a_journal_of_a_bitmap_and_writes_in_its_first_section(
    rt: HostRuntime,
) -> Result<(), Fail> {
    let alloc = rt.alloc();
    let journal = OpenMode::Journal(Consent::Withheld);
    let mut disk = marked_disk(alloc, Hash::Sha256, Hash::Sha256)?;
    assert_eq!(rt; byte_at(&mut disk, BITMAP_AT)?, 0x20);
    let read = read_alone(alloc, &mut disk, Hash::Sha256, journal)?;
    assert_eq!(rt; read, Some(0xbb));
    // The flag is that of fixed padding, and by the kernel's constants the number is 0.
    assert_eq!(rt; flags_of(&mut disk)?, 0x8);
    assert!(rt; has_id(&mut disk, 8, 0x11, 0x11)?);
    assert!(rt; has_id(&mut disk, 16, 0x19, 0x11)?);
    let written = write_and_read(alloc, &mut disk, journal, Actor::Place)?;
    assert!(rt; written.is_some());
    assert!(rt; has_id(&mut disk, 8, 0x22, 0x22)?);
    Ok(())
}

#[test]
fn direct_mode_makes_an_empty_journal_of_a_bitmap(rt: HostRuntime) -> Result<(), Fail> {
    let alloc = rt.alloc();
    let direct = OpenMode::Direct(Consent::Withheld);
    let mut disk = marked_disk(alloc, Hash::Sha256, Hash::Sha256)?;
    let read = read_alone(alloc, &mut disk, Hash::Sha256, direct)?;
    assert_eq!(rt; read, Some(0xbb));
    assert_eq!(rt; flags_of(&mut disk)?, 0x8);
    let written = write_and_read(alloc, &mut disk, direct, Actor::Place)?;
    assert!(rt; written.is_some());
    assert!(rt; has_id(&mut disk, 8, 0x11, 0x11)?);
    assert!(rt; has_id(&mut disk, 16, 0x19, 0x11)?);
    Ok(())
}

#[test]
fn a_set_bit_under_a_key_wants_consent_in_each_mode(rt: HostRuntime) -> Result<(), Fail> {
    let alloc = rt.alloc();
    let mut disk = marked_disk(alloc, under_key(alloc)?, under_key(alloc)?)?;
    let mut region = Region::new();
    let key = under_key(alloc)?;
    let fault = open_journal(alloc, &mut disk, key, Consent::Withheld, &mut region).err();
    assert!(rt;
        matches!(
            fault,
            Some(CallFault::Refused(OpenFault::Consent { flags: 0xc }))
        )
    );
    let key = under_key(alloc)?;
    let fault = open_direct(alloc, &mut disk, key, Consent::Withheld, &mut region).err();
    assert!(rt;
        matches!(
            fault,
            Some(CallFault::Refused(OpenFault::Consent { flags: 0xc }))
        )
    );
    assert_eq!(rt; flags_of(&mut disk)?, 0xc);
    assert_eq!(rt; byte_at(&mut disk, BITMAP_AT)?, 0x20);
    let given = OpenMode::Journal(Consent::Given);
    let read = read_alone(alloc, &mut disk, under_key(alloc)?, given)?;
    assert_eq!(rt; read, Some(0xbb));
    // No bit is set any more, and so no consent is asked for.
    let withheld = OpenMode::Direct(Consent::Withheld);
    let again = read_alone(alloc, &mut disk, under_key(alloc)?, withheld)?;
    assert_eq!(rt; again, Some(0xbb));
    Ok(())
}
