//! Checks of the small image, with bad blocks in place, in the journal and behind it.
ghost use Rattle.std.specs.Prelude.{◌≡◌};
ghost use Rattle.disk_model.specs.Identity.{IsBound};

use commit_id::id;
use hmac_tag::Hash;
use image_check::{Bad, CheckedImage, Report, What, check};
use sector_disk::{Disk, Failed, MemDisk};
use sha2::{Digest, Sha256};
use std::alloc::Global;
use std::test::Fail;

const SECTORS: u64 = 256;

/// The first bytes of the small image, of 256 sectors with interleave 8 and one section, as `integritysetup format
/// --integrity-legacy-hmac` writes them.
///
/// By the formulas of the layout the journal has sectors 8 to 95, and each area has 8 sectors of tags and 8 of data.
const SMALL_BYTES: [u8; 32] = [
    0x69, 0x6e, 0x74, 0x65, 0x67, 0x72, 0x74, 0x00, 0x04, 0x03, 0x20, 0x00, 0x01, 0x00, 0x00, 0x00,
    0x50, 0x00, 0x00, 0x00, 0x00, 0x00, 0x00, 0x00, 0x08, 0x00, 0x00, 0x00, 0x00, 0x0f, 0x00, 0x00,
];

/// The SHA-256 of the number 5 in 8 bytes, the lowest first, and 512 bytes aa: by Python's `hashlib`.
const ENTRY_TAG: [u8; 32] = [
    0xb5, 0x55, 0xb8, 0x33, 0x71, 0xaf, 0x21, 0x41, 0xdf, 0x2f, 0xad, 0xe2, 0xf5, 0xa7, 0x98, 0x9d,
    0x66, 0x72, 0xa4, 0x90, 0x11, 0x86, 0x4e, 0x3f, 0x7a, 0x98, 0x42, 0x75, 0xeb, 0xb7, 0x4b, 0xd0,
];

/// The SHA-256 of the number 17 and 512 zeros, and that of it and 512 bytes 01: by Python's `hashlib`.
const ZEROS_TAG: [u8; 32] = [
    0xcb, 0x65, 0x98, 0x86, 0x70, 0x49, 0xdf, 0xe8, 0x51, 0xf2, 0x57, 0x37, 0xb2, 0x44, 0xae, 0x96,
    0x03, 0xd5, 0x5a, 0xb9, 0xe7, 0xf7, 0x49, 0xb8, 0x35, 0x13, 0x34, 0xf3, 0x12, 0x09, 0xb4, 0x53,
];

const ONES_TAG: [u8; 32] = [
    0x40, 0xcc, 0xa6, 0x18, 0x8c, 0xc9, 0xcb, 0xf1, 0x25, 0x29, 0x61, 0x90, 0xaf, 0xbe, 0x65, 0xd4,
    0x2b, 0xcb, 0xfe, 0xac, 0xef, 0x3f, 0x62, 0x54, 0xad, 0x6e, 0xf0, 0xe0, 0xd6, 0x22, 0x1d, 0xd4,
];

/// The tag of a block of zeros.
fn zero_tag(block: u64) -> [u8; 32] {
    let mut hasher = Sha256::new();
    hasher.update(block.to_le_bytes());
    hasher.update([0; 512]);
    hasher.finalize()
}

/// Sector `j` of a section with one entry, of block 5 with 512 bytes aa, under the number 1. The bytes follow from
/// the format.
fn journal_sector(j: u64) -> [u8; 512] {
    let mut bytes = [0; 512];
    if j < 8 {
        for n in 0..10 {
            bytes[48 * n + 4..48 * n + 8].fill(0xff);
        }
    }
    if j == 0 {
        bytes[..8].copy_from_slice(&[5, 0, 0, 0, 0, 0, 0, 0]);
        bytes[8..16].fill(0xaa);
        bytes[16..48].copy_from_slice(&ENTRY_TAG);
    }
    if j == 8 {
        bytes[..504].fill(0xaa);
    }
    if j < 88 {
        bytes[504..].copy_from_slice(&id(0, j, 1).to_le_bytes());
    }
    bytes
}

/// The sector of the tags of an area.
fn tag_sector(area: u64) -> [u8; 512] {
    let mut bytes = [0; 512];
    for n in 0..8 {
        let block = (area % 10) * 8 + n as u64;
        bytes[32 * n..32 * n + 32].copy_from_slice(&zero_tag(block));
    }
    bytes
}

/// A sector of the small image whose blocks have zeros, and whose journal has that entry.
fn small_sector(at: u64) -> [u8; 512] {
    let mut bytes = [0; 512];
    if at == 0 {
        bytes[..32].copy_from_slice(&SMALL_BYTES);
    }
    if (8..96).contains(&at) {
        return journal_sector(at - 8);
    }
    if at >= 96 && at % 16 == 0 {
        return tag_sector(at / 16 - 6);
    }
    bytes
}

/// Writes one sector.
fn write(disk: &mut MemDisk, at: u64, bytes: &[u8; 512]) -> Result<(), Failed> {
    if at >= disk.sectors() {
        return Err(Failed);
    }
    disk.write_run(at, bytes)
}

/// A disk with this image, and all bytes of some sectors changed to one.
fn disk_with(alloc: Global, changes: &[(u64, u8)]) -> Result<MemDisk, Fail> {
    let mut disk = MemDisk::new(alloc, SECTORS, 2 * SECTORS)?;
    for at in 0..SECTORS {
        write(&mut disk, at, &small_sector(at))?;
    }
    for (at, byte) in changes {
        write(&mut disk, *at, &[*byte; 512])?;
    }
    Ok(disk)
}

/// Block 5 lies at sector 109, block 17 at 137, and the tags of the last eight blocks at 240.
const BAD_PLACES: [(u64, u8); 2] = [(109, 1), (137, 1)];

/// The numbers of the blocks that are told.
fn numbers(alloc: Global, report: &Report) -> Result<Vec<u64>, Fail> {
    let mut numbers = Vec::new(alloc);
    for bad in &report.bad {
        numbers.push(bad.block)?;
    }
    Ok(numbers)
}

/// The first bad block from a block on, of an image that is opened for it. One that is refused fails.
fn first_bad<D: Disk>(
    alloc: Global,
    disk: &mut D,
    what: What,
    from: u64,
) -> Result<Option<Bad>, Failed>
    requires { IsBound (D.identity disk.old).name }

    ensures identity { D.identity disk.new ≡ D.identity disk.old }
{
    let Ok(mut image) = CheckedImage::open(alloc, disk, Hash::Sha256, what) else {
        return Err(Failed);
    };
    image.next_bad(disk, from)
}

#[test]
fn bad_blocks_are_told_in_order(rt: HostRuntime) -> Result<(), Fail> {
    let mut disk = disk_with(rt.alloc(), &BAD_PLACES)?;
    let report = check(rt.alloc(), &mut disk, Hash::Sha256, What::Placed)?;
    assert_eq!(rt;
        numbers(rt.alloc(), &report)?.as_slice(),
        [5, 17].as_slice()
    );
    // The journal has block 5 again, so that what is placed of it does not count.
    let report = check(rt.alloc(), &mut disk, Hash::Sha256, What::Cells)?;
    assert_eq!(rt; numbers(rt.alloc(), &report)?.as_slice(), [17].as_slice());
    let Some(bad) = report.bad.first() else {
        return Err(Fail::from("no bad block"));
    };
    assert_eq!(rt; bad.stored.bytes(), ZEROS_TAG.as_slice());
    assert_eq!(rt; bad.computed.bytes(), ONES_TAG.as_slice());
    Ok(())
}

#[test]
fn the_next_bad_block_is_told(rt: HostRuntime) -> Result<(), Fail> {
    let mut disk = disk_with(rt.alloc(), &BAD_PLACES)?;
    for (from, wanted) in [(0, 5), (5, 5), (6, 17), (17, 17)] {
        let Some(bad) = first_bad(rt.alloc(), &mut disk, What::Placed, from)? else {
            return Err(Fail::from("no bad block"));
        };
        assert_eq!(rt; bad.block, wanted);
    }
    for from in [18, 80, 1000] {
        assert!(rt; first_bad(rt.alloc(), &mut disk, What::Placed, from)?.is_none());
    }
    // All tags of the last area are other ones.
    let mut disk = disk_with(rt.alloc(), &[(240, 7)])?;
    let Some(bad) = first_bad(rt.alloc(), &mut disk, What::Cells, 79)? else {
        return Err(Fail::from("no bad block"));
    };
    assert_eq!(rt; bad.block, 79);
    assert_eq!(rt; bad.stored.bytes(), [7; 32].as_slice());
    Ok(())
}

#[test]
fn a_block_that_is_to_be_recalculated_is_counted_and_not_judged(
    rt: HostRuntime,
) -> Result<(), Fail> {
    // The flag is bit 1 of byte 24 of the first sector, and bytes 32 to 39 tell the sector from which on.
    let rows: [(u8, &[u64], u64); 4] = [
        (0, &[], 80),
        (17, &[], 63),
        (18, &[17], 62),
        (80, &[17], 0),
    ];
    for (from, cells, awaiting) in rows {
        let mut disk = disk_with(rt.alloc(), &BAD_PLACES)?;
        let mut head = small_sector(0);
        head[24] = 0x0a;
        head[32] = from;
        write(&mut disk, 0, &head)?;
        let report = check(rt.alloc(), &mut disk, Hash::Sha256, What::Cells)?;
        assert_eq!(rt;
            numbers(rt.alloc(), &report)?.as_slice(),
            cells,
            "from {from}"
        );
        assert_eq!(rt; report.awaiting, awaiting, "from {from}");
        let report = check(rt.alloc(), &mut disk, Hash::Sha256, What::Placed)?;
        assert_eq!(rt;
            numbers(rt.alloc(), &report)?.as_slice(),
            [5, 17].as_slice(),
            "from {from}"
        );
        assert_eq!(rt; report.awaiting, awaiting, "from {from}");
    }
    Ok(())
}
