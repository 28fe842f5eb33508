//! A salvage of a small image, one of whose blocks is bad.
use hmac_tag::Hash;
use image_formatting::{ImageMode, NewImage, Padding, Wipe, format};
use image_salvage::Salvage;
use sector_disk::{Disk, Failed, MemDisk};
use std::test::Fail;

/// Eight blocks of 512 bytes, on 112 sectors: by the formulas of the layout their tags stand in sector 96, and they in the
/// sectors from 104 on.
const EIGHT: NewImage = NewImage {
    tag_size: 32,
    log2_spb: 0,
    log2_interleave: 3,
    mode: ImageMode::Journal,
    sections: 1,
    log2_region: 15,
    salt: None,
    padding: Padding::Fixed,
    wipe: Wipe::Wiped,
};

/// The SHA-256 of the number 1 and 512 zeros, and that of it and 512 bytes 01: by Python's `hashlib`.
const ZEROS_TAG: [u8; 32] = [
    0xdd, 0xfb, 0xbf, 0xa5, 0xd9, 0x35, 0x3b, 0x8d, 0xb3, 0x87, 0xed, 0xfb, 0x6f, 0x57, 0x0d, 0xae,
    0xc6, 0xa4, 0x31, 0xe7, 0x69, 0xb6, 0xd0, 0xaf, 0x0a, 0xb4, 0x97, 0x7d, 0xb0, 0x62, 0xcd, 0xdb,
];

const ONES_TAG: [u8; 32] = [
    0x38, 0xd1, 0x10, 0x4d, 0x70, 0x26, 0x1d, 0x35, 0x8b, 0x54, 0x06, 0x80, 0x18, 0x0a, 0xd1, 0x8a,
    0x3c, 0x71, 0x44, 0xa3, 0x1e, 0x36, 0x67, 0x1f, 0xa8, 0xe3, 0xcf, 0xde, 0x2c, 0x10, 0x42, 0xe7,
];

/// Gives block 1 other bytes than its tag is of.
fn spoil(disk: &mut MemDisk) -> Result<(), Failed> {
    if disk.sectors() < 106 {
        return Err(Failed);
    }
    disk.write_run(105, &[1; 512])
}

#[test]
fn blocks_are_told_in_order(rt: HostRuntime) -> Result<(), Fail> {
    let mut disk = MemDisk::new(rt.alloc(), 112, 1000)?;
    assert_eq!(rt; format(rt.alloc(), &mut disk, Hash::Sha256, EIGHT), Ok(8));
    spoil(&mut disk)?;
    let Ok(mut salvage) = Salvage::open(rt.alloc(), &mut disk, Hash::Sha256) else {
        return Err(Fail::from("the image is refused"));
    };
    assert_eq!(rt; salvage.blocks(), 8);
    let mut bytes = Vec::from_elem(rt.alloc(), 7, salvage.block_size())?;
    let Some(first) = salvage.next(&mut bytes)? else {
        return Err(Fail::from("no first block"));
    };
    assert!(rt; first.block == 0 && first.is_good());
    assert_eq!(rt; bytes.as_slice(), [0; 512].as_slice());
    let Some(second) = salvage.next(&mut bytes)? else {
        return Err(Fail::from("no second block"));
    };
    assert!(rt; second.block == 1 && !second.is_good());
    assert_eq!(rt; second.stored.bytes(), ZEROS_TAG.as_slice());
    assert_eq!(rt; second.computed.bytes(), ONES_TAG.as_slice());
    assert_eq!(rt; bytes.as_slice(), [1; 512].as_slice());
    Ok(())
}
