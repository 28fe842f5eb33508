//! A new image on a disk in memory.
use hmac_tag::Hash;
use image_format::read_format;
use image_formatting::{ImageMode, NewImage, Padding, Wipe, format};
use sector_disk::{Disk, Failed, MemDisk};
use sha2::{Digest, Sha256};
use std::alloc::Global;
use std::test::Fail;

/// What the small image is to be: interleave 8, one section.
const SMALL: NewImage = NewImage {
    tag_size: 32,
    log2_spb: 0,
    log2_interleave: 3,
    mode: ImageMode::Journal,
    sections: 1,
    log2_region: 15,
    salt: None,
    padding: Padding::Fixed,
    wipe: Wipe::Wiped,
};

/// Bytes 0 to 31 of its superblock, as `integritysetup format --integrity-legacy-hmac` writes them.
const SMALL_BYTES: [u8; 32] = [
    0x69, 0x6e, 0x74, 0x65, 0x67, 0x72, 0x74, 0x00, 0x04, 0x03, 0x20, 0x00, 0x01, 0x00, 0x00, 0x00,
    0x50, 0x00, 0x00, 0x00, 0x00, 0x00, 0x00, 0x00, 0x08, 0x00, 0x00, 0x00, 0x00, 0x0f, 0x00, 0x00,
];

/// A disk of so many sectors of the byte 0xee.
fn used_disk(alloc: Global, sectors: u64) -> Result<MemDisk, Fail> {
    let mut disk = MemDisk::new(alloc, sectors, 20000)?;
    for at in 0..sectors {
        if at < disk.sectors() {
            disk.write_run(at, &[0xee; 512])?;
        }
    }
    disk.sync()?;
    Ok(disk)
}

/// What a read of one sector gives.
fn sector_of(disk: &mut MemDisk, at: u64) -> Result<[u8; 512], Failed> {
    let mut sector = [0; 512];
    if at >= disk.sectors() {
        return Err(Failed);
    }
    disk.read_run(at, &mut sector)?;
    Ok(sector)
}

/// Whether the bytes stand in a sector, from byte `from` of it on.
fn has(disk: &mut MemDisk, at: u64, from: usize, bytes: &[u8]) -> Result<bool, Failed> {
    let sector = sector_of(disk, at)?;
    if from > sector.len() {
        return Err(Failed);
    }
    Ok(sector[from..].starts_with(bytes))
}

/// SHA-256 of a sector's number in 8 bytes, the lowest first, and so many zeros.
fn tag_of_zeros(sector: u64, block: &[u8]) -> [u8; 32] {
    let mut digest = Sha256::new();
    digest.update(sector.to_le_bytes());
    digest.update(block);
    digest.finalize()
}

#[test]
fn the_small_image_is_made(rt: HostRuntime) -> Result<(), Fail> {
    let mut disk = used_disk(rt.alloc(), 256)?;
    assert_eq!(rt; format(rt.alloc(), &mut disk, Hash::Sha256, SMALL), Ok(80));
    assert!(rt; has(&mut disk, 0, 0, &SMALL_BYTES)?);
    assert!(rt; has(&mut disk, 0, 32, &[0; 480])?);
    assert_eq!(rt; sector_of(&mut disk, 1)?, [0; 512]);
    assert_eq!(rt; sector_of(&mut disk, 7)?, [0; 512]);
    // Of the journal: an unused entry, and the commit ids of number 0.
    assert!(rt;
        has(
            &mut disk,
            8,
            0,
            &[0, 0, 0, 0, 0xff, 0xff, 0xff, 0xff, 0, 0, 0, 0]
        )?
    );
    assert!(rt; has(&mut disk, 8, 504, &[0x11; 8])?);
    assert!(rt; has(&mut disk, 95, 0, &[0; 504])?);
    assert!(rt;
        has(
            &mut disk,
            95,
            504,
            &[0x46, 0x11, 0x11, 0x11, 0x11, 0x11, 0x11, 0x11]
        )?
    );
    // Block 0 lies at sector 104 and its tag at sector 96, block 9 at 121 and its tag in 112.
    assert_eq!(rt; sector_of(&mut disk, 104)?, [0; 512]);
    assert_eq!(rt; sector_of(&mut disk, 121)?, [0; 512]);
    assert_eq!(rt; sector_of(&mut disk, 255)?, [0; 512]);
    assert!(rt; has(&mut disk, 96, 0, &tag_of_zeros(0, &[0; 512]))?);
    assert!(rt; has(&mut disk, 112, 32, &tag_of_zeros(9, &[0; 512]))?);
    // What no tag takes of their sectors stays.
    assert!(rt; has(&mut disk, 96, 256, &[0xee; 256])?);
    assert_eq!(rt; sector_of(&mut disk, 97)?, [0xee; 512]);
    assert_eq!(rt; read_format(&mut disk)?.geometry.blocks(), 80);
    Ok(())
}

#[test]
fn a_bitmap_takes_the_first_sectors_of_the_journal(rt: HostRuntime) -> Result<(), Fail> {
    let mut disk = used_disk(rt.alloc(), 256)?;
    let new = NewImage {
        mode: ImageMode::Bitmap,
        ..SMALL
    };
    assert_eq!(rt; format(rt.alloc(), &mut disk, Hash::Sha256, new), Ok(80));
    assert!(rt; has(&mut disk, 0, 8, &[4])?);
    assert!(rt; has(&mut disk, 0, 24, &[0x0c, 0, 0, 0])?);
    assert_eq!(rt; sector_of(&mut disk, 8)?, [0; 512]);
    assert_eq!(rt; sector_of(&mut disk, 15)?, [0; 512]);
    // Behind it stand the sectors of an empty section, from its ninth one on.
    assert!(rt; has(&mut disk, 16, 0, &[0; 504])?);
    assert!(rt;
        has(
            &mut disk,
            16,
            504,
            &[0x19, 0x11, 0x11, 0x11, 0x11, 0x11, 0x11, 0x11]
        )?
    );
    assert!(rt;
        has(
            &mut disk,
            95,
            504,
            &[0x46, 0x11, 0x11, 0x11, 0x11, 0x11, 0x11, 0x11]
        )?
    );
    assert!(rt; has(&mut disk, 96, 0, &tag_of_zeros(0, &[0; 512]))?);
    let format = read_format(&mut disk)?;
    assert!(rt; format.has_bitmap());
    assert_eq!(rt; format.geometry.blocks(), 80);
    Ok(())
}

#[test]
fn tags_that_are_to_be_recalculated_are_told_by_the_flag_and_the_bits(
    rt: HostRuntime,
) -> Result<(), Fail> {
    let mut disk = used_disk(rt.alloc(), 256)?;
    let new = NewImage {
        wipe: Wipe::Recalculated,
        ..SMALL
    };
    assert_eq!(rt; format(rt.alloc(), &mut disk, Hash::Sha256, new), Ok(80));
    assert!(rt; has(&mut disk, 0, 8, &[4])?);
    assert!(rt; has(&mut disk, 0, 24, &[0x0a, 0, 0, 0])?);
    assert!(rt; has(&mut disk, 0, 32, &[0; 8])?);
    assert!(rt; has(&mut disk, 8, 504, &[0x11; 8])?);
    // Neither data nor tags are written.
    assert_eq!(rt; sector_of(&mut disk, 96)?, [0xee; 512]);
    assert_eq!(rt; sector_of(&mut disk, 104)?, [0xee; 512]);
    assert_eq!(rt; read_format(&mut disk)?.fields.recalc_sector, 0);

    // With a bitmap each of five regions has its bit.
    let with_bitmap = NewImage {
        mode: ImageMode::Bitmap,
        log2_region: 4,
        ..new
    };
    assert_eq!(rt;
        format(rt.alloc(), &mut disk, Hash::Sha256, with_bitmap),
        Ok(80)
    );
    assert!(rt; has(&mut disk, 0, 24, &[0x0e, 0, 0, 0])?);
    assert!(rt; has(&mut disk, 8, 0, &[0x1f, 0, 0, 0])?);
    assert!(rt; has(&mut disk, 8, 4, &[0; 508])?);
    assert_eq!(rt; sector_of(&mut disk, 15)?, [0; 512]);
    assert!(rt;
        has(
            &mut disk,
            16,
            504,
            &[0x19, 0x11, 0x11, 0x11, 0x11, 0x11, 0x11, 0x11]
        )?
    );
    assert_eq!(rt; sector_of(&mut disk, 104)?, [0xee; 512]);
    Ok(())
}
