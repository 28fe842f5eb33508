//! What the small image tells, and the same with a bitmap.
ghost use Rattle.std.specs.Prelude.{◌≤◌};

use image_format::read_format;
use sector_disk::{Disk, MemDisk};
use std::alloc::Global;
use std::test::Fail;
use superblock::Super;

/// The fields of the small image: 256 sectors, interleave 8, one section.
const SMALL: Super = Super {
    version: 4,
    log2_interleave: 3,
    tag_size: 32,
    sections: 1,
    provided: 80,
    flags: 0x8,
    log2_spb: 0,
    log2_region: 15,
    recalc_sector: 0,
    salt: [0; 16],
};

/// Its bytes 0 to 31, as `integritysetup format --integrity-legacy-hmac` writes them. All others of the sector are
/// zeros.
const SMALL_BYTES: [u8; 32] = [
    0x69, 0x6e, 0x74, 0x65, 0x67, 0x72, 0x74, 0x00, 0x04, 0x03, 0x20, 0x00, 0x01, 0x00, 0x00, 0x00,
    0x50, 0x00, 0x00, 0x00, 0x00, 0x00, 0x00, 0x00, 0x08, 0x00, 0x00, 0x00, 0x00, 0x0f, 0x00, 0x00,
];

/// A disk of so many sectors, whose first is that of the small image with these bytes at these places.
fn small_disk(alloc: Global, sectors: u64, changes: &[(usize, u8)]) -> Result<MemDisk, Fail>
    requires { 1 ≤ sectors }
{
    let mut bytes = [0; 512];
    bytes[..32].copy_from_slice(&SMALL_BYTES);
    for (at, byte) in changes {
        if let Some(place) = bytes.get_mut(*at) {
            *place = *byte;
        }
    }
    let mut disk = MemDisk::new(alloc, sectors, 1)?;
    disk.write_run(0, &bytes)?;
    Ok(disk)
}

#[test]
fn the_small_image_is_told(rt: HostRuntime) -> Result<(), Fail> {
    let mut disk = small_disk(rt.alloc(), 256, &[])?;
    let format = read_format(&mut disk)?;
    assert_eq!(rt; format.fields, SMALL);
    assert!(rt; !format.has_bitmap());
    // By the formulas of the layout: data from sector 104 on, and the tags of the first area before them.
    assert_eq!(rt; format.geometry.blocks(), 80);
    assert_eq!(rt; format.geometry.tag_run(), 8);
    assert_eq!(rt; format.geometry.initial(), 96);
    Ok(())
}

#[test]
fn an_image_with_a_bitmap_is_told(rt: HostRuntime) -> Result<(), Fail> {
    let mut disk = small_disk(rt.alloc(), 256, &[(24, 0xc)])?;
    let format = read_format(&mut disk)?;
    assert_eq!(rt;
        format.fields,
        Super {
            flags: 0xc,
            ..SMALL
        }
    );
    assert!(rt; format.has_bitmap());
    Ok(())
}
