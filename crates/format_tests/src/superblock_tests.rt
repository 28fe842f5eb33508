//! Superblocks that others have written, and the versions that flags ask for.
mod kernel_images;

use kernel_images::KERNEL_IMAGES;
use std::test::Fail;
use superblock::{Super, read, version_for, write};

/// The fields of the small image: 256 sectors, interleave 8, one section.
const SMALL: Super = Super {
    version: 4,
    log2_interleave: 3,
    tag_size: 32,
    sections: 1,
    provided: 80,
    flags: 0x8,
    log2_spb: 0,
    log2_region: 15,
    recalc_sector: 0,
    salt: [0; 16],
};

/// Its bytes 0 to 63, as `integritysetup format --integrity-legacy-hmac` writes them.
const SMALL_BYTES: [u8; 64] = [
    0x69, 0x6e, 0x74, 0x65, 0x67, 0x72, 0x74, 0x00, 0x04, 0x03, 0x20, 0x00, 0x01, 0x00, 0x00, 0x00,
    0x50, 0x00, 0x00, 0x00, 0x00, 0x00, 0x00, 0x00, 0x08, 0x00, 0x00, 0x00, 0x00, 0x0f, 0x00, 0x00,
    0x00, 0x00, 0x00, 0x00, 0x00, 0x00, 0x00, 0x00, 0x00, 0x00, 0x00, 0x00, 0x00, 0x00, 0x00, 0x00,
    0x00, 0x00, 0x00, 0x00, 0x00, 0x00, 0x00, 0x00, 0x00, 0x00, 0x00, 0x00, 0x00, 0x00, 0x00, 0x00,
];

/// The sector that begins with these bytes, and is full of 0xa5 behind them.
fn sector(front: [u8; 64]) -> [u8; 512] {
    let mut bytes = [0xa5; 512];
    bytes[..64].copy_from_slice(&front);
    bytes
}

#[test]
fn the_small_image_is_read_and_written(rt: HostRuntime) {
    assert_eq!(rt; read(&sector(SMALL_BYTES)), Ok(SMALL));

    let mut bytes = [0xa5; 512];
    write(&SMALL, &mut bytes);
    assert_eq!(rt; bytes, sector(SMALL_BYTES));
}

#[test]
fn images_of_the_kernel_are_read_as_integritysetup_prints_them(
    rt: HostRuntime,
) -> Result<(), Fail> {
    for (i, image) in KERNEL_IMAGES.iter().enumerate() {
        let before = sector(image.bytes);
        let fields = read(&before)?;
        let salt = before[48..].first_chunk::<16>().ok_or("short")?;
        assert_eq!(rt; fields, image.fields(*salt), "image {i}");

        let mut after = before;
        write(&fields, &mut after);
        assert_eq!(rt; after, before, "image {i}");
    }
    Ok(())
}

#[test]
fn the_version_is_the_one_that_the_flags_need_and_none_below_the_one_read(rt: HostRuntime) {
    let rows = [
        (0x18, 1, 5),
        (0x8, 1, 4),
        (0xc, 1, 4),
        (0x6, 1, 3),
        (0x2, 1, 2),
        (0, 1, 1),
        (0x4, 4, 4),
        (0x8, 5, 5),
    ];
    for (flags, read, version) in rows {
        assert_eq!(rt; version_for(flags, read), version, "flags {flags}");
    }
}
