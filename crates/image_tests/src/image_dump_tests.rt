//! What the small image in memory shows.
use commit_id::id;
use image_dump::{dump, dump_text};
use sector_disk::{Disk, MemDisk};
use std::alloc::Global;
use std::test::Fail;

/// Bytes 0 to 31 of the small image, as `integritysetup format --integrity-legacy-hmac` writes them. All others
/// of its first sector are zeros.
const SMALL_BYTES: [u8; 32] = [
    0x69, 0x6e, 0x74, 0x65, 0x67, 0x72, 0x74, 0x00, 0x04, 0x03, 0x20, 0x00, 0x01, 0x00, 0x00, 0x00,
    0x50, 0x00, 0x00, 0x00, 0x00, 0x00, 0x00, 0x00, 0x08, 0x00, 0x00, 0x00, 0x00, 0x0f, 0x00, 0x00,
];

/// The lines of the small image, fresh from its format. The numbers follow from the formulas of the layout.
const SMALL_TEXT: &str = "version 4
interleave 8
tag 32
sections 1
provided 80
flags 0x8
block 512
log2 blocks per bit 15
recalculate 0
salt 00000000000000000000000000000000
initial 96
tag run 8
section entries 80
section sectors 88
blocks 80
journal rest next 0 number 1
";

/// The sectors of a section of the small image.
const SECTORS: u64 = 88;

/// The number of sector `k` of a journal with so many sectors of each number in turn. Others have none; 4 is none.
fn number_at(runs: &[(u64, u8)], k: u64) -> Option<u8> {
    let mut left = k;
    for (count, number) in runs {
        if left < *count {
            return Some(*number);
        }
        left -= *count;
    }
    None
}

/// Sector `k` of a journal: zeros, and behind them the commit id of this number, if there is one.
fn journal_sector(k: u64, number: Option<u8>) -> [u8; 512] {
    let mut bytes = [0; 512];
    if let Some(number) = number {
        if number < 4 && k < 1 << 20 {
            let id = id(k / SECTORS, k % SECTORS, number).to_le_bytes();
            bytes[504..].copy_from_slice(&id);
        }
    }
    bytes
}

/// Writes a sector, where the disk has it.
fn write(disk: &mut MemDisk, at: u64, bytes: &[u8; 512]) -> Result<(), Fail> {
    if at >= disk.sectors() {
        return Err(Fail::from("the disk has no such sector"));
    }
    disk.write_run(at, bytes)?;
    Ok(())
}

/// The small image with these bytes in its first sector, so many sections, and so many journal sectors of each
/// number in turn. Its disk has had one call for its first sector, and one for each of the journal.
fn image(
    alloc: Global,
    changes: &[(usize, u8)],
    sections: u8,
    runs: &[(u64, u8)],
) -> Result<MemDisk, Fail> {
    let journal = SECTORS * sections as u64;
    let mut disk = MemDisk::new(alloc, journal + 168, journal + 1)?;
    let mut first = [0; 512];
    first[..32].copy_from_slice(&SMALL_BYTES);
    first[12] = sections;
    for (at, byte) in changes {
        if let Some(place) = first.get_mut(*at) {
            *place = *byte;
        }
    }
    write(&mut disk, 0, &first)?;
    for k in 0..journal {
        write(&mut disk, 8 + k, &journal_sector(k, number_at(runs, k)))?;
    }
    Ok(disk)
}

/// The text of what a disk shows.
fn text_of(alloc: Global, disk: &mut MemDisk) -> Result<Vec<u8>, Fail> {
    let shown = dump(alloc, disk)?;
    Ok(dump_text(alloc, &shown)?)
}

#[test]
fn the_small_image_shows_16_lines(rt: HostRuntime) -> Result<(), Fail> {
    let mut disk = image(rt.alloc(), &[], 1, &[(88, 0)])?;
    let text = text_of(rt.alloc(), &mut disk)?;
    assert_eq!(rt; text.as_slice(), SMALL_TEXT.as_bytes());
    Ok(())
}

#[test]
fn a_blank_journal_is_told_with_its_number(rt: HostRuntime) -> Result<(), Fail> {
    // The 8 sectors that a bitmap would take are zero.
    let mut disk = image(rt.alloc(), &[], 1, &[(8, 4), (80, 3)])?;
    let text = text_of(rt.alloc(), &mut disk)?;
    assert!(rt;
        text.as_slice()
            .ends_with(b"\nblocks 80\njournal blank number 3\n")
    );
    // One more is.
    let mut disk = image(rt.alloc(), &[], 1, &[(9, 4), (79, 3)])?;
    assert!(rt; dump(rt.alloc(), &mut disk).is_err());
    Ok(())
}
