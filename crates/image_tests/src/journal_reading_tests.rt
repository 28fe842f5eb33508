//! Journals of the small image, read and judged.

use commit_id::{Plan, State, id};
use hmac_tag::{Hash, TagMaker};
use image_refusal::{CallFault, JournalFault};
use journal_reading::{JudgedJournal, judge_journal};
use layout::Geometry;
use sector_disk::{Disk, MemDisk};
use std::alloc::Global;
use std::test::Fail;
use superblock::{Super, judge};

/// The fields of the small image: 256 sectors with one section.
///
/// By the formulas of the layout an entry has 48 bytes, a metadata sector 10 of them, and a section 88 sectors.
const FIELDS: Super = Super {
    version: 4,
    log2_interleave: 3,
    tag_size: 32,
    sections: 1,
    provided: 80,
    flags: 0x8,
    log2_spb: 0,
    log2_region: 15,
    recalc_sector: 0,
    salt: [0; 16],
};

const SECTORS: u64 = 256;

/// The sectors of its journal.
const JOURNAL: u64 = 88;

/// The SHA-256 of the number 5 in 8 bytes, the lowest first, and 512 bytes aa: by Python's `hashlib`.
const TAG: [u8; 32] = [
    0xb5, 0x55, 0xb8, 0x33, 0x71, 0xaf, 0x21, 0x41, 0xdf, 0x2f, 0xad, 0xe2, 0xf5, 0xa7, 0x98, 0x9d,
    0x66, 0x72, 0xa4, 0x90, 0x11, 0x86, 0x4e, 0x3f, 0x7a, 0x98, 0x42, 0x75, 0xeb, 0xb7, 0x4b, 0xd0,
];

/// Sector `j` of a section with one entry, of block 5 with 512 bytes aa, under the number 1. The bytes follow from
/// the format.
fn journal_sector(j: u64) -> [u8; 512] {
    let mut bytes = [0; 512];
    if j < 8 {
        for n in 0..10 {
            bytes[48 * n + 4..48 * n + 8].fill(0xff);
        }
    }
    if j == 0 {
        bytes[..8].copy_from_slice(&[5, 0, 0, 0, 0, 0, 0, 0]);
        bytes[8..16].fill(0xaa);
        bytes[16..48].copy_from_slice(&TAG);
    }
    if j == 8 {
        bytes[..504].fill(0xaa);
    }
    if j < JOURNAL {
        bytes[504..].copy_from_slice(&id(0, j, 1).to_le_bytes());
    }
    bytes
}

/// A disk whose journal is that, with other bytes at some places of some sectors.
fn disk_with(alloc: Global, changes: &[(u64, usize, u8)]) -> Result<MemDisk, Fail> {
    let mut disk = MemDisk::new(alloc, SECTORS, JOURNAL)?;
    for j in 0..JOURNAL {
        let mut bytes = journal_sector(j);
        for (sector, at, byte) in changes {
            if *sector == j {
                if let Some(place) = bytes.get_mut(*at) {
                    *place = *byte;
                }
            }
        }
        if disk.sectors() == SECTORS {
            disk.write_run(8 + j, &bytes)?;
        }
    }
    Ok(disk)
}

/// Sector `j` of an empty section of this number, or of one where entry 79 stands in sector 7, of block 0.
fn empty_sector(j: u64, number: u8, is_used: bool) -> [u8; 512] {
    let mut bytes = [0; 512];
    if j < 8 {
        for n in 0..10 {
            bytes[48 * n + 4..48 * n + 8].fill(0xff);
        }
    }
    if is_used && j == 7 {
        bytes[436..440].fill(0);
    }
    if j < JOURNAL && number < 4 {
        bytes[504..].copy_from_slice(&id(0, j, number).to_le_bytes());
    }
    bytes
}

/// A disk with an empty journal of this number, or with that entry, and with zeros in the place of these of its sectors.
fn blank_disk(
    alloc: Global,
    number: u8,
    is_used: bool,
    zeros: (u64, u64),
) -> Result<MemDisk, Fail> {
    let mut disk = MemDisk::new(alloc, SECTORS, JOURNAL)?;
    for j in 0..JOURNAL {
        let mut bytes = empty_sector(j, number, is_used);
        if zeros.0 <= j && j < zeros.1 {
            bytes.fill(0);
        }
        if disk.sectors() == SECTORS {
            disk.write_run(8 + j, &bytes)?;
        }
    }
    Ok(disk)
}

/// What a disk's journal is judged to be.
fn judged(
    alloc: Global,
    disk: &mut MemDisk,
) -> Result<Result<JudgedJournal, CallFault<JournalFault>>, Fail> {
    judge(&FIELDS)?;
    let geometry = Geometry::new(&FIELDS, disk.sectors())?;
    let maker = TagMaker::new(Hash::Sha256, None, 32);
    if geometry.initial() != 8 + JOURNAL || geometry.shape().tag != 32 {
        return Err(Fail::from("geometry"));
    }
    Ok(judge_journal(alloc, disk, &geometry, &maker))
}

#[test]
fn an_entry_with_its_own_tag_may_be_replayed(rt: HostRuntime) -> Result<(), Fail> {
    let mut disk = disk_with(rt.alloc(), &[])?;
    let Ok(journal) = judged(rt.alloc(), &mut disk)? else {
        return Err(Fail::from("refused"));
    };
    let state = State::Rest { next: 0, number: 2 };
    let walk = [(0, 0), (0, 1)];
    assert_eq!(rt; journal.plan, Plan { state, walk });
    assert_eq!(rt; journal.count, 1);
    assert_eq!(rt; journal.newest.newest(5), Some(0));
    assert_eq!(rt; journal.newest.newest(6), None);
    Ok(())
}

#[test]
fn a_journal_is_blank_where_zero_sectors_are_a_bitmaps(rt: HostRuntime) -> Result<(), Fail> {
    // The number of the sectors, whether the entry is used, which sectors are zero, and the number where it is blank. A
    // bitmap would take 8 sectors.
    let rows = [
        (0, false, (0, 2), Some(0)),
        (3, false, (0, 3), Some(3)),
        (2, false, (0, 8), Some(2)),
        (1, false, (4, 5), Some(1)),
        // The entry stands in a zero sector, and then outside of the zero ones.
        (1, true, (7, 8), Some(1)),
        (1, true, (6, 7), None),
        // Sector 8 is none of a bitmap's.
        (1, false, (0, 9), None),
        (1, false, (8, 9), None),
    ];
    for (number, is_used, zeros, blank) in rows {
        let mut disk = blank_disk(rt.alloc(), number, is_used, zeros)?;
        let told = match judged(rt.alloc(), &mut disk)? {
            Ok(journal) => Some(journal.plan.state),
            Err(_) => None,
        };
        let wanted = blank.map(|number| State::Blank { number });
        assert_eq!(rt; told, wanted, "number {number}, zeros {zeros:?}");
    }
    Ok(())
}
