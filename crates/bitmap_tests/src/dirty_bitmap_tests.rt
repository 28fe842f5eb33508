//! The bits of a disk in memory: where they come to lie, which calls are made, and what a failure leaves.
ghost use Rattle.std.specs.Prelude.{◌≡◌, IfOk};
ghost use Rattle.disk_model.specs.Identity.{IsBound};
ghost use Rattle.image_model.specs.Geometry.{IsGeometry, bitmap_sectors, journal_sectors};

use crate::places::{byte_of, geometry_on};
use dirty_bitmap::{Bits, BitsFault};
use sector_disk::{Disk, Failed, MemDisk};
use std::alloc::Global;
use std::test::Fail;
use superblock::Super;

/// The fields of an image with a bit for each of its blocks, in which an area has 4096 data sectors.
const BLOCKS: Super = Super {
    version: 4,
    log2_interleave: 12,
    tag_size: 1,
    sections: 1,
    provided: 33000,
    flags: 0xc,
    log2_spb: 0,
    log2_region: 0,
    recalc_sector: 0,
    salt: [0; 16],
};

/// By the formulas of the layout the journal has 176 sectors, and an area 8 sectors of tags.
const SECTORS: u64 = 33300;

/// The bits of a disk.
fn load<D: Disk>(alloc: Global, disk: &mut D, fields: &Super) -> Result<Bits, Fail>
    requires { IsBound (D.identity disk.old).name }

    ensures places { IfOk result (λ bits. IsGeometry bits.geometry (D.identity disk.new).sectors) }
    ensures identity { D.identity disk.new ≡ D.identity disk.old }
{
    let geometry = geometry_on(disk, fields)?;
    Ok(Bits::load(alloc, disk, geometry)?)
}

/// Sets the bit of a region.
fn make_dirty<D: Disk>(bits: &mut Bits, disk: &mut D, region: u64) -> Result<(), Failed>
    requires bound { IsBound (D.identity disk.old).name }
    requires places { IsGeometry bits.old.geometry (D.identity disk.old).sectors }

    ensures geometry { bits.new.geometry ≡ bits.old.geometry }
    ensures identity { D.identity disk.new ≡ D.identity disk.old }
{
    if region >= bits.regions().size() {
        return Err(Failed);
    }
    bits.make_dirty(disk, region)
}

/// Clears it.
fn clear<D: Disk>(bits: &mut Bits, disk: &mut D, region: u64) -> Result<(), Failed>
    requires bound { IsBound (D.identity disk.old).name }
    requires places { IsGeometry bits.old.geometry (D.identity disk.old).sectors }

    ensures geometry { bits.new.geometry ≡ bits.old.geometry }
    ensures identity { D.identity disk.new ≡ D.identity disk.old }
{
    if region >= bits.regions().size() {
        return Err(Failed);
    }
    bits.clear(disk, region)
}

/// Whether the bit of a region is set in memory.
fn is_set(bits: &Bits, region: u64) -> bool {
    region < bits.regions().size() && bits.is_set(region)
}

/// Regions at the edges of bytes, of sectors and of groups of eight sectors, and where their bits lie: the sector, the
/// byte in it, and the byte's value with that bit alone.
// Own: computed from the order of bits, bit r mod 8 of byte r div 8, from sector 8 on.
const EDGES: [(u64, u64, usize, u8); 6] = [
    (7, 8, 0, 0x80),
    (8, 8, 1, 0x01),
    (4095, 8, 511, 0x80),
    (4096, 9, 0, 0x01),
    (32767, 15, 511, 0x80),
    (32768, 16, 0, 0x01),
];

/// Sets the bits of these regions, and tells the first that does not lie in its place.
fn misplaced<D: Disk>(bits: &mut Bits, disk: &mut D) -> Result<Option<u64>, Failed>
    requires bound { IsBound (D.identity disk.old).name }
    requires places { IsGeometry bits.old.geometry (D.identity disk.old).sectors }

    ensures geometry { bits.new.geometry ≡ bits.old.geometry }
    ensures identity { D.identity disk.new ≡ D.identity disk.old }
{
    for (region, at, byte, value) in EDGES {
        make_dirty(bits, disk, region)?;
        let is_there = byte_of(disk, at, byte)? == value;
        if !is_there || !is_set(bits, region) || bits.next_set(region) != Some(region) {
            return Ok(Some(region));
        }
    }
    Ok(None)
}

#[test]
fn bits_lie_in_their_bytes(rt: HostRuntime) -> Result<(), Fail> {
    let alloc = rt.alloc();
    let mut disk = MemDisk::new(alloc, SECTORS, 20)?;
    let mut bits = load(alloc, &mut disk, &BLOCKS)?;
    assert_eq!(rt; bits.regions().size(), 33000);
    assert_eq!(rt; misplaced(&mut bits, &mut disk)?, None);
    assert_eq!(rt; bits.count(), 6);
    assert_eq!(rt; bits.next_set(32769), None);
    clear(&mut bits, &mut disk, 4095)?;
    assert_eq!(rt; byte_of(&mut disk, 8, 511)?, 0);
    assert_eq!(rt; byte_of(&mut disk, 8, 0)?, 0x80);
    let again = load(alloc, &mut disk, &BLOCKS)?;
    assert_eq!(rt; again.count(), 5);
    assert_eq!(rt; again.next_set(9), Some(4096));
    Ok(())
}

/// Why the bits of a disk are not loaded, if that is so.
fn load_fault<D: Disk>(
    alloc: Global,
    disk: &mut D,
    fields: &Super,
) -> Result<Option<BitsFault>, Fail>
    requires { IsBound (D.identity disk.old).name }

    ensures identity { D.identity disk.new ≡ D.identity disk.old }
{
    let geometry = geometry_on(disk, fields)?;
    Ok(Bits::load(alloc, disk, geometry).err())
}

#[test]
fn a_failed_call_leaves_the_bit_in_memory(rt: HostRuntime) -> Result<(), Fail> {
    let alloc = rt.alloc();
    let mut disk = MemDisk::new(alloc, SECTORS, 20)?;
    disk.fail_at(&[1, 3, 5, 8, 10]);
    let fault = load_fault(alloc, &mut disk, &BLOCKS)?;
    assert_eq!(rt; fault, Some(BitsFault::Disk), "the read");
    let mut bits = load(alloc, &mut disk, &BLOCKS)?;
    assert!(rt;
        make_dirty(&mut bits, &mut disk, 4096).is_err(),
        "the write"
    );
    assert!(rt; !is_set(&bits, 4096));
    assert!(rt; make_dirty(&mut bits, &mut disk, 4096).is_err(), "the sync");
    assert!(rt; !is_set(&bits, 4096));
    make_dirty(&mut bits, &mut disk, 4096)?;
    assert!(rt; is_set(&bits, 4096));
    // A set bit makes no call: the next one is the eighth.
    make_dirty(&mut bits, &mut disk, 4096)?;
    assert!(rt; clear(&mut bits, &mut disk, 4096).is_err(), "the write");
    assert!(rt; is_set(&bits, 4096));
    clear(&mut bits, &mut disk, 4096)?;
    assert!(rt; !is_set(&bits, 4096));
    assert!(rt;
        clear(&mut bits, &mut disk, 4096).is_err(),
        "it is written again"
    );
    assert!(rt; !is_set(&bits, 4096));
    Ok(())
}

/// A bitmap as the kernel left it, and what it tells.
#[derive(Clone, Copy)]
struct Left<'a> {
    name: &'a str,
    provided: u64,
    log2_spb: u8,
    log2_region: u8,
    /// Its first bytes.
    bytes: [u8; 8],
    regions: u64,
    set: u64,
    /// The least region that is set, and the least one from a region on.
    first: Option<u64>,
    from: u64,
    next: Option<u64>,
}

/// Each has bits of no region in its last byte.
// Source: images that Linux 6.1.192 left in bitmap mode, cut with writes in flight; bits of no region are as the
// journal had them.
const KERNEL_IMAGES: [Left<'static>; 4] = [
    Left {
        name: "hmac, regions of 16 blocks",
        provided: 208,
        log2_spb: 0,
        log2_region: 4,
        bytes: [0xc1, 0, 0, 0, 0xff, 0xff, 0xff, 0xff],
        regions: 13,
        set: 3,
        first: Some(0),
        from: 1,
        next: Some(6),
    },
    Left {
        name: "blocks of 4096 bytes, a bit for each",
        provided: 376,
        log2_spb: 3,
        log2_region: 0,
        bytes: [0x1c, 0x7c, 0, 0, 0, 0x80, 0xff, 0xff],
        regions: 47,
        set: 8,
        first: Some(2),
        from: 15,
        next: None,
    },
    Left {
        name: "a device that grew",
        provided: 328,
        log2_spb: 0,
        log2_region: 3,
        bytes: [0, 0x80, 0xff, 0xff, 0xff, 0xff, 0xff, 0xff],
        regions: 41,
        set: 26,
        first: Some(15),
        from: 40,
        next: Some(40),
    },
    Left {
        name: "regions of two blocks of 4096 bytes",
        provided: 888,
        log2_spb: 3,
        log2_region: 1,
        bytes: [0x04, 0, 0xf0, 0x3f, 0, 0, 0, 0xff],
        regions: 56,
        set: 11,
        first: Some(2),
        from: 30,
        next: None,
    },
];

/// The fields of such an image.
fn fields_of(left: &Left) -> Super {
    Super {
        version: 5,
        log2_interleave: 3,
        tag_size: 32,
        sections: 1,
        provided: left.provided,
        flags: 0x1c,
        log2_spb: left.log2_spb,
        log2_region: left.log2_region,
        recalc_sector: 0,
        salt: [0; 16],
    }
}

/// Writes the first bytes of the bitmap, and bytes of another sector of it.
fn put_bitmap<D: Disk>(
    alloc: Global,
    disk: &mut D,
    first: &[u8; 8],
    size: usize,
) -> Result<(), Fail>
    requires { IsBound (D.identity disk.old).name }

    ensures identity { D.identity disk.new ≡ D.identity disk.old }
{
    let mut bytes = Vec::from_elem(alloc, 0xff, size)?;
    for (byte, value) in bytes.iter_mut().zip(first) {
        *byte = *value;
    }
    if bytes.len() != 1024 || disk.sectors() < 10 {
        return Err(Failed.into());
    }
    Ok(disk.write_run(8, bytes.as_slice())?)
}

#[test]
fn bits_of_no_region_go_with_their_sector(rt: HostRuntime) -> Result<(), Fail> {
    let alloc = rt.alloc();
    for left in &KERNEL_IMAGES {
        let mut disk = MemDisk::new(alloc, 4096, 10)?;
        put_bitmap(alloc, &mut disk, &left.bytes, 1024)?;
        let mut bits = load(alloc, &mut disk, &fields_of(left))?;
        assert_eq!(rt; bits.regions().size(), left.regions, "{}", left.name);
        assert_eq!(rt; bits.count(), left.set, "{}", left.name);
        assert_eq!(rt; bits.next_set(0), left.first, "{}", left.name);
        assert_eq!(rt; bits.next_set(left.from), left.next, "{}", left.name);
        make_dirty(&mut bits, &mut disk, 1)?;
        assert_eq!(rt;
            byte_of(&mut disk, 8, 0)?,
            left.bytes[0] | 2,
            "{}",
            left.name
        );
        assert_eq!(rt; byte_of(&mut disk, 8, 7)?, 0, "{}", left.name);
        assert_eq!(rt; byte_of(&mut disk, 9, 0)?, 0xff, "{}", left.name);
    }
    Ok(())
}
