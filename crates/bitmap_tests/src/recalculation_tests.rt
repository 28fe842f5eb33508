//! A region of a disk in memory that awaits is recalculated: which tags change and to what, how often the disk is
//! called, and what a failure leaves.
ghost use Rattle.std.specs.Prelude.{◌≡◌, ◌≤◌, IfOk};
ghost use Rattle.disk_model.specs.Identity.{IsBound};
ghost use Rattle.image_model.specs.Geometry.{IsGeometry, bitmap_sectors, journal_sectors, layout_of};
ghost use Rattle.recalculation.specs.Places.{TellsAreas};
ghost use Rattle.tag_store.specs.Store.{IsStore};

use crate::places::geometry_on;
use buffer_cache::Cache;
use dirty_bitmap::Bits;
use hmac_tag::{Hash, Tag, TagMaker};
use image_model::{FIXED_PADDING, RECALCULATING};
use layout::Geometry;
use recalculation::Awaiting;
use sector_disk::{Disk, Failed, MemDisk};
use std::alloc::Global;
use std::test::Fail;
use superblock::Super;
use tag_store::Tags;

/// The fields of an image of 18 blocks of two sectors, of which four lie in an area, and so many make a region.
///
/// By the formulas of the layout area a begins at sector 256 + 16 * a, with 8 sectors of tags.
fn small(log2_region: u8) -> Super {
    Super {
        version: 4,
        log2_interleave: 3,
        tag_size: 4,
        sections: 1,
        provided: 36,
        flags: FIXED_PADDING,
        log2_spb: 1,
        log2_region,
        recalc_sector: 0,
        salt: [0; 16],
    }
}

/// The fields of an image of 512 blocks of one sector, all in one region and one area.
const LONG: Super = Super {
    version: 4,
    log2_interleave: 9,
    tag_size: 1,
    sections: 1,
    provided: 512,
    flags: FIXED_PADDING,
    log2_spb: 0,
    log2_region: 9,
    recalc_sector: 0,
    salt: [0; 16],
};

/// The sectors of each disk here.
const SECTORS: u64 = 1024;

/// The same fields in the midst of a recalculation, or not, where the layout is the same.
fn positioned(fields: &Super, flags: u32, recalc_sector: u64) -> Result<Super, Failed>
    requires { TellsAreas fields.now }

    ensures layout { IfOk result (λ moved. layout_of moved ≡ layout_of fields.now) }
    ensures areas { IfOk result (λ moved. TellsAreas moved) }
{
    if flags & FIXED_PADDING != fields.flags & FIXED_PADDING {
        return Err(Failed);
    }
    let mut moved = *fields;
    moved.flags = flags;
    moved.recalc_sector = recalc_sector;
    Ok(moved)
}

/// Bits on a disk, with these regions set.
fn bits_on<D: Disk>(
    alloc: Global,
    disk: &mut D,
    geometry: Geometry,
    set: &[u64],
) -> Result<Bits, Fail>
    requires bound { IsBound (D.identity disk.old).name }
    requires places { IsGeometry geometry (D.identity disk.old).sectors }
    requires fits { bitmap_sectors geometry ≤ journal_sectors geometry }

    ensures geometry { IfOk result (λ bits. bits.geometry ≡ geometry) }
    ensures identity { D.identity disk.new ≡ D.identity disk.old }
{
    let mut bits = Bits::none(alloc, geometry)?;
    for region in set {
        if *region >= geometry.regions() {
            return Err(Failed.into());
        }
        bits.make_dirty(disk, *region)?;
    }
    Ok(bits)
}

/// How many regions await.
fn count_awaiting(awaiting: &Awaiting, geometry: Geometry) -> u64
    requires { awaiting.now.geometry ≡ geometry }
{
    let mut count = 0u64;
    for region in 0..geometry.regions() {
        if awaiting.awaits(region) {
            count = count.wrapping_add(1);
        }
    }
    count
}

/// A store of tags that holds none yet.
fn store_over<D: Disk>(alloc: Global, disk: &D, geometry: Geometry) -> Result<Tags, Fail>
    requires bound { IsBound (D.identity disk.now).name }
    requires places { IsGeometry geometry (D.identity disk.now).sectors }

    ensures store { IfOk result (λ tags. IsStore tags (D.identity disk.now) (D.moments disk.now)) }
    ensures geometry { IfOk result (λ tags. tags.geometry ≡ geometry) }
{
    let cache = Cache::new(alloc, 8)?;
    Ok(Tags::new(geometry, cache))
}

/// Recalculates a region, without a key.
fn recalculate<D: Disk>(
    awaiting: &mut Awaiting,
    disk: &mut D,
    tags: &mut Tags,
    geometry: Geometry,
    region: u64,
) -> Result<(), Failed>
    requires geometry { awaiting.old.geometry ≡ geometry }
    requires same { tags.old.geometry ≡ geometry }
    requires store { IsStore tags.old (D.identity disk.old) (D.moments disk.old) }

    ensures geometry { awaiting.new.geometry ≡ geometry }
    ensures same { tags.new.geometry ≡ geometry }
    ensures store { IsStore tags.new (D.identity disk.new) (D.moments disk.new) }
    ensures identity { D.identity disk.new ≡ D.identity disk.old }
{
    if region >= geometry.regions() {
        return Err(Failed);
    }
    let maker = TagMaker::new(Hash::Sha256, None, geometry.shape().tag as u8);
    awaiting.recalc_region(disk, tags, &maker, region)
}

/// Fills each block of two sectors with a byte of its own, 0xa0 and its number.
fn fill_blocks<D: Disk>(disk: &mut D, tags: &Tags, geometry: Geometry) -> Result<(), Failed>
    requires same { tags.now.geometry ≡ geometry }
    requires store { IsStore tags.now (D.identity disk.old) (D.moments disk.old) }

    ensures store { IsStore tags.now (D.identity disk.new) (D.moments disk.new) }
    ensures identity { D.identity disk.new ≡ D.identity disk.old }
{
    if geometry.shape().spb != 2 {
        return Err(Failed);
    }
    for block in 0..geometry.blocks() {
        tags.write_block(disk, block, &[0xa0 + (block % 32) as u8; 1024])?;
    }
    Ok(())
}

/// The tag of a block.
fn tag_of<D: Disk>(
    disk: &mut D,
    tags: &mut Tags,
    geometry: Geometry,
    block: u64,
) -> Result<Tag, Failed>
    requires same { tags.old.geometry ≡ geometry }
    requires store { IsStore tags.old (D.identity disk.old) (D.moments disk.old) }

    ensures same { tags.new.geometry ≡ geometry }
    ensures store { IsStore tags.new (D.identity disk.new) (D.moments disk.new) }
    ensures identity { D.identity disk.new ≡ D.identity disk.old }
{
    if block >= geometry.blocks() {
        return Err(Failed);
    }
    tags.get(disk, block)
}

/// The tags of blocks 4 to 7 once the whole region is recalculated.
// Source: python3's hashlib, the first four bytes of sha256 over the block's first sector in 8 bytes, the least first,
// and then its bytes.
const REGION_TAGS: [(u64, [u8; 4]); 4] = [
    (4, [0x07, 0x0b, 0xda, 0xd4]),
    (5, [0x21, 0x83, 0xf1, 0xc3]),
    (6, [0x77, 0x69, 0x04, 0xb5]),
    (7, [0x2b, 0x39, 0x24, 0x89]),
];

/// The first of these blocks whose tag is another one, if one is: those from `first` on are to have their tags, and the
/// others 0xee in each byte.
fn untagged<D: Disk>(
    disk: &mut D,
    tags: &mut Tags,
    geometry: Geometry,
    first: u64,
) -> Result<Option<u64>, Failed>
    requires same { tags.old.geometry ≡ geometry }
    requires store { IsStore tags.old (D.identity disk.old) (D.moments disk.old) }

    ensures same { tags.new.geometry ≡ geometry }
    ensures store { IsStore tags.new (D.identity disk.new) (D.moments disk.new) }
    ensures identity { D.identity disk.new ≡ D.identity disk.old }
{
    for (block, expected) in REGION_TAGS {
        let tag = tag_of(disk, tags, geometry, block)?;
        let wanted = if block >= first { expected } else { [0xee; 4] };
        if tag.bytes() != &wanted[..] {
            return Ok(Some(block));
        }
    }
    Ok(None)
}

/// Writes a sector of the disk.
fn write_sector<D: Disk>(disk: &mut D, at: u64, bytes: &[u8; 512]) -> Result<(), Failed>
    requires { IsBound (D.identity disk.old).name }

    ensures identity { D.identity disk.new ≡ D.identity disk.old }
{
    if at >= disk.sectors() {
        return Err(Failed);
    }
    disk.write_run(at, bytes)
}

/// A sector of the disk.
fn sector_of<D: Disk>(disk: &mut D, at: u64) -> Result<[u8; 512], Failed>
    requires { IsBound (D.identity disk.old).name }

    ensures identity { D.identity disk.new ≡ D.identity disk.old }
{
    let mut sector = [0; 512];
    if at >= disk.sectors() {
        return Err(Failed);
    }
    disk.read_run(at, &mut sector)?;
    Ok(sector)
}

/// What awaits by these bits, or by the position.
fn awaiting_by(
    alloc: Global,
    fields: &Super,
    geometry: Geometry,
    bits: &Bits,
    by_bits: bool,
) -> Result<Awaiting, Fail>
    requires layout { geometry ≡ layout_of fields.now }
    requires areas { TellsAreas fields.now }
    requires bits { bits.now.geometry ≡ geometry }

    ensures { IfOk result (λ awaiting. awaiting.geometry ≡ geometry) }
{
    if by_bits {
        Ok(Awaiting::of(alloc, fields, &geometry, Some(bits))?)
    } else {
        Ok(Awaiting::of(alloc, fields, &geometry, None)?)
    }
}

/// What stands on a disk once region 1 is recalculated and all tags are written back.
#[derive(Drop)]
struct Taken {
    /// The first of its blocks whose tag is another one.
    wrong: Option<u64>,
    /// Its sector of tags, and the first one of its data.
    tags: [u8; 512],
    data: [u8; 512],
    /// The region that awaits then.
    next: Option<u64>,
}

/// Recalculates region 1 of a disk whose tags are wrong: by the bits all its blocks, and by the position those from
/// block 5 on, which has it inside.
fn take_region<D: Disk>(
    alloc: Global,
    disk: &mut D,
    by_bits: bool,
    first: u64,
) -> Result<Taken, Fail>
    requires { IsBound (D.identity disk.old).name }
{
    let fields = small(2);
    let geometry = geometry_on(disk, &fields)?;
    let bits = bits_on(alloc, disk, geometry, &[1])?;
    write_sector(disk, 272, &[0xee; 512])?;
    let mut tags = store_over(alloc, disk, geometry)?;
    fill_blocks(disk, &tags, geometry)?;
    let moved = positioned(&fields, FIXED_PADDING | RECALCULATING, 11)?;
    let mut awaiting = awaiting_by(alloc, &moved, geometry, &bits, by_bits)?;
    recalculate(&mut awaiting, disk, &mut tags, geometry, 1)?;
    let wrong = untagged(disk, &mut tags, geometry, first)?;
    tags.write_back(disk)?;
    Ok(Taken {
        wrong,
        tags: sector_of(disk, 272)?,
        data: sector_of(disk, 280)?,
        next: awaiting.next(),
    })
}

#[test]
fn a_region_gets_the_tags_of_its_blocks_that_await(rt: HostRuntime) -> Result<(), Fail> {
    let alloc = rt.alloc();
    for (by_bits, first, next) in [(true, 4, None), (false, 5, Some(2))] {
        let mut disk = MemDisk::new(alloc, SECTORS, 100)?;
        let taken = take_region(alloc, &mut disk, by_bits, first)?;
        assert_eq!(rt; taken.wrong, None, "{by_bits}");
        assert!(rt; taken.tags[16..] == [0xee; 496][..], "behind the tags");
        assert_eq!(rt; taken.data, [0xa4; 512]);
        assert_eq!(rt; taken.next, next, "{by_bits}");
    }
    Ok(())
}

/// Recalculates a region of a disk of zeros, twice, and tells whether the first call failed. Where it did the region
/// awaits still, and the second takes it.
fn fails<D: Disk>(alloc: Global, disk: &mut D, fields: &Super, region: u64) -> Result<bool, Fail>
    requires { IsBound (D.identity disk.old).name }
{
    let geometry = geometry_on(disk, fields)?;
    let mut tags = store_over(alloc, disk, geometry)?;
    let moved = positioned(fields, FIXED_PADDING | RECALCULATING, 0)?;
    let mut awaiting = Awaiting::of(alloc, &moved, &geometry, None)?;
    let all = count_awaiting(&awaiting, geometry);
    let failed = recalculate(&mut awaiting, disk, &mut tags, geometry, region).is_err();
    let left = count_awaiting(&awaiting, geometry);
    recalculate(&mut awaiting, disk, &mut tags, geometry, region)?;
    let rest = count_awaiting(&awaiting, geometry);
    if rest.wrapping_add(1) != all || left != if failed { all } else { rest } {
        return Err(Failed.into());
    }
    Ok(failed)
}

/// Whether a recalculation of a new disk fails of whose calls of the disk this one does.
fn fails_at(alloc: Global, fields: &Super, region: u64, call: u64) -> Result<bool, Fail> {
    let mut disk = MemDisk::new(alloc, SECTORS, 1)?;
    disk.fail_at(&[call]);
    fails(alloc, &mut disk, fields, region)
}

#[test]
fn a_region_is_read_in_runs_and_awaits_while_a_call_fails(rt: HostRuntime) -> Result<(), Fail> {
    let alloc = rt.alloc();
    for (fields, region, calls) in [
        // Two areas; a short region; 512 sectors in runs of 128, with all tags in one sector.
        (small(3), 1, 4),
        (small(2), 4, 2),
        (LONG, 0, 5),
    ] {
        for call in 1..=calls {
            assert!(rt; fails_at(alloc, &fields, region, call)?, "{region} {call}");
        }
        assert!(rt; !fails_at(alloc, &fields, region, calls + 1)?, "{region}");
    }
    Ok(())
}
