//! The store over a disk in memory: where blocks and tags come to lie, and how often the disk is read.
ghost use Rattle.std.specs.Prelude.{◌≡◌, ◌≤◌, IfOk, OnOk};
ghost use Rattle.disk_model.specs.Identity.{IsBound};
ghost use Rattle.image_model.specs.Geometry.{IsGeometry};
ghost use Rattle.image_model.specs.Superblock.{IsAccepted};
ghost use Rattle.tag_store.specs.Store.{IsStore};

use buffer_cache::Cache;
use hmac_tag::Tag;
use layout::Geometry;
use sector_disk::{Disk, Failed, MemDisk};
use std::alloc::Global;
use std::test::Fail;
use superblock::{Super, judge};
use tag_store::Tags;

/// The fields of an image of 512 sectors whose tags have 20 bytes and whose areas have 32 data sectors.
///
/// By the formulas of the layout the journal ends before sector 112, where the tags of the first area stand. Block 25
/// lies at sector 145, and its tag begins at byte 500 of sector 112, so that 8 bytes of it stand in sector 113.
const STRADDLING: Super = Super {
    version: 4,
    log2_interleave: 5,
    tag_size: 20,
    sections: 1,
    provided: 320,
    flags: 0x8,
    log2_spb: 0,
    log2_region: 15,
    recalc_sector: 0,
    salt: [0; 16],
};

const SECTORS: u64 = 512;

/// A store over a disk, of which it holds nothing yet, and where all lies.
fn store_over<D: Disk>(alloc: Global, disk: &D, slots: u64) -> Result<(Tags, Geometry), Fail>
    requires bound { IsBound (D.identity disk.now).name }
    requires low { 1 ≤ slots }
    requires high { slots ≤ 65536 }

    ensures store { IfOk result (λ made. IsStore made.0 (D.identity disk.now) (D.moments disk.now)) }
    ensures geometry { IfOk result (λ made. made.0.geometry ≡ made.1) }
{
    judge(&STRADDLING)?;
    let geometry = Geometry::new(&STRADDLING, disk.sectors())?;
    let cache = Cache::new(alloc, slots)?;
    Ok((Tags::new(geometry, cache), geometry))
}

/// Reads the tag of a block of the device.
fn get<D: Disk>(
    tags: &mut Tags,
    geometry: Geometry,
    disk: &mut D,
    block: u64,
) -> Result<Tag, Failed>
    requires geometry { tags.old.geometry ≡ geometry }
    requires store { IsStore tags.old (D.identity disk.old) (D.moments disk.old) }

    ensures store { IsStore tags.new (D.identity disk.new) (D.moments disk.new) }
    ensures geometry { tags.new.geometry ≡ tags.old.geometry }
    ensures identity { D.identity disk.new ≡ D.identity disk.old }
{
    if block >= geometry.blocks() {
        return Err(Failed);
    }
    tags.get(disk, block)
}

/// Puts the tag of a block of the device.
fn put<D: Disk>(
    tags: &mut Tags,
    geometry: Geometry,
    disk: &mut D,
    block: u64,
    tag: &Tag,
) -> Result<(), Failed>
    requires geometry { tags.old.geometry ≡ geometry }
    requires store { IsStore tags.old (D.identity disk.old) (D.moments disk.old) }

    ensures store { IsStore tags.new (D.identity disk.new) (D.moments disk.new) }
    ensures geometry { tags.new.geometry ≡ tags.old.geometry }
    ensures identity { D.identity disk.new ≡ D.identity disk.old }
{
    if block >= geometry.blocks() || tag.bytes().len() as u64 != geometry.shape().tag {
        return Err(Failed);
    }
    tags.put(disk, block, tag)
}

/// Writes a block of 512 bytes, and then puts its tag.
fn write<D: Disk>(
    tags: &mut Tags,
    geometry: Geometry,
    disk: &mut D,
    block: u64,
    byte: u8,
    tag: &Tag,
) -> Result<(), Failed>
    requires geometry { tags.old.geometry ≡ geometry }
    requires store { IsStore tags.old (D.identity disk.old) (D.moments disk.old) }

    ensures store { IsStore tags.new (D.identity disk.new) (D.moments disk.new) }
    ensures geometry { tags.new.geometry ≡ tags.old.geometry }
    ensures identity { D.identity disk.new ≡ D.identity disk.old }
{
    let bytes = [byte; 512];
    if block >= geometry.blocks() || geometry.shape().spb != 1 {
        return Err(Failed);
    }
    tags.write_block(disk, block, &bytes)?;
    put(tags, geometry, disk, block, tag)
}

/// The first byte of a block, and its tag.
fn read<D: Disk>(
    tags: &mut Tags,
    geometry: Geometry,
    disk: &mut D,
    block: u64,
) -> Result<(u8, Tag), Failed>
    requires geometry { tags.old.geometry ≡ geometry }
    requires store { IsStore tags.old (D.identity disk.old) (D.moments disk.old) }

    ensures store { IsStore tags.new (D.identity disk.new) (D.moments disk.new) }
    ensures geometry { tags.new.geometry ≡ tags.old.geometry }
    ensures identity { D.identity disk.new ≡ D.identity disk.old }
{
    let mut bytes = [0; 512];
    if block >= geometry.blocks() || geometry.shape().spb != 1 {
        return Err(Failed);
    }
    tags.read_block(disk, block, &mut bytes)?;
    let tag = get(tags, geometry, disk, block)?;
    Ok((bytes[0], tag))
}

/// Writes the tags back, and syncs.
fn flush<D: Disk>(tags: &mut Tags, disk: &mut D) -> Result<(), Failed>
    requires store { IsStore tags.old (D.identity disk.old) (D.moments disk.old) }

    ensures store { OnOk result (IsStore tags.new (D.identity disk.new) (D.moments disk.new)) }
    ensures geometry { tags.new.geometry ≡ tags.old.geometry }
    ensures identity { D.identity disk.new ≡ D.identity disk.old }
{
    tags.write_back(disk)?;
    disk.sync()
}

/// A sector, as the disk itself reads it.
fn on_disk<D: Disk>(disk: &mut D, at: u64) -> Result<[u8; 512], Failed>
    requires { IsBound (D.identity disk.old).name }

    ensures identity { D.identity disk.new ≡ D.identity disk.old }
    ensures kept { D.moments disk.new ≡ D.moments disk.old }
{
    let mut sector = [0; 512];
    if at >= disk.sectors() {
        return Err(Failed);
    }
    disk.read_run(at, &mut sector)?;
    Ok(sector)
}

/// Whether all bytes are zero.
fn are_zeros(bytes: &[u8]) -> bool {
    bytes.iter().all(|byte| *byte == 0)
}

/// Whether the first twelve bytes of the tag stand at the end of a sector of zeros.
fn ends_with_the_tag(sector: &[u8; 512]) -> bool {
    are_zeros(&sector[..500]) && sector[500..] == b"abcdefghijkl"[..]
}

/// Whether the last eight bytes of the tag stand at the beginning of a sector of zeros.
fn begins_with_the_rest(sector: &[u8; 512]) -> bool {
    sector[..8] == b"MNOPQRST"[..] && are_zeros(&sector[8..])
}

#[test]
fn a_tag_in_two_sectors_goes_through_one_slot(rt: HostRuntime) -> Result<(), Fail> {
    let alloc = rt.alloc();
    let mut disk = MemDisk::new(alloc, SECTORS, 10)?;
    let (mut tags, geometry) = store_over(alloc, &disk, 1)?;
    let tag = Tag::from_bytes(b"abcdefghijklMNOPQRST");
    write(&mut tags, geometry, &mut disk, 25, 0xaa, &tag)?;
    assert_eq!(rt;
        on_disk(&mut disk, 145)?,
        [0xaa; 512],
        "the block is written"
    );
    assert!(rt;
        ends_with_the_tag(&on_disk(&mut disk, 112)?),
        "it went out for the next sector"
    );
    assert_eq!(rt;
        on_disk(&mut disk, 113)?,
        [0; 512],
        "the rest is not written yet"
    );
    let (byte, got) = read(&mut tags, geometry, &mut disk, 25)?;
    assert_eq!(rt; byte, 0xaa);
    assert!(rt; got.bytes() == &b"abcdefghijklMNOPQRST"[..]);
    flush(&mut tags, &mut disk)?;
    assert!(rt; ends_with_the_tag(&on_disk(&mut disk, 112)?));
    assert!(rt; begins_with_the_rest(&on_disk(&mut disk, 113)?));
    Ok(())
}

/// Whether the tags of sixteen blocks in a row are zeros.
fn gets_sixteen<D: Disk>(tags: &mut Tags, geometry: Geometry, disk: &mut D) -> Result<bool, Failed>
    requires geometry { tags.old.geometry ≡ geometry }
    requires store { IsStore tags.old (D.identity disk.old) (D.moments disk.old) }
{
    for block in 0..16 {
        if get(tags, geometry, disk, block)?.bytes() != &[0; 20][..] {
            return Ok(false);
        }
    }
    Ok(true)
}

#[test]
fn tags_of_neighbours_cost_one_read(rt: HostRuntime) -> Result<(), Fail> {
    let alloc = rt.alloc();
    let mut disk = MemDisk::new(alloc, SECTORS, 10)?;
    disk.fail_at(&[2]);
    let (mut tags, geometry) = store_over(alloc, &disk, 4)?;
    assert!(rt; gets_sixteen(&mut tags, geometry, &mut disk)?);
    assert_eq!(rt;
        on_disk(&mut disk, 112),
        Err(Failed),
        "this is the second call of the disk"
    );
    Ok(())
}
