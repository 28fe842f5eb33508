//! Tests of the calls over a disk in memory: what they write where, and what a store that is made later reads.
ghost use Rattle.std.specs.Prelude.{◌≡◌, IfOk};
ghost use Rattle.disk_model.specs.Identity.{IsBound};
ghost use Rattle.tag_store.specs.Store.{IsStore};

use buffer_cache::Cache;
use direct_mode::{flush, read_block, serve_block, write_block};
use hmac_tag::Tag;
use layout::Geometry;
use sector_disk::{Disk, Failed, MemDisk};
use std::alloc::Global;
use std::test::Fail;
use superblock::{Super, judge};
use tag_store::Tags;

/// The fields of an image of 512 sectors whose tags have 20 bytes and whose areas have 32 data sectors.
///
/// By the formulas of the layout the journal ends before sector 112, where the tags of the first area stand. Block 25
/// lies at sector 145, and its tag begins at byte 500 of sector 112, so that 8 bytes of it stand in sector 113.
const STRADDLING: Super = Super {
    version: 4,
    log2_interleave: 5,
    tag_size: 20,
    sections: 1,
    provided: 320,
    flags: 0x8,
    log2_spb: 0,
    log2_region: 15,
    recalc_sector: 0,
    salt: [0; 16],
};

const SECTORS: u64 = 512;

/// A store over a disk, of which it holds nothing yet, and where all lies.
fn opened<D: Disk>(alloc: Global, disk: &D) -> Result<(Tags, Geometry), Fail>
    requires bound { IsBound (D.identity disk.now).name }

    ensures store { IfOk result (λ made. IsStore made.0 (D.identity disk.now) (D.moments disk.now)) }
    ensures geometry { IfOk result (λ made. made.0.geometry ≡ made.1) }
{
    judge(&STRADDLING)?;
    let geometry = Geometry::new(&STRADDLING, disk.sectors())?;
    let cache = Cache::new(alloc, 4)?;
    Ok((Tags::new(geometry, cache), geometry))
}

/// Writes a block of 512 bytes with its tag, and flushes all where that is asked.
fn serve<D: Disk>(
    tags: &mut Tags,
    geometry: Geometry,
    disk: &mut D,
    block: u64,
    byte: u8,
    tag: &Tag,
    flushes: bool,
) -> Result<(), Failed>
    requires geometry { tags.old.geometry ≡ geometry }
    requires store { IsStore tags.old (D.identity disk.old) (D.moments disk.old) }

    ensures store { IsStore tags.new (D.identity disk.new) (D.moments disk.new) }
    ensures geometry { tags.new.geometry ≡ tags.old.geometry }
    ensures identity { D.identity disk.new ≡ D.identity disk.old }
{
    let bytes = [byte; 512];
    if block >= geometry.blocks()
        || geometry.shape().spb != 1
        || tag.bytes().len() as u64 != geometry.shape().tag
    {
        return Err(Failed);
    }
    serve_block(disk, tags, block, &bytes, tag, flushes)
}

/// Writes a block of 512 bytes with its tag.
fn write<D: Disk>(
    tags: &mut Tags,
    geometry: Geometry,
    disk: &mut D,
    block: u64,
    byte: u8,
    tag: &Tag,
) -> Result<(), Failed>
    requires geometry { tags.old.geometry ≡ geometry }
    requires store { IsStore tags.old (D.identity disk.old) (D.moments disk.old) }

    ensures store { IsStore tags.new (D.identity disk.new) (D.moments disk.new) }
    ensures geometry { tags.new.geometry ≡ tags.old.geometry }
    ensures identity { D.identity disk.new ≡ D.identity disk.old }
{
    let bytes = [byte; 512];
    if block >= geometry.blocks()
        || geometry.shape().spb != 1
        || tag.bytes().len() as u64 != geometry.shape().tag
    {
        return Err(Failed);
    }
    write_block(disk, tags, block, &bytes, tag)
}

/// The bytes of a block, and its tag.
fn read<D: Disk>(
    tags: &mut Tags,
    geometry: Geometry,
    disk: &mut D,
    block: u64,
) -> Result<([u8; 512], Tag), Failed>
    requires geometry { tags.old.geometry ≡ geometry }
    requires store { IsStore tags.old (D.identity disk.old) (D.moments disk.old) }

    ensures store { IsStore tags.new (D.identity disk.new) (D.moments disk.new) }
    ensures geometry { tags.new.geometry ≡ tags.old.geometry }
    ensures identity { D.identity disk.new ≡ D.identity disk.old }
{
    let mut bytes = [0; 512];
    if block >= geometry.blocks() || geometry.shape().spb != 1 {
        return Err(Failed);
    }
    let tag = read_block(disk, tags, block, &mut bytes)?;
    Ok((bytes, tag))
}

/// A sector, as the disk itself reads it.
fn on_disk<D: Disk>(disk: &mut D, at: u64) -> Result<[u8; 512], Failed>
    requires { IsBound (D.identity disk.old).name }

    ensures identity { D.identity disk.new ≡ D.identity disk.old }
    ensures kept { D.moments disk.new ≡ D.moments disk.old }
{
    let mut sector = [0; 512];
    if at >= disk.sectors() {
        return Err(Failed);
    }
    disk.read_run(at, &mut sector)?;
    Ok(sector)
}

#[test]
fn a_tag_in_two_sectors_stays_in_memory_until_a_flush(rt: HostRuntime) -> Result<(), Fail> {
    let alloc = rt.alloc();
    let mut disk = MemDisk::new(alloc, SECTORS, 20)?;
    let (mut tags, geometry) = opened(alloc, &disk)?;
    let tag = Tag::from_bytes(b"abcdefghijklMNOPQRST");
    write(&mut tags, geometry, &mut disk, 25, 0xaa, &tag)?;
    assert_eq!(rt;
        on_disk(&mut disk, 145)?,
        [0xaa; 512],
        "the block is written"
    );
    assert_eq!(rt; on_disk(&mut disk, 112)?, [0; 512], "its tag is not");
    let (bytes, got) = read(&mut tags, geometry, &mut disk, 25)?;
    assert_eq!(rt; bytes, [0xaa; 512]);
    assert!(rt; got.bytes() == &b"abcdefghijklMNOPQRST"[..]);
    flush(&mut disk, &mut tags)?;
    assert!(rt; on_disk(&mut disk, 112)?[500..] == b"abcdefghijkl"[..]);
    assert!(rt; on_disk(&mut disk, 113)?[..8] == b"MNOPQRST"[..]);
    Ok(())
}

/// Whether blocks 24 and 25 read as they were served, and those beside them as zeros.
fn reads_two_among_zeros<D: Disk>(
    tags: &mut Tags,
    geometry: Geometry,
    disk: &mut D,
) -> Result<bool, Failed>
    requires geometry { tags.old.geometry ≡ geometry }
    requires store { IsStore tags.old (D.identity disk.old) (D.moments disk.old) }
{
    for (block, byte) in [(23, 0), (24, b'x'), (25, b'y'), (26, 0)] {
        let (bytes, tag) = read(tags, geometry, disk, block)?;
        if bytes != [byte; 512] || tag.bytes() != &[byte; 20][..] {
            return Ok(false);
        }
    }
    Ok(true)
}

#[test]
fn a_later_store_reads_what_was_served(rt: HostRuntime) -> Result<(), Fail> {
    let alloc = rt.alloc();
    let mut disk = MemDisk::new(alloc, SECTORS, 20)?;
    let (mut tags, geometry) = opened(alloc, &disk)?;
    serve(
        &mut tags,
        geometry,
        &mut disk,
        24,
        b'x',
        &Tag::from_bytes(&[b'x'; 20]),
        false,
    )?;
    assert_eq!(rt;
        on_disk(&mut disk, 112)?,
        [0; 512],
        "nothing was to be flushed"
    );
    serve(
        &mut tags,
        geometry,
        &mut disk,
        25,
        b'y',
        &Tag::from_bytes(&[b'y'; 20]),
        true,
    )?;
    let (mut later, geometry) = opened(alloc, &disk)?;
    assert!(rt; reads_two_among_zeros(&mut later, geometry, &mut disk)?);
    Ok(())
}
