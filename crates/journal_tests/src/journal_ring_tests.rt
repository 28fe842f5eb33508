//! The ring over a journal of five sections, each of 8 metadata sectors and 80 entries of one sector.
ghost use Rattle.std.specs.Prelude.{◌≡◌, ◌≤◌, IfOk};
ghost use Rattle.disk_model.specs.Identity.{IsBound};
ghost use Rattle.image_model.specs.Geometry.{initial};

use hmac_tag::Tag;
use image_model::EntryPlace;
use journal_ring::{Moved, Ring, RingRoom};
use journal_section::number;
use layout::Geometry;
use sector_disk::{Disk, Failed, MemDisk};
use sector_pool::Region;
use std::alloc::Global;
use std::test::Fail;
use superblock::{Super, judge};

/// The fields of an image of 1024 sectors with five sections.
///
/// By the formulas of the layout an entry has 48 bytes, a metadata sector 10 of them, and a section 88
/// sectors.
const FIELDS: Super = Super {
    version: 4,
    log2_interleave: 5,
    tag_size: 32,
    sections: 5,
    provided: 320,
    flags: 0x8,
    log2_spb: 0,
    log2_region: 15,
    recalc_sector: 0,
    salt: [0; 16],
};

const SECTORS: u64 = 1024;

/// The entries of a section.
const ENTRIES: u64 = 80;

/// The sectors of a section.
const WIDTH: u64 = 88;

/// Where all lies.
fn geometry() -> Result<Geometry, Fail> {
    judge(&FIELDS)?;
    Ok(Geometry::new(&FIELDS, SECTORS)?)
}

/// A ring that goes on at this section, with this number.
fn ring_at<'p>(
    alloc: Global,
    region: &'p mut Region,
    geometry: Geometry,
    next: u64,
    number: u8,
) -> Result<Ring<'p>, Fail>
    ensures { IfOk result (λ ring. ring.geometry ≡ geometry) }
{
    if next >= geometry.sections() || number >= 4 {
        return Err(Fail::from("place"));
    }
    region.reserve(alloc, geometry.initial() - 8)?;
    let room = RingRoom::new(alloc, geometry)?;
    Ok(Ring::new(room, region.whole(), next, number))
}

/// Puts a block of one byte, with a tag of the same. None where there is no room.
fn put(ring: &mut Ring<'_>, block: u64, byte: u8) -> Result<Option<EntryPlace>, Fail>
    ensures { ring.new.geometry ≡ ring.old.geometry }
{
    let shape = ring.shape();
    if shape.spb != 1 || shape.tag != 32 || block >> 48 != 0 {
        return Err(Fail::from("shape"));
    }
    match ring.put(block, &[byte; 512], &Tag::from_bytes(&[byte; 32])) {
        Ok(place) => Ok(Some(place)),
        Err(_) => Ok(None),
    }
}

/// Puts so many blocks, the first of them `block`. False once there is no room.
fn put_many(ring: &mut Ring<'_>, block: u64, count: u64) -> Result<bool, Fail>
    ensures { ring.new.geometry ≡ ring.old.geometry }
{
    for k in 0..count {
        if put(ring, block.wrapping_add(k), b'm')?.is_none() {
            return Ok(false);
        }
    }
    Ok(true)
}

/// Whether a section is free, and how many entries it has.
fn state_of(ring: &Ring<'_>, section: u64) -> Option<(bool, u64)> {
    if section >= ring.sections() {
        return None;
    }
    Some((ring.is_free(section), ring.entries_in(section)))
}

/// Whether the section of an entry is one of the ring's, and committed.
fn is_committed(ring: &Ring<'_>, place: EntryPlace) -> bool {
    place.section < ring.sections() && ring.committed(place)
}

/// Whether an entry is of this block, and all its bytes and its tag's are this one.
fn holds(ring: &Ring<'_>, place: EntryPlace, block: u64, byte: u8) -> bool {
    let mut out = [0; 512];
    if ring.shape().spb != 1 || place.section >= ring.sections() {
        return false;
    }
    if place.entry >= ring.entries_in(place.section) {
        return false;
    }
    ring.content(place, &mut out);
    let view = ring.view(place);
    view.sector == block && view.tag.bytes() == &[byte; 32][..] && out == [byte; 512]
}

/// Commits the next batch.
fn commit<D: Disk>(ring: &mut Ring<'_>, geometry: Geometry, disk: &mut D) -> Result<Moved, Failed>
    requires bound { IsBound (D.identity disk.old).name }
    requires geometry { ring.old.geometry ≡ geometry }

    ensures geometry { ring.new.geometry ≡ ring.old.geometry }
    ensures identity { D.identity disk.new ≡ D.identity disk.old }
{
    if disk.sectors() < geometry.initial() {
        return Err(Failed);
    }
    ring.commit(disk)
}

/// Frees the oldest section, where it is committed.
fn free_oldest(ring: &mut Ring<'_>) -> bool
    ensures { ring.new.geometry ≡ ring.old.geometry }
{
    let Some(section) = ring.oldest() else {
        return false;
    };
    if section >= ring.sections() || !ring.committed(EntryPlace { section, entry: 0 }) {
        return false;
    }
    ring.free(section);
    true
}

/// The commit number that all sectors of a section bear, as the disk reads them. None where they bear none, or
/// two.
fn number_on<D: Disk>(
    alloc: Global,
    disk: &mut D,
    geometry: Geometry,
    section: u64,
) -> Result<Option<u8>, Fail>
    requires bound { IsBound (D.identity disk.old).name }

    ensures identity { D.identity disk.new ≡ D.identity disk.old }
{
    if section >= geometry.sections() || section >= 5 || disk.sectors() != SECTORS {
        return Err(Fail::from("section"));
    }
    let mut bytes = vec![in alloc; 0; 512 * 88]?;
    disk.read_run(8 + WIDTH * section, &mut bytes)?;
    let first = number(&bytes, section, 0);
    for j in 1..WIDTH {
        if number(&bytes, section, j) != first {
            return Ok(None);
        }
    }
    Ok(first)
}

#[test]
fn entries_are_read_as_they_were_put(rt: HostRuntime) -> Result<(), Fail> {
    let alloc = rt.alloc();
    let geometry = geometry()?;
    let mut region = Region::new();
    let mut ring = ring_at(alloc, &mut region, geometry, 3, 2)?;
    assert!(rt; ring.sections() == 5 && ring.shape().entries == ENTRIES);
    assert!(rt; ring.oldest().is_none());
    for k in 0..3 {
        let place = put(&mut ring, 10 + k, b'a' + k as u8)?.ok_or("no room")?;
        assert!(rt;
            place
                == EntryPlace {
                    section: 3,
                    entry: k
                }
        );
    }
    for k in 0..3 {
        assert!(rt;
            holds(
                &ring,
                EntryPlace {
                    section: 3,
                    entry: k
                },
                10 + k,
                b'a' + k as u8
            )
        );
    }
    assert!(rt; ring.oldest() == Some(3) && state_of(&ring, 3) == Some((false, 3)));
    assert!(rt; state_of(&ring, 4) == Some((true, 0)) && state_of(&ring, 5) == None);
    assert!(rt;
        !is_committed(
            &ring,
            EntryPlace {
                section: 3,
                entry: 0
            }
        )
    );
    Ok(())
}

#[test]
fn a_batch_ends_where_the_journal_does(rt: HostRuntime) -> Result<(), Fail> {
    let alloc = rt.alloc();
    let geometry = geometry()?;
    let mut disk = MemDisk::new(alloc, SECTORS, 1000)?;
    let mut region = Region::new();
    let mut ring = ring_at(alloc, &mut region, geometry, 3, 3)?;
    // They are in sections 3, 4 and 0.
    assert!(rt; put_many(&mut ring, 0, 2 * ENTRIES + 1)?);
    assert!(rt; commit(&mut ring, geometry, &mut disk)? == Moved::Did);
    assert!(rt; number_on(alloc, &mut disk, geometry, 3)? == Some(3));
    assert!(rt; number_on(alloc, &mut disk, geometry, 4)? == Some(3));
    assert!(rt; number_on(alloc, &mut disk, geometry, 0)?.is_none());
    // No entry goes into section 0 any more, though it is not committed.
    let place = put(&mut ring, 5, b'y')?.ok_or("no room")?;
    assert!(rt;
        place
            == EntryPlace {
                section: 1,
                entry: 0
            }
    );
    assert!(rt; commit(&mut ring, geometry, &mut disk)? == Moved::Did);
    assert!(rt; number_on(alloc, &mut disk, geometry, 0)? == Some(0));
    assert!(rt; number_on(alloc, &mut disk, geometry, 1)? == Some(0));
    assert!(rt; number_on(alloc, &mut disk, geometry, 2)?.is_none());
    assert!(rt; holds(&ring, place, 5, b'y') && is_committed(&ring, place));
    assert!(rt; free_oldest(&mut ring) && ring.oldest() == Some(4));
    Ok(())
}
