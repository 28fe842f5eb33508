//! Fills and commits a ring of the journal many times, so that `bench/ring` can time what a put and a commit cost.
//!
//! `ring_bench WAY LAPS FILE` makes LAPS laps, in each of which every section of a journal in FILE is filled with
//! entries of 512 bytes, committed and freed. The ways are `put`, where nothing is written; `commit`, where a commit is
//! written, but not synced; and `write`, where nothing is written but as many bytes by one call of the system behind
//! each lap.
//! With `digest` it makes as many digests of 512 bytes as a lap has entries, by `sha2` alone, and no lap. It prints how
//! many entries were put, or the sum of the digests' first bytes.
#![tactic(auto)]

mod laps;
mod unsynced;

ghost use Rattle.std.specs.Prelude.{◌≡◌, IfOk, OnOk, length};
ghost use Rattle.disk_model.specs.Identity.{HasSectors, IsBound};
ghost use Rattle.image_model.specs.Geometry.{initial, IsGeometry};

use anyhow::{Result, bail};
use file_disk::{FileDisk, StdFolder};
use hmac_tag::Tag;
use journal_ring::{Ring, RingRoom};
use laps::make_lap;
use layout::{Geometry, best_provided};
use sector_disk::Disk;
use sector_pool::Region;
use sha2::{Digest, Sha256};
use std::alloc::Global;
use std::env;
use std::fs::{File, OpenOptions};
use std::os::unix::fs::FileExt;
use std::rt::Files;
use superblock::{Super, judge};
use unsynced::Unsynced;

const USAGE: &str = "ring_bench put|commit|write|digest LAPS FILE";

/// The sectors of the image.
const SECTORS: u64 = 8192;

/// The bytes of each block.
const BLOCK: [u8; 512] = [0xa5; 512];

/// What is made.
#[derive(Clone, Copy, PartialEq)]
enum Way {
    Put,
    Commit,
    Write,
    Digest,
}

/// The way of this name.
fn way_of(name: &str) -> Option<Way> {
    match name {
        "put" => Some(Way::Put),
        "commit" => Some(Way::Commit),
        "write" => Some(Way::Write),
        "digest" => Some(Way::Digest),
        _ => None,
    }
}

/// Where all lies in the image: a journal of eight sections, blocks of 512 bytes and tags of 32.
fn geometry() -> Result<Geometry>
    ensures { IfOk result (λ g. IsGeometry g SECTORS) }
{
    let mut fields = Super {
        version: 4,
        log2_interleave: 8,
        tag_size: 32,
        sections: 8,
        provided: 8,
        flags: 0x8,
        log2_spb: 0,
        log2_region: 15,
        recalc_sector: 0,
        salt: [0; 16],
    };
    judge(&fields)?;
    fields.provided = best_provided(&fields, SECTORS)?;
    judge(&fields)?;
    Ok(Geometry::new(&fields, SECTORS)?)
}

/// Binds a disk to the file of this name.
fn bind<D: Disk>(disk: &mut D, name: &str) -> Result<()>
    ensures { OnOk result (IsBound (D.identity disk.new).name) }
{
    match disk.bind(name) {
        Ok(()) => Ok(()),
        Err(_) => bail!("{name} can't be opened"),
    }
}

/// Makes laps of a journal on a disk, and behind each of them writes as many bytes into a file, if there is one. Tells
/// how many entries were put.
fn make_laps<D: Disk>(alloc: Global, laps: u64, disk: &mut D, file: &Option<File>) -> Result<u64>
    requires { IsBound (D.identity disk.old).name }
{
    let geometry = geometry()?;
    if disk.sectors() < geometry.initial() {
        bail!("the file has fewer sectors than the journal");
    }
    let sectors = geometry.initial() - 8;
    let mut region = Region::new();
    region.reserve(alloc, sectors)?;
    let room = RingRoom::new(alloc, geometry)?;
    let mut ring = Ring::new(room, region.whole(), 0, 1);
    let bytes = vec![in alloc; 0xa5u8; 512 * sectors as usize]?;
    let tag = Tag::from_bytes(&[0x5a; 32]);
    let shape = ring.shape();
    if shape.spb != 1 || shape.tag != 32 {
        bail!("the journal has another form");
    }
    repeat(&mut ring, disk, laps, &tag, file, &bytes)
}

/// Makes so many laps, and behind each of them writes these bytes into a file, if there is one.
fn repeat<D: Disk>(
    ring: &mut Ring<'_>,
    disk: &mut D,
    laps: u64,
    tag: &Tag,
    file: &Option<File>,
    bytes: &[u8],
) -> Result<u64>
    requires journal { HasSectors (initial ring.old.geometry) (D.identity disk.old) }
    requires one { ring.old.geometry.shape.spb ≡ 1 }
    requires tag { length tag.now ≡ ring.old.geometry.shape.tag_size }
{
    let mut entries: u64 = 0;
    for _lap in 0..laps {
        entries = entries.wrapping_add(make_lap(ring, disk, &BLOCK, tag)?);
        if let Some(file) = file {
            write_once(file, bytes)?;
        }
    }
    Ok(entries)
}

/// Writes these bytes where the journal lies, by one call of the system.
fn write_once(file: &File, bytes: &[u8]) -> Result<()> {
    if file.write_at(bytes, 4096)? != bytes.len() {
        bail!("a write was short");
    }
    Ok(())
}

/// Makes as many digests as so many laps have entries, and tells the sum of their first bytes.
fn make_digests(laps: u64) -> Result<u64> {
    let geometry = geometry()?;
    let entries = geometry.sections().saturating_mul(geometry.shape().entries);
    let mut block = BLOCK;
    let mut sum: u64 = 0;
    for number in 0..entries.saturating_mul(laps) {
        block[0] = (number % 256) as u8;
        sum = sum.wrapping_add(Sha256::digest(&block)[0] as u64);
    }
    Ok(sum)
}

/// Makes what a way asks for, and tells the number that is printed.
fn make<R: Files<File = File> + AllocGlobal>(
    rt: &R,
    way: Way,
    laps: u64,
    name: &str,
) -> Result<u64> {
    if way == Way::Digest {
        return make_digests(laps);
    }
    let mut disk = FileDisk::new(StdFolder::new(rt));
    bind(&mut disk, name)?;
    let mut disk = Unsynced::new(disk, way == Way::Commit);
    let file = if way == Way::Write {
        Some(OpenOptions::new().write(true).open(rt, name)?)
    } else {
        None
    };
    make_laps(rt.alloc(), laps, &mut disk, &file)
}

fn main(rt: HostRuntime) -> Result<()> {
    let mut words = env::args(&rt)?.skip(1);
    let (Some(way), Some(laps), Some(name)) = (words.next(), words.next(), words.next()) else {
        println!(rt; "{USAGE}")?;
        return Ok(());
    };
    let (Some(way), Ok(laps)) = (way_of(way.as_str()), laps.parse::<u64>()) else {
        println!(rt; "{USAGE}")?;
        return Ok(());
    };
    let number = make(&rt, way, laps, name.as_str())?;
    println!(rt; "{number}")?;
    Ok(())
}
