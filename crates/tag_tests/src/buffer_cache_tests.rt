//! The cache over a disk in memory: which sector goes out, and how often the disk is read.
ghost use Rattle.std.specs.Prelude.{◌≡◌, ◌≤◌, IfOk};
ghost use Rattle.disk_model.specs.Identity.{IsBound};
ghost use Rattle.buffer_cache.specs.Cache.{sectors_of};
ghost use Rattle.buffer_cache.specs.Cached.{IsOfDisk};

use buffer_cache::Cache;
use sector_disk::{Disk, Failed, MemDisk, Memory};
use std::alloc::Global;
use std::test::Fail;

const SECTORS: u64 = 40;

/// A cache over a disk of which it holds nothing yet.
fn cache_over<D: Disk>(alloc: Global, disk: &D, slots: u64) -> Result<Cache, Memory>
    requires low { 1 ≤ slots }
    requires high { slots ≤ 65536 }

    ensures { IfOk result (λ cache. IsOfDisk (sectors_of cache) (D.identity disk.now) (D.moments disk.now)) }
{
    Cache::new(alloc, slots)
}

/// Reads a piece through the cache. One that is not within a sector of the disk fails.
fn read<D: Disk>(
    cache: &mut Cache,
    disk: &mut D,
    at: u64,
    from: usize,
    out: &mut [u8],
) -> Result<(), Failed>
    requires bound { IsBound (D.identity disk.old).name }
    requires cache { IsOfDisk (sectors_of cache.old) (D.identity disk.old) (D.moments disk.old) }

    ensures cache { IsOfDisk (sectors_of cache.new) (D.identity disk.new) (D.moments disk.new) }
    ensures identity { D.identity disk.new ≡ D.identity disk.old }
{
    if at >= disk.sectors() || from > 512 || out.len() > 512 - from {
        return Err(Failed);
    }
    cache.read_at(disk, at, from, out)
}

/// Changes a piece through the cache. One that is not within a sector of the disk fails.
fn write<D: Disk>(
    cache: &mut Cache,
    disk: &mut D,
    at: u64,
    from: usize,
    bytes: &[u8],
) -> Result<(), Failed>
    requires bound { IsBound (D.identity disk.old).name }
    requires cache { IsOfDisk (sectors_of cache.old) (D.identity disk.old) (D.moments disk.old) }

    ensures cache { IsOfDisk (sectors_of cache.new) (D.identity disk.new) (D.moments disk.new) }
    ensures identity { D.identity disk.new ≡ D.identity disk.old }
{
    if at >= disk.sectors() || from > 512 || bytes.len() > 512 - from {
        return Err(Failed);
    }
    cache.write_at(disk, at, from, bytes)
}

/// The first byte of a sector, as the disk itself reads it.
fn on_disk<D: Disk>(disk: &mut D, at: u64) -> Result<u8, Failed>
    requires { IsBound (D.identity disk.old).name }

    ensures identity { D.identity disk.new ≡ D.identity disk.old }
    ensures kept { D.moments disk.new ≡ D.moments disk.old }
{
    let mut sector = [0; 512];
    if at >= disk.sectors() {
        return Err(Failed);
    }
    disk.read_run(at, &mut sector)?;
    Ok(sector[0])
}

/// Whether the sixteen pieces of one sector, of 32 bytes each, are zeros.
fn reads_sixteen<D: Disk>(cache: &mut Cache, disk: &mut D) -> Result<bool, Failed>
    requires bound { IsBound (D.identity disk.old).name }
    requires cache { IsOfDisk (sectors_of cache.old) (D.identity disk.old) (D.moments disk.old) }
{
    let mut piece = [0; 32];
    let mut zeros = 0u64;
    for k in 0..16 {
        read(cache, disk, 5, 32 * k, &mut piece)?;
        zeros = zeros.wrapping_add(if piece == [0; 32] { 1 } else { 0 });
    }
    Ok(zeros == 16)
}

#[test]
fn the_least_recently_used_sector_goes_out(rt: HostRuntime) -> Result<(), Fail> {
    let alloc = rt.alloc();
    let mut disk = MemDisk::new(alloc, 130, 10)?;
    let mut cache = cache_over(alloc, &disk, 2)?;
    let mut byte = [0];
    write(&mut cache, &mut disk, 96, 0, &[1])?;
    write(&mut cache, &mut disk, 112, 0, &[2])?;
    assert_eq!(rt; on_disk(&mut disk, 96)?, 0, "nothing is written yet");
    read(&mut cache, &mut disk, 128, 0, &mut byte)?;
    assert_eq!(rt; on_disk(&mut disk, 96)?, 1, "it went out");
    assert_eq!(rt; on_disk(&mut disk, 112)?, 0, "it is held");
    read(&mut cache, &mut disk, 96, 0, &mut byte)?;
    assert_eq!(rt; byte[0], 1);
    assert_eq!(rt; on_disk(&mut disk, 112)?, 2, "it went out in its turn");
    write(&mut cache, &mut disk, 96, 0, &[3])?;
    cache.write_back(&mut disk)?;
    assert_eq!(rt; on_disk(&mut disk, 96)?, 3, "it is written back");
    Ok(())
}

#[test]
fn pieces_of_one_sector_cost_one_read(rt: HostRuntime) -> Result<(), Fail> {
    let alloc = rt.alloc();
    let mut disk = MemDisk::new(alloc, SECTORS, 10)?;
    disk.fail_at(&[2]);
    let mut cache = cache_over(alloc, &disk, 1)?;
    assert!(rt; reads_sixteen(&mut cache, &mut disk)?);
    assert_eq!(rt;
        on_disk(&mut disk, 5),
        Err(Failed),
        "this is the second call of the disk"
    );
    Ok(())
}
