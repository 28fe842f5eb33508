//! An erasure and a filling of a journal of one section, of 8 metadata sectors and 80 entries of one sector, on a disk
//! in memory.
ghost use Rattle.std.specs.Prelude.{◌≡◌};
ghost use Rattle.image_model.specs.Geometry.{IsGeometry};
ghost use Rattle.disk_model.specs.Identity.{IsBound};

use image_model::Cell;
use journal_erasure::{Erasure, erase, fill};
use layout::Geometry;
use sector_disk::{Disk, Failed, MemDisk};
use std::alloc::Global;
use std::test::Fail;
use superblock::{Super, judge};

/// The fields of an image of 256 sectors with one section.
const FIELDS: Super = Super {
    version: 4,
    log2_interleave: 3,
    tag_size: 32,
    sections: 1,
    provided: 80,
    flags: 0x8,
    log2_spb: 0,
    log2_region: 15,
    recalc_sector: 0,
    salt: [0; 16],
};

const SECTORS: u64 = 256;

/// What a read of one sector gives.
fn sector_of<D: Disk>(disk: &mut D, at: u64) -> Result<[u8; 512], Failed>
    requires { IsBound (D.identity disk.old).name }

    ensures { D.identity disk.new ≡ D.identity disk.old }
{
    let mut sector = [0; 512];
    if at >= disk.sectors() {
        return Err(Failed);
    }
    disk.read_run(at, &mut sector)?;
    Ok(sector)
}

/// Erases a journal that is wholly of number 0.
fn erase_fresh<D: Disk>(alloc: Global, geometry: &Geometry, disk: &mut D) -> Result<(), Fail>
    requires bound { IsBound (D.identity disk.old).name }
    requires geometry { IsGeometry geometry.now (D.identity disk.old).sectors }

    ensures { D.identity disk.new ≡ D.identity disk.old }
{
    if geometry.sections() != 1 || geometry.shape().sectors != 88 {
        return Err(Fail::from("geometry"));
    }
    let mut scratch = vec![in alloc; 0; 512 * 88]?;
    let erasure = Erasure::at_rest(geometry, 0, 1);
    erase(disk, geometry, &erasure, &mut scratch)?;
    Ok(())
}

/// Fills a journal of whose sectors the first three bear no number and all others bear number 3.
fn fill_three<D: Disk>(alloc: Global, geometry: &Geometry, disk: &mut D) -> Result<(), Fail>
    requires bound { IsBound (D.identity disk.old).name }
    requires geometry { IsGeometry geometry.now (D.identity disk.old).sectors }

    ensures { D.identity disk.new ≡ D.identity disk.old }
{
    if geometry.sections() != 1 || geometry.shape().sectors != 88 {
        return Err(Fail::from("geometry"));
    }
    let mut scratch = vec![in alloc; 0; 512 * 88]?;
    let mut cells = vec![in alloc; Cell::Number(3); 88]?;
    cells[0] = Cell::Zero;
    cells[1] = Cell::Zero;
    cells[2] = Cell::Zero;
    fill(disk, geometry, &cells, 3, &mut scratch)?;
    Ok(())
}

#[test]
fn an_erased_journal_is_empty_under_the_number_two_laps_on(rt: HostRuntime) -> Result<(), Fail> {
    judge(&FIELDS)?;
    let geometry = Geometry::new(&FIELDS, SECTORS)?;
    let mut disk = MemDisk::new(rt.alloc(), SECTORS, 200)?;
    erase_fresh(rt.alloc(), &geometry, &mut disk)?;
    // An unused entry, and the commit ids of number 2 by the kernel's constants.
    let first = sector_of(&mut disk, 8)?;
    assert!(rt; first.starts_with(&[0, 0, 0, 0, 0xff, 0xff, 0xff, 0xff]));
    assert!(rt; first.ends_with(&[0x33; 8]));
    let last = sector_of(&mut disk, 95)?;
    assert!(rt; last.starts_with(&[0; 504]));
    assert!(rt; last.ends_with(&[0x64, 0x33, 0x33, 0x33, 0x33, 0x33, 0x33, 0x33]));
    assert_eq!(rt; sector_of(&mut disk, 96)?, [0; 512]);
    Ok(())
}

#[test]
fn only_sectors_without_the_number_are_filled(rt: HostRuntime) -> Result<(), Fail> {
    judge(&FIELDS)?;
    let geometry = Geometry::new(&FIELDS, SECTORS)?;
    let mut disk = MemDisk::new(rt.alloc(), SECTORS, 200)?;
    fill_three(rt.alloc(), &geometry, &mut disk)?;
    // An unused entry, and the commit ids of number 3 by the kernel's constants.
    let first = sector_of(&mut disk, 8)?;
    assert!(rt; first.starts_with(&[0, 0, 0, 0, 0xff, 0xff, 0xff, 0xff]));
    assert!(rt; first.ends_with(&[0x44; 8]));
    let third = sector_of(&mut disk, 10)?;
    assert!(rt; third.ends_with(&[0x46, 0x44, 0x44, 0x44, 0x44, 0x44, 0x44, 0x44]));
    assert_eq!(rt; sector_of(&mut disk, 11)?, [0; 512]);
    Ok(())
}
