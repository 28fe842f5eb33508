//! The window over a disk in memory: what it reads at once, what it does not read again, and a read that fails.
ghost use Rattle.std.specs.Prelude.{◌≡◌};
ghost use Rattle.disk_model.specs.Identity.{IsBound};
ghost use Rattle.sector_window.specs.Window.{ShowsDisk};

use sector_disk::{Disk, Failed, MemDisk};
use sector_window::SectorWindow;
use std::alloc::Global;
use std::test::Fail;

const SECTORS: u64 = 40;

/// A disk of which each sector has its own number in all its bytes.
fn numbered(alloc: Global) -> Result<MemDisk, Fail> {
    let mut disk = MemDisk::new(alloc, SECTORS, SECTORS)?;
    for sector in 0..SECTORS {
        if disk.sectors() == SECTORS {
            disk.write_run(sector, &[sector as u8; 512])?;
        }
    }
    Ok(disk)
}

/// The first and the last byte of two sectors, through the window.
fn ends_of_two<D: Disk>(
    window: &mut SectorWindow,
    disk: &mut D,
    at: u64,
) -> Result<(u8, u8), Failed>
    requires bound { IsBound (D.identity disk.old).name }
    requires window { ShowsDisk window.old (D.moments disk.old) }

    ensures window { ShowsDisk window.new (D.moments disk.new) }
    ensures identity { D.identity disk.new ≡ D.identity disk.old }
{
    let sectors = disk.sectors();
    if sectors > 1 << 47 || at >= sectors || sectors - at < 2 || window.room() < 2 {
        return Err(Failed);
    }
    window.show(disk, at, 2)?;
    let run = window.run(at, 2);
    Ok((run[0], run[1023]))
}

#[test]
fn a_run_is_read_once(rt: HostRuntime) -> Result<(), Fail> {
    let mut disk = numbered(rt.alloc())?;
    let mut window = SectorWindow::new(rt.alloc(), 8)?;
    // Each write was one call: the first read is call 41, and any other one fails.
    disk.fail_at(&[42]);
    assert_eq!(rt; ends_of_two(&mut window, &mut disk, 3)?, (3, 4));
    assert_eq!(rt; ends_of_two(&mut window, &mut disk, 9)?, (9, 10));
    assert!(rt; window.shows(3, 8));
    assert!(rt; !window.shows(10, 2));
    assert!(rt; ends_of_two(&mut window, &mut disk, 10).is_err());
    assert!(rt; !window.shows(10, 1));
    assert_eq!(rt; ends_of_two(&mut window, &mut disk, 10)?, (10, 11));
    Ok(())
}
