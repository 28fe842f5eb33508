//! Where all lies on a disk that is tested, and single bytes of it.
ghost use Rattle.std.specs.Prelude.{◌≡◌, ◌≤◌, IfOk};
ghost use Rattle.disk_model.specs.Identity.{IsBound};
ghost use Rattle.image_model.specs.Geometry.{IsGeometry, bitmap_sectors, journal_sectors, layout_of};
ghost use Rattle.recalculation.specs.Places.{TellsAreas};

use layout::Geometry;
use sector_disk::{Disk, Failed};
use std::test::Fail;
use superblock::{Super, judge};

/// Where all lies, where the bitmap fits the journal.
pub(crate) fn geometry_on<D: Disk>(disk: &D, fields: &Super) -> Result<Geometry, Fail>
    requires { IsBound (D.identity disk.now).name }

    ensures places { IfOk result (λ geometry. IsGeometry geometry (D.identity disk.now).sectors) }
    ensures layout { IfOk result (λ geometry. geometry ≡ layout_of fields.now) }
    ensures areas { IfOk result (λ geometry. TellsAreas fields.now) }
    ensures fits { IfOk result (λ geometry. bitmap_sectors geometry ≤ journal_sectors geometry) }
{
    judge(fields)?;
    let geometry = Geometry::new(fields, disk.sectors())?;
    if geometry.initial() - 8 < geometry.bitmap_sectors() {
        return Err(Failed.into());
    }
    Ok(geometry)
}

/// A byte of a sector, as the disk itself reads it.
pub(crate) fn byte_of<D: Disk>(disk: &mut D, at: u64, byte: usize) -> Result<u8, Failed>
    requires { IsBound (D.identity disk.old).name }

    ensures identity { D.identity disk.new ≡ D.identity disk.old }
    ensures kept { D.moments disk.new ≡ D.moments disk.old }
{
    let mut sector = [0; 512];
    if at >= disk.sectors() || byte >= 512 {
        return Err(Failed);
    }
    disk.read_run(at, &mut sector)?;
    Ok(sector[byte])
}
