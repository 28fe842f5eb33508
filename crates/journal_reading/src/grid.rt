//! The grid of commit numbers of a journal, as the scan sees it. Its sectors are read once, in runs.
ghost use Rattle.std.specs.Prelude.{◌≡◌, ◌+◌, ◌^◌, vec_capacity, vec_len, IfOk, OnOk};
ghost use Rattle.disk_model.specs.Causes.{HasCause};
ghost use Rattle.disk_model.specs.Disk.{last_image};
ghost use Rattle.disk_model.specs.Identity.{IsBound};
ghost use Rattle.disk_model.specs.Moments.{HasNow};
ghost use Rattle.image_model.specs.Geometry.{IsGeometry};
ghost use Rattle.commit_id.specs.Grid.{as_grid};
ghost use Rattle.sector_window.specs.Window.{HasRoom};
ghost use Rattle.journal_reading.specs.Cells.{AreFirstCells};
ghost use Rattle.journal_reading.specs.Grids.{HasGridRoom, HasRoomForNext, IsGridFor, IsGridOn};
ghost use Rattle.journal_reading.specs.Leaving.{LeavesDisk};
ghost use Rattle.journal_reading.specs.Used.{is_used_outside_at};

use crate::cells::cell_of;
use crate::used::has_used_outside;
use commit_id::{Cell, Grid};
use image_model::SUPERBLOCK_SECTORS;
use layout::Geometry;
use sector_disk::{Disk, Failed, Memory};
use sector_window::SectorWindow;
use std::alloc::Global;

/// How many sectors of a journal one call of the disk reads at most.
///
/// Own: 256 KiB of them.
const MOST_AT_ONCE: u64 = 512;

/// What the grid of a journal is read with.
#[derive(Drop)]
pub struct GridRoom {
    /// Room for what each of its sectors bears.
    pub cells: Vec<Cell>,
    /// The sectors that one call of the disk reads.
    pub window: SectorWindow,
}

impl GridRoom {
    /// Takes the memory for the grid of a journal: for what each of its sectors bears, and for what one call of the
    /// disk reads.
    ///
    /// # Errors
    ///
    /// - `Memory`: there is none for these.
    pub fn new(alloc: Global, geometry: &Geometry) -> Result<GridRoom, Memory>
        requires { IsGeometry geometry.now (2 ^ 48) }

        ensures { IfOk result (HasGridRoom geometry.now) }
    {
        let sectors = geometry.initial() - SUPERBLOCK_SECTORS;
        let cells = Vec::with_capacity(alloc, sectors as usize)?;
        let window = SectorWindow::new(alloc, sectors.min(MOST_AT_ONCE))?;
        Ok(GridRoom { cells, window })
    }
}

/// Reads the grid of a journal. Its bitmap's sectors are its first ones, as many as a bitmap that fits it would take:
/// among these a zero sector may be blank, and no entry of that counts as used.
///
/// # Errors
///
/// - `Failed`: the disk failed at a read.
pub fn read_grid<D: Disk>(disk: &mut D, geometry: &Geometry, room: GridRoom) -> Result<Grid, Failed>
    requires bound { IsBound (D.identity disk.old).name }
    requires geometry { IsGeometry geometry.now (D.identity disk.old).sectors }
    requires room { HasGridRoom geometry.now room }

    ensures fits { IfOk result (λ grid. IsGridFor geometry.now (as_grid grid)) }
    ensures grid { IfOk result (λ grid. HasNow (λ c. IsGridOn geometry.now (last_image c) (as_grid grid))
        (D.moments disk.old)) }

    ensures cause { HasCause (D.faults disk.old) (D.faults disk.new) result }

    ensures identity { D.identity disk.new ≡ D.identity disk.old }
    ensures kept { D.moments disk.new ≡ D.moments disk.old }
{
    let GridRoom {
        mut cells,
        mut window,
    } = room;
    let bitmap = geometry.blank_bound();
    let mut used_outside = false;
    for _ in 0..geometry.initial() - SUPERBLOCK_SECTORS {
        let used = read_cell(disk, geometry, bitmap, &mut window, &mut cells)?;
        used_outside = used_outside || used;
    }
    Ok(Grid {
        sections: geometry.sections(),
        sectors: geometry.shape().sectors,
        cells,
        bitmap,
        used_outside,
    })
}

/// Appends what the sector of the journal bears that comes next, and tells whether a used entry stands in it. Of a zero
/// sector among the first `bitmap` no entry counts.
///
/// # Errors
///
/// - `Failed`: the disk failed at the read.
fn read_cell<D: Disk>(
    disk: &mut D,
    geometry: &Geometry,
    bitmap: u64,
    window: &mut SectorWindow,
    cells: &mut Vec<Cell>,
) -> Result<bool, Failed>
    requires bound { IsBound (D.identity disk.old).name }
    requires geometry { IsGeometry geometry.now (D.identity disk.old).sectors }
    requires window { HasRoom 1 window.old (D.moments disk.old) }
    requires next { HasRoomForNext geometry.now (vec_len cells.old) (vec_capacity cells.old) }
    requires cells { AreFirstCells geometry.now (D.moments disk.old) cells.old.items }

    ensures used { IfOk result (λ used. HasNow (λ c. used
        ≡ is_used_outside_at bitmap geometry.now (last_image c) (vec_len cells.old)) (D.moments disk.old)) }
    ensures cells { OnOk result (AreFirstCells geometry.now (D.moments disk.old) cells.new.items) }
    ensures more { OnOk result (vec_len cells.new ≡ vec_len cells.old + 1) }

    ensures cause { HasCause (D.faults disk.old) (D.faults disk.new) result }

    ensures window { HasRoom 1 window.new (D.moments disk.new) }
    ensures capacity { vec_capacity cells.new ≡ vec_capacity cells.old }
    ensures leaves { LeavesDisk (D.identity disk.old) (D.identity disk.new) (D.moments disk.old) (D.moments disk.new) }
{
    let k = cells.len() as u64;
    let at = SUPERBLOCK_SECTORS + k;
    window.show(disk, at, 1)?;
    let shape = geometry.shape();
    let bytes = window.run(at, 1);
    cells.push_reserved(cell_of(bytes, k, shape.sectors));
    Ok(has_used_outside(shape, bitmap, k, bytes))
}
