//! Reading a journal, and judging what stands in it.
ghost use Rattle.std.specs.Prelude.{◌≡◌, ◌*◌, length, IfOk, OnOk};
ghost use Rattle.disk_model.specs.Causes.{HasCause};
ghost use Rattle.disk_model.specs.Disk.{last_image};
ghost use Rattle.disk_model.specs.Identity.{IsBound};
ghost use Rattle.disk_model.specs.Moments.{HasNow};
ghost use Rattle.image_model.specs.Geometry.{IsGeometry, journal_sectors};
ghost use Rattle.image_refusal.specs.Calls.{HasCallCause};
ghost use Rattle.journal_reading.specs.Faults.{TellsFault};
ghost use Rattle.journal_reading.specs.Journal.{FitsJournal, HasJournal, IsJudgedOn};

use crate::grid::{GridRoom, read_grid};
use crate::judging::judge_planned;
use crate::newest::NewestEntries;
use commit_id::{Grid, Plan, scan};
use hmac_tag::TagMaker;
use image_model::SUPERBLOCK_SECTORS;
use image_refusal::{CallFault, JournalFault};
use layout::Geometry;
use sector_disk::{Disk, Failed};
use std::alloc::Global;

/// A journal that may be replayed.
#[derive(Drop)]
pub struct JudgedJournal {
    /// What each of its sectors bears.
    pub grid: Grid,
    /// Its state, and the sections that count.
    pub plan: Plan,
    /// Of each block that has an entry the newest one.
    pub newest: NewestEntries,
    /// How many entries are used in the sections that count.
    pub count: u64,
}

/// Reads the journal of an image with this geometry, by one call of the disk.
///
/// # Errors
///
/// - `Failed`: the disk failed. Then what is left in the buffer is open.
pub fn read_journal<D: Disk>(
    disk: &mut D,
    geometry: &Geometry,
    bytes: &mut [u8],
) -> Result<(), Failed>
    requires bound { IsBound (D.identity disk.old).name }
    requires geometry { IsGeometry geometry.now (D.identity disk.old).sectors }
    requires bytes { length bytes.old ≡ 512 * journal_sectors geometry.now }

    ensures read { OnOk result (HasNow (λ c. HasJournal geometry.now bytes.new (last_image c))
        (D.moments disk.old)) }

    ensures cause { HasCause (D.faults disk.old) (D.faults disk.new) result }

    ensures identity { D.identity disk.new ≡ D.identity disk.old }
    ensures kept { D.moments disk.new ≡ D.moments disk.old }
{
    disk.read_run(SUPERBLOCK_SECTORS, bytes)
}

/// Judges the journal of an image with this geometry. Nothing is written.
///
/// 1. Its sectors are read, in runs, for what each of them bears, and that is scanned.
/// 2. The sections that count are read once more, one by one, and each used entry of them is judged.
///
/// Memory is taken for what each sector bears, and then for a section and for which entry is the newest of each block.
/// A journal that the scan refuses takes the first alone.
///
/// # Errors
///
/// `Memory` and `Disk` come whenever they hold:
///
/// - `Memory`: there is none for these.
/// - `Disk`: the disk failed at a read.
/// - `Refused`: it is, by its scan or for the first entry in the order of the replay.
pub fn judge_journal<D: Disk>(
    alloc: Global,
    disk: &mut D,
    geometry: &Geometry,
    maker: &TagMaker,
) -> Result<JudgedJournal, CallFault<JournalFault>>
    requires bound { IsBound (D.identity disk.old).name }
    requires geometry { IsGeometry geometry.now (D.identity disk.old).sectors }
    requires maker { maker.now.size ≡ geometry.now.shape.tag_size }

    ensures fits { IfOk result (FitsJournal geometry.now) }
    ensures judged { IfOk result (λ journal. HasNow (λ c. IsJudgedOn maker.now geometry.now (last_image c) journal)
        (D.moments disk.old)) }

    ensures refused { TellsFault maker.now geometry.now result (D.moments disk.old) }
    ensures cause { HasCallCause (D.faults disk.old) (D.faults disk.new) result }

    ensures identity { D.identity disk.new ≡ D.identity disk.old }
    ensures kept { D.moments disk.new ≡ D.moments disk.old }
{
    let room = GridRoom::new(alloc, geometry)?;
    let grid = read_grid(disk, geometry, room)?;
    match scan(&grid) {
        Ok(plan) => judge_planned(alloc, disk, geometry, maker, grid, plan),
        Err(fault) => Err(CallFault::Refused(JournalFault::Scan(fault))),
    }
}
