//! Judging the used entries of a journal, before any is replayed: its sections are read one by one.
ghost use Rattle.std.specs.Prelude.{◌≡◌, ◌≢◌, ◌*◌, ◌^◌, ◌<◌, length, Err, IfOk, Ok};
ghost use Rattle.disk_model.specs.Disk.{last_image};
ghost use Rattle.disk_model.specs.Identity.{IsBound};
ghost use Rattle.disk_model.specs.Moments.{HasNow};
ghost use Rattle.image_model.specs.Geometry.{IsGeometry, section_entries, section_sectors};
ghost use Rattle.image_model.specs.Openable.{entry_fault, is_block_start};
ghost use Rattle.image_model.specs.Scan.{walk_of_grid};
ghost use Rattle.image_refusal.specs.Calls.{HasCallCause};
ghost use Rattle.commit_id.specs.Grid.{as_grid};
ghost use Rattle.sector_window.specs.Window.{HasRoom};
ghost use Rattle.journal_reading.specs.Entries.{entry_with};
ghost use Rattle.journal_reading.specs.Faults.{TellsFault, fault_in, refusal_in};
ghost use Rattle.journal_reading.specs.Grids.{IsGridFor, IsGridOn};
ghost use Rattle.journal_reading.specs.Journal.{FitsJournal, IsJudgedOn};
ghost use Rattle.journal_reading.specs.Judging.{AddsInSection, JudgesAt, StaysInside, fault_in_section};
ghost use Rattle.journal_reading.specs.Leaving.{LeavesDisk};
ghost use Rattle.journal_reading.specs.Newest.{newest_in};
ghost use Rattle.journal_reading.specs.Places.{IsWalk, places_of};

use crate::entries::read_in_section;
use crate::newest::NewestEntries;
use crate::places::{Walk, entry_count, entry_place};
use crate::reading::JudgedJournal;
use commit_id::{Grid, Plan};
use hmac_tag::TagMaker;
use image_model::{EntryPlace, LARGEST_BLOCK, SECTOR_SIZE};
use image_refusal::{CallFault, JournalFault};
use journal_section::EntryView;
use layout::Geometry;
use sector_disk::Disk;
use sector_window::SectorWindow;
use std::alloc::Global;

/// Judges the used entries of the sections that count, in the order in which they would be replayed, and keeps which is
/// the newest of each block. Each of these sections is read once, by one call of the disk, and each entry is hashed
/// once.
///
/// Own: all are judged before any is replayed.
///
/// # Errors
///
/// - `Memory`: there is none for a section, or for what is kept.
/// - `Disk`: the disk failed at a read.
/// - `Refused`: the first entry that is, and why.
pub(crate) fn judge_planned<D: Disk>(
    alloc: Global,
    disk: &mut D,
    geometry: &Geometry,
    maker: &TagMaker,
    grid: Grid,
    plan: Plan,
) -> Result<JudgedJournal, CallFault<JournalFault>>
    requires bound { IsBound (D.identity disk.old).name }
    requires geometry { IsGeometry geometry.now (D.identity disk.old).sectors }
    requires maker { maker.now.size ≡ geometry.now.shape.tag_size }
    requires fits { IsGridFor geometry.now (as_grid grid) }
    requires grid { HasNow (λ c. IsGridOn geometry.now (last_image c) (as_grid grid)) (D.moments disk.old) }
    requires plan { walk_of_grid (as_grid grid) ≡ Ok plan }

    ensures fits { IfOk result (FitsJournal geometry.now) }
    ensures judged { IfOk result (λ journal. HasNow (λ c. IsJudgedOn maker.now geometry.now (last_image c) journal)
        (D.moments disk.old)) }

    ensures refused { TellsFault maker.now geometry.now result (D.moments disk.old) }
    ensures cause { HasCallCause (D.faults disk.old) (D.faults disk.new) result }

    ensures identity { D.identity disk.new ≡ D.identity disk.old }
    ensures kept { D.moments disk.new ≡ D.moments disk.old }
{
    let shape = geometry.shape();
    let mut window = SectorWindow::new(alloc, shape.sectors)?;
    let mut buffer = [0; LARGEST_BLOCK];
    let block = &mut buffer[..SECTOR_SIZE * shape.spb as usize];
    let mut newest = NewestEntries::new(alloc);
    let mut count = 0;
    for k in 0..entry_count(geometry, &plan.walk) {
        let used = judge_at(
            disk,
            geometry,
            maker,
            &plan.walk,
            k,
            &mut window,
            block,
            &mut newest,
        )?;
        count += used;
    }
    Ok(JudgedJournal {
        grid,
        plan,
        newest,
        count,
    })
}

/// Judges the entry with this number among those of a walk, if it is used, and tells how many used ones stand there:
/// one or none. Its section is read where the window does not show it, and its bytes are put into `block`.
///
/// # Errors
///
/// - `Disk`: the disk failed at the read.
/// - `Memory`: there is none for one block more.
/// - `Refused`: it is.
fn judge_at<D: Disk>(
    disk: &mut D,
    geometry: &Geometry,
    maker: &TagMaker,
    walk: &Walk,
    number: u64,
    window: &mut SectorWindow,
    block: &mut [u8],
    newest: &mut NewestEntries,
) -> Result<u64, CallFault<JournalFault>>
    requires bound { IsBound (D.identity disk.old).name }
    requires geometry { IsGeometry geometry.now (D.identity disk.old).sectors }
    requires maker { maker.now.size ≡ geometry.now.shape.tag_size }
    requires walk { IsWalk geometry.now.sections walk.now }
    requires number { number < length (places_of geometry.now walk.now) }
    requires window { HasRoom (section_sectors geometry.now.shape) window.old (D.moments disk.old) }
    requires block { length block.old ≡ 512 * geometry.now.shape.spb }

    ensures judged { JudgesAt maker.now geometry.now (D.moments disk.old) walk.now number newest.old newest.new result }
    ensures inside { IfOk result (StaysInside geometry.now (newest_in newest.old) (newest_in newest.new)) }

    ensures cause { HasCallCause (D.faults disk.old) (D.faults disk.new) result }

    ensures window { HasRoom (section_sectors geometry.now.shape) window.new (D.moments disk.new) }
    ensures leaves { LeavesDisk (D.identity disk.old) (D.identity disk.new) (D.moments disk.old) (D.moments disk.new) }
{
    let place = entry_place(geometry, walk, number);
    let at = geometry.section_at(place.section);
    let sectors = geometry.shape().sectors;
    window.show(disk, at, sectors)?;
    judge_entry(
        geometry,
        maker,
        window.run(at, sectors),
        place,
        number,
        block,
        newest,
    )
}

/// Judges an entry by the bytes of its section, if it is used, and makes it the newest of its block. Tells how many
/// used ones stand there: one or none. Its bytes are put into `block`.
///
/// # Errors
///
/// - `Refused`: it is.
/// - `Memory`: there is none for one block more.
fn judge_entry(
    geometry: &Geometry,
    maker: &TagMaker,
    section: &[u8],
    place: EntryPlace,
    number: u64,
    block: &mut [u8],
    newest: &mut NewestEntries,
) -> Result<u64, CallFault<JournalFault>>
    requires geometry { IsGeometry geometry.now (2 ^ 48) }
    requires maker { maker.now.size ≡ geometry.now.shape.tag_size }
    requires section { length section.now ≡ 512 * section_sectors geometry.now.shape }
    requires entry { place.entry < section_entries geometry.now.shape }
    requires block { length block.old ≡ 512 * geometry.now.shape.spb }

    ensures added { IfOk result (AddsInSection geometry.now number place section.now
        newest.old newest.new) }

    ensures refused { result ≢ Err CallFault.Memory → refusal_in result
        ≡ fault_in_section maker.now geometry.now place section.now }
    ensures disk { result ≢ Err CallFault.Disk }
{
    let Some(view) = read_in_section(geometry, section, place.entry, block) else {
        return Ok(0);
    };
    judge_view(geometry, maker, place, &view, block)?;
    newest.put(view.sector / geometry.shape().spb, number)?;
    Ok(1)
}

/// Whether a block of the device begins at this sector.
fn is_block_start(geometry: &Geometry, sector: u64) -> bool
    ensures { result ≡ is_block_start geometry.now sector }
{
    let spb = geometry.shape().spb;
    let end = geometry.blocks() * spb;
    sector % spb == 0 && sector < end
}

/// Judges an entry with these bytes: by its sector, and then by its tag.
///
/// # Errors
///
/// - `JournalBlock`: no block of the device begins at its sector.
/// - `JournalTag`: its tag is not that of its bytes.
fn judge_view(
    geometry: &Geometry,
    maker: &TagMaker,
    place: EntryPlace,
    view: &EntryView,
    block: &[u8],
) -> Result<(), JournalFault>
    requires { maker.now.size ≡ geometry.now.shape.tag_size }

    ensures { fault_in result ≡ entry_fault maker.now.key maker.now.salt geometry.now
        place (entry_with block.now view.now) }
{
    let EntryPlace { section, entry } = place;
    let sector = view.sector;
    if !is_block_start(geometry, sector) {
        return Err(JournalFault::JournalBlock {
            section,
            entry,
            sector,
        });
    }
    if maker.matches(sector, block, &view.tag) {
        return Ok(());
    }
    Err(JournalFault::JournalTag {
        section,
        entry,
        stored: view.tag,
        computed: maker.tag(sector, block),
    })
}
