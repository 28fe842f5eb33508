//! Placing the entries of a journal by its bytes.
ghost use Rattle.std.specs.Prelude.{◌≡◌, ◌*◌, ◌<◌, ◌↔◌, length, IsTrue, OnOk, Some};
ghost use Rattle.disk_model.specs.Causes.{HasCause};
ghost use Rattle.journal_reading.specs.Newest.{newest_in};
ghost use Rattle.journal_reading.specs.Places.{places_of};
ghost use Rattle.replay.specs.Placing.{IsStillRead, PlacesRead, StandsReading, StandsTurning, TurnsEntry};
ghost use Rattle.replay.specs.ReadPlaces.{ShowsPlaces};
ghost use Rattle.replay.specs.Replaying.{IsReplaying, KeepsStoreOn};
ghost use Rattle.replay.specs.Writes.{AddsRead};

use crate::place_run::PlaceRun;
use crate::writing::place_view;
use image_model::{LARGEST_BLOCK, SECTOR_SIZE};
use journal_reading::{JudgedJournal, NewestEntries, entry_count, entry_place, read_entry};
use layout::Geometry;
use sector_disk::{Disk, Failed};
use tag_store::Tags;

/// A journal that was judged, and the bytes that were read of it.
#[derive(Clone, Copy)]
struct ReadJournal<'j> {
    geometry: &'j Geometry,
    journal: &'j JudgedJournal,
    bytes: &'j [u8],
}

/// Brings the newest entry of each block to its place, in the order of the replay: of each its bytes by one call of the
/// disk, and then its tag through the store, both only where others are read there. Nothing is hashed.
///
/// Source: Linux, `drivers/md/dm-integrity.c`, `do_journal_write`.
///
/// # Errors
///
/// - `Failed`: the disk failed. The first of them may be placed.
pub(crate) fn place_all<D: Disk>(
    disk: &mut D,
    tags: &mut Tags,
    geometry: &Geometry,
    journal: &JudgedJournal,
    bytes: &[u8],
) -> Result<(), Failed>
    requires { IsReplaying geometry.now bytes.now journal.now tags.old (D.identity disk.old) (D.moments disk.old) }

    ensures placed { OnOk result (PlacesRead geometry.now bytes.now journal.now tags.old tags.new
        (D.moments disk.old) (D.moments disk.new)) }

    ensures cause { HasCause (D.faults disk.old) (D.faults disk.new) result }

    ensures keeps { KeepsStoreOn tags.old tags.new (D.identity disk.old) (D.identity disk.new) (D.moments disk.new) }

    ensures stands { StandsReading geometry.now bytes.now journal.now tags.old
        (D.moments disk.old) (D.moments disk.new) }
    ensures moments { AddsRead geometry.now bytes.now journal.now (D.moments disk.old) (D.moments disk.new) }
    ensures still { IsStillRead geometry.now bytes.now journal.now tags.old tags.new
        (D.moments disk.old) (D.moments disk.new) }
{
    let size = SECTOR_SIZE * geometry.shape().spb as usize;
    let mut buffer = [0; LARGEST_BLOCK];
    let block = &mut buffer[..size];
    let mut run = PlaceRun::new(&journal.newest);
    let read = ReadJournal {
        geometry,
        journal,
        bytes,
    };
    for k in 0..entry_count(geometry, &journal.plan.walk) {
        place_entry(disk, tags, &read, k, block, &mut run)?;
    }
    Ok(())
}

/// Brings the entry with this number among those of the walk to its place, if it is used and the newest of its block.
/// Its bytes are put into `block`.
///
/// # Errors
///
/// - `Failed`: the disk failed. Any part of it may have been done.
fn place_entry<D: Disk>(
    disk: &mut D,
    tags: &mut Tags,
    read: &ReadJournal<'_>,
    number: u64,
    block: &mut [u8],
    run: &mut PlaceRun<'_>,
) -> Result<(), Failed>
    requires replaying { IsReplaying read.now.geometry.now read.now.bytes.now read.now.journal.now tags.old
        (D.identity disk.old) (D.moments disk.old) }
    requires number { number < length (places_of read.now.geometry.now read.now.journal.now.plan.walk) }
    requires block { length block.old ≡ 512 * read.now.geometry.now.shape.spb }
    requires run { ShowsPlaces tags.old.geometry run.old (D.moments disk.old) }

    ensures placed { OnOk result (TurnsEntry read.now.geometry.now read.now.bytes.now read.now.journal.now number
        tags.old tags.new D.moments disk.old disk.new) }

    ensures cause { HasCause (D.faults disk.old) (D.faults disk.new) result }

    ensures run { OnOk result (ShowsPlaces tags.new.geometry run.new (D.moments disk.new)) }
    ensures keeps { KeepsStoreOn tags.old tags.new (D.identity disk.old) (D.identity disk.new) (D.moments disk.new) }

    ensures stands { StandsTurning read.now.geometry.now read.now.bytes.now read.now.journal.now number tags.old
        (D.moments disk.old) (D.moments disk.new) }
    ensures moments { AddsRead read.now.geometry.now read.now.bytes.now read.now.journal.now
        (D.moments disk.old) (D.moments disk.new) }
    ensures still { IsStillRead read.now.geometry.now read.now.bytes.now read.now.journal.now tags.old tags.new
        (D.moments disk.old) (D.moments disk.new) }
{
    let place = entry_place(read.geometry, &read.journal.plan.walk, number);
    let Some(view) = read_entry(read.geometry, read.bytes, place, block) else {
        return Ok(());
    };
    let own = view.sector / read.geometry.shape().spb;
    if is_newest(&read.journal.newest, own, number) {
        place_view(disk, tags, read.geometry, &view, block, run)?;
    }
    Ok(())
}

/// The entry with this number is the newest of the block.
fn is_newest(newest: &NewestEntries, block: u64, number: u64) -> bool
    ensures { IsTrue result ↔ (newest_in newest.now block ≡ Some number) }
{
    match newest.newest(block) {
        Some(there) => there == number,
        None => false,
    }
}
