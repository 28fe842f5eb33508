//! Placing one entry of a ring.
ghost use Rattle.std.specs.Prelude.{◌≡◌, ◌<◌, length, Some, OnOk};
ghost use Rattle.disk_model.specs.Causes.{HasCause};
ghost use Rattle.image_model.specs.Section.{Entry};
ghost use Rattle.journal_ring.specs.Places.{entries_at};
ghost use Rattle.place_writer.specs.Cells.{StaysOnDisk};
ghost use Rattle.place_writer.specs.Moves.{GivesThere, PlacesThere, StandsThere, WritesThere, entry_in};
ghost use Rattle.place_writer.specs.Placement.{IsWholeEntry};
ghost use Rattle.tag_store.specs.Store.{IsStore};

use crate::writing::write_entry;
use image_model::{EntryPlace, LARGEST_BLOCK, SECTOR_SIZE};
use journal_ring::Ring;
use journal_section::EntryView;
use sector_disk::{Disk, Failed};
use tag_store::Tags;

/// Writes the entry of the ring that stands here to its place.
///
/// # Errors
///
/// - `Failed`: the disk failed. Any part of it may have been done.
pub(crate) fn place_entry<D: Disk>(
    disk: &mut D,
    ring: &Ring<'_>,
    tags: &mut Tags,
    place: EntryPlace,
) -> Result<(), Failed>
    requires section { place.section < ring.now.geometry.sections }
    requires entry { place.entry < length (entries_at ring.now place.section) }
    requires whole { (entry : Entry) → entry_in ring.now place ≡ Some entry → IsWholeEntry ring.now.geometry entry }
    requires geometry { ring.now.geometry ≡ tags.old.geometry }
    requires store { IsStore tags.old (D.identity disk.old) (D.moments disk.old) }

    ensures placed { OnOk result (PlacesThere ring.now place tags.old tags.new
        (D.moments disk.old) (D.moments disk.new)) }
    ensures tags { OnOk result (GivesThere ring.now place tags.old tags.new
        (D.moments disk.old) (D.moments disk.new)) }

    ensures cause { HasCause (D.faults disk.old) (D.faults disk.new) result }

    ensures stays { StaysOnDisk tags.old tags.new (D.identity disk.old) (D.identity disk.new) (D.moments disk.new) }

    ensures stands { StandsThere ring.now place tags.old (D.moments disk.old) (D.moments disk.new) }
    ensures moments { WritesThere ring.now place tags.old.geometry (D.moments disk.old) (D.moments disk.new) }
{
    let spb = ring.shape().spb;
    let EntryView { sector, tag } = ring.view(place);
    let mut block = [0; LARGEST_BLOCK];
    let bytes = &mut block[..SECTOR_SIZE * spb as usize];
    ring.content(place, bytes);
    write_entry(disk, tags, sector / spb, bytes, &tag)
}
