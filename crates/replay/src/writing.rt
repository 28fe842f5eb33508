//! Bringing one entry to its place: what differs there is written, and nothing else.
ghost use Rattle.std.specs.Prelude.{◌≡◌, ◌/◌, ◌<◌, length, OnOk};
ghost use Rattle.disk_model.specs.Causes.{HasCause};
ghost use Rattle.disk_model.specs.Disk.{AddsSome, OnlyAdds};
ghost use Rattle.disk_model.specs.Moments.{EachSince};
ghost use Rattle.image_model.specs.Geometry.{data_at};
ghost use Rattle.direct_laws.specs.CallLaws.{KeepsOthersNow};
ghost use Rattle.journal_reading.specs.Entries.{entry_with};
ghost use Rattle.place_writer.specs.DirectModeCells.{IsBlock, IsTaggedBlock};
ghost use Rattle.tag_store.specs.Store.{IsStore};
ghost use Rattle.place_model.specs.Tags.{HoldsTag};
ghost use Rattle.replay.specs.Placing.{HasLastCell, IsStillWithData, IsStillWithEntry, IsStillWithTag, PlacesData, PlacesEntry, PlacesTag, StandsAmid};
ghost use Rattle.replay.specs.ReadPlaces.{ShowsPlaces};
ghost use Rattle.replay.specs.Replaying.{KeepsStoreOn, last_cell};
ghost use Rattle.place_model.specs.RecoveryWrites.{IsOfPlacing};

use crate::place_run::PlaceRun;
use hmac_tag::Tag;
use journal_section::EntryView;
use layout::Geometry;
use sector_disk::{Disk, Failed};
use tag_store::Tags;

/// Brings an entry to its place: its bytes and its tag are written where others are read there.
///
/// # Errors
///
/// - `Failed`: the disk failed. Any part of it may have been done.
pub(crate) fn place_view<D: Disk>(
    disk: &mut D,
    tags: &mut Tags,
    geometry: &Geometry,
    view: &EntryView,
    block: &[u8],
    run: &mut PlaceRun<'_>,
) -> Result<(), Failed>
    requires geometry { geometry.now ≡ tags.old.geometry }
    requires block { IsTaggedBlock tags.old.geometry (view.now.sector / tags.old.geometry.shape.spb)
        block.now view.now.tag }
    requires store { IsStore tags.old (D.identity disk.old) (D.moments disk.old) }
    requires run { ShowsPlaces tags.old.geometry run.old (D.moments disk.old) }

    ensures placed { OnOk result (PlacesEntry (entry_with block.now view.now) tags.old tags.new
        (D.moments disk.old) (D.moments disk.new)) }

    ensures cause { HasCause (D.faults disk.old) (D.faults disk.new) result }

    ensures run { OnOk result (ShowsPlaces tags.new.geometry run.new (D.moments disk.new)) }
    ensures keeps { KeepsStoreOn tags.old tags.new (D.identity disk.old) (D.identity disk.new) (D.moments disk.new) }

    ensures stands { StandsAmid (HasLastCell tags.old.geometry (entry_with block.now view.now)) tags.old
        (D.moments disk.old) (D.moments disk.new) }
    ensures moments { EachSince (OnlyAdds (IsOfPlacing geometry.now (λ e. e ≡ entry_with block.now view.now)))
        (D.moments disk.old) (D.moments disk.new) }
    ensures still { IsStillWithEntry (entry_with block.now view.now) tags.old tags.new
        (D.moments disk.old) (D.moments disk.new) }
{
    let spb = geometry.shape().spb;
    let number = view.sector / spb;
    place_data(disk, tags, geometry, number, block, run)?;
    place_tag(disk, tags, number, &view.tag)
}

/// Writes the bytes of a block by one call of the disk, where others are read there.
///
/// # Errors
///
/// - `Failed`: the disk failed. Any of the block's sectors may have got its bytes as a candidate.
fn place_data<D: Disk>(
    disk: &mut D,
    tags: &Tags,
    geometry: &Geometry,
    block: u64,
    bytes: &[u8],
    run: &mut PlaceRun<'_>,
) -> Result<(), Failed>
    requires geometry { geometry.now ≡ tags.now.geometry }
    requires block { IsBlock tags.now.geometry block bytes.now }
    requires store { IsStore tags.now (D.identity disk.old) (D.moments disk.old) }
    requires run { ShowsPlaces tags.now.geometry run.old (D.moments disk.old) }

    ensures placed { OnOk result (PlacesData block bytes.now tags.now (D.moments disk.old) (D.moments disk.new)) }

    ensures cause { HasCause (D.faults disk.old) (D.faults disk.new) result }

    ensures run { OnOk result (ShowsPlaces tags.now.geometry run.new (D.moments disk.new)) }
    ensures store { IsStore tags.now (D.identity disk.new) (D.moments disk.new) }
    ensures identity { D.identity disk.new ≡ D.identity disk.old }

    ensures stands { StandsAmid (λ d. (last_cell d block).bytes ≡ bytes.now) tags.now
        (D.moments disk.old) (D.moments disk.new) }
    ensures moments { EachSince (AddsSome (data_at tags.now.geometry block) bytes.now)
        (D.moments disk.old) (D.moments disk.new) }
    ensures still { IsStillWithData tags.now.geometry block bytes.now (D.moments disk.old) (D.moments disk.new) }
{
    if run.is_in_place(disk, geometry, tags, block, bytes)? {
        return Ok(());
    }
    tags.write_block(disk, block, bytes)
}

/// Puts the tag of a block through the store, where that gives another one.
///
/// # Errors
///
/// - `Failed`: the disk failed. Any part of it may have been done.
fn place_tag<D: Disk>(disk: &mut D, tags: &mut Tags, block: u64, tag: &Tag) -> Result<(), Failed>
    requires block { block < tags.old.geometry.blocks }
    requires tag { length tag.now ≡ tags.old.geometry.shape.tag_size }
    requires store { IsStore tags.old (D.identity disk.old) (D.moments disk.old) }

    ensures placed { OnOk result (PlacesTag block tag.now tags.old tags.new
        (D.moments disk.old) (D.moments disk.new)) }

    ensures cause { HasCause (D.faults disk.old) (D.faults disk.new) result }

    ensures others { OnOk result (KeepsOthersNow tags.old.geometry (D.moments disk.old) (D.moments disk.new)) }
    ensures keeps { KeepsStoreOn tags.old tags.new (D.identity disk.old) (D.identity disk.new) (D.moments disk.new) }

    ensures stands { StandsAmid (λ d. (last_cell d block).tag ≡ tag.now) tags.old
        (D.moments disk.old) (D.moments disk.new) }
    ensures moments { EachSince (OnlyAdds (λ sector x. HoldsTag tags.old.geometry sector))
        (D.moments disk.old) (D.moments disk.new) }
    ensures still { IsStillWithTag block tag.now tags.old tags.new (D.moments disk.old) (D.moments disk.new) }
{
    let stored = tags.get(disk, block)?;
    if stored.bytes() == tag.bytes() {
        return Ok(());
    }
    tags.put(disk, block, tag)
}
