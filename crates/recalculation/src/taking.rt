//! The recalculation of a region, block by block: it is read, and its tag put.
ghost use Rattle.std.specs.Prelude.{◌<◌, ◌≤◌, OnErr, OnOk};
ghost use Rattle.disk_model.specs.Causes.{HasCause};
ghost use Rattle.image_model.specs.Geometry.{regions};
ghost use Rattle.recalculation.specs.RegionCalls.{AddsFrom, AddsOne, FailsOne, GivesFrom, TakesFrom, TakesOne};
ghost use Rattle.recalculation.specs.Rest.{StaysButTags};
ghost use Rattle.recalculation.specs.Run.{HasBuffer, ShowsDisk};
ghost use Rattle.recalculation.specs.Taking.{FitsPlaces};

use crate::block_run::BlockRun;
use crate::places::Places;
use hmac_tag::TagMaker;
use sector_disk::{Disk, Failed};
use tag_store::Tags;

/// Gives each block of a region that may await the tag of its placed bytes.
///
/// # Errors
///
/// - `Failed`: the disk failed. Some of the blocks may have got their tags.
pub(crate) fn take_region<D: Disk>(
    disk: &mut D,
    tags: &mut Tags,
    maker: &TagMaker,
    places: &Places,
    run: &mut BlockRun,
    region: u64,
) -> Result<(), Failed>
    requires fits { FitsPlaces maker.now places.now tags.old (D.identity disk.old) (D.moments disk.old) }
    requires region { region < regions places.now.geometry }
    requires buffer { HasBuffer run.old }

    ensures taken { OnOk result (TakesFrom maker.now places.now region tags.old tags.new
        (D.moments disk.old) (D.moments disk.new)) }

    ensures cause { HasCause (D.faults disk.old) (D.faults disk.new) result }
    ensures err { OnErr result (GivesFrom maker.now places.now region tags.old tags.new
        (D.moments disk.old) (D.moments disk.new)) }

    ensures buffer { HasBuffer run.new }
    ensures stays { StaysButTags tags.old tags.new (D.identity disk.old) (D.identity disk.new)
        (D.moments disk.old) (D.moments disk.new) }

    ensures moments { AddsFrom maker.now places.now region tags.old (D.moments disk.old) (D.moments disk.new) }
{
    run.clear();
    let (begin, end) = places.span(region);
    for block in begin..end {
        take_block(disk, tags, maker, places, run, block, end)?;
    }
    Ok(())
}

/// Gives a block the tag of its placed bytes. Where they are not in memory, the blocks from this one on are read that
/// lie side by side before `end`.
///
/// # Errors
///
/// - `Failed`: the disk failed. Some of the tag's bytes may have been put.
fn take_block<D: Disk>(
    disk: &mut D,
    tags: &mut Tags,
    maker: &TagMaker,
    places: &Places,
    run: &mut BlockRun,
    block: u64,
    end: u64,
) -> Result<(), Failed>
    requires fits { FitsPlaces maker.now places.now tags.old (D.identity disk.old) (D.moments disk.old) }
    requires block { block < end }
    requires end { end ≤ places.now.geometry.blocks }
    requires run { ShowsDisk places.now.geometry run.old (D.moments disk.old) }

    ensures taken { OnOk result (TakesOne maker.now places.now block tags.old tags.new
        (D.moments disk.old) (D.moments disk.new)) }

    ensures cause { HasCause (D.faults disk.old) (D.faults disk.new) result }
    ensures err { OnErr result (FailsOne maker.now places.now block tags.old tags.new
        (D.moments disk.old) (D.moments disk.new)) }

    ensures run { OnOk result (ShowsDisk places.now.geometry run.new (D.moments disk.new)) }
    ensures buffer { HasBuffer run.new }
    ensures stays { StaysButTags tags.old tags.new (D.identity disk.old) (D.identity disk.new)
        (D.moments disk.old) (D.moments disk.new) }

    ensures moments { AddsOne maker.now places.now block tags.old (D.moments disk.old) (D.moments disk.new) }
{
    run.show(disk, places, block, end)?;
    let spb = places.geometry.shape().spb;
    let tag = maker.tag(block * spb, run.block(block, spb));
    tags.put(disk, block, &tag)
}
