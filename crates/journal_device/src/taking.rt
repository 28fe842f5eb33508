//! A region that is recalculated before a block of it is read.
ghost use Rattle.std.specs.Prelude.{◌≡◌, ◌<◌, OnErr, OnOk};
ghost use Rattle.disk_model.specs.Causes.{HasCause};
ghost use Rattle.recalculation.specs.Recalculation.{StaysOnDisk};
ghost use Rattle.tag_store.specs.Store.{IsStore};
ghost use Rattle.journal_device.specs.Recalculating.{TakesFirst, TakesFirstIn};

use crate::JournalState;
use hmac_tag::TagMaker;
use sector_disk::{Disk, Failed};
use tag_store::Tags;

/// Recalculates the region of a block, where that awaits and no section that is not free holds the block.
///
/// # Errors
///
/// - `Failed`: the disk failed. The regions await that did, and some blocks of this one may have got their tags.
pub(crate) fn take_first<D: Disk>(
    disk: &mut D,
    tags: &mut Tags,
    maker: &TagMaker,
    state: &mut JournalState<'_>,
    block: u64,
) -> Result<(), Failed>
    requires block { block < state.old.recalculation.awaiting.geometry.blocks }
    requires same { tags.old.geometry ≡ state.old.recalculation.awaiting.geometry }
    requires size { maker.now.size ≡ state.old.recalculation.awaiting.geometry.shape.tag_size }
    requires store { IsStore tags.old (D.identity disk.old) (D.moments disk.old) }

    ensures taken { OnOk result (TakesFirst maker.now block state.old state.new tags.old tags.new
        (D.moments disk.old) (D.moments disk.new)) }

    ensures cause { HasCause (D.faults disk.old) (D.faults disk.new) result }
    ensures err { OnErr result (state.new ≡ state.old) }

    ensures journal { state.new.journal ≡ state.old.journal }
    ensures stays { StaysOnDisk state.old.recalculation state.new.recalculation tags.old tags.new
        (D.identity disk.old) (D.identity disk.new) (D.moments disk.new) }

    ensures through { TakesFirstIn maker.now block state.old tags.old (D.moments disk.old) (D.moments disk.new) }
{
    let region = state.recalculation.awaiting.region_of(block);
    if !state.recalculation.awaiting.awaits(region) {
        return Ok(());
    }
    if state.journal.is_journaled(block) {
        return Ok(());
    }
    state
        .recalculation
        .awaiting
        .recalc_region(disk, tags, maker, region)
}
