//! A region that is recalculated before one of its blocks is read.
ghost use Rattle.std.specs.Prelude.{◌≡◌, ◌<◌, OnOk};
ghost use Rattle.disk_model.specs.Causes.{HasCause};
ghost use Rattle.disk_model.specs.Disk.{OnlyAdds};
ghost use Rattle.disk_model.specs.Moments.{EachSince};
ghost use Rattle.tag_store.specs.Store.{IsStore};
ghost use Rattle.place_model.specs.Tags.{HoldsTag};
ghost use Rattle.direct_device.specs.Taking.{StandsTaking, TakesEach};

use hmac_tag::TagMaker;
use recalculation::Recalculation;
use sector_disk::{Disk, Failed};
use tag_store::Tags;

/// Recalculates the region of a block, where it awaits.
///
/// # Errors
///
/// - `Failed`: the disk failed. Some blocks of the region may have got their tags.
pub(crate) fn take_to_read<D: Disk>(
    disk: &mut D,
    tags: &mut Tags,
    maker: &TagMaker,
    recalculation: &mut Recalculation,
    block: u64,
) -> Result<(), Failed>
    requires block { block < tags.old.geometry.blocks }
    requires same { recalculation.old.awaiting.geometry ≡ tags.old.geometry }
    requires size { maker.now.size ≡ tags.old.geometry.shape.tag_size }
    requires store { IsStore tags.old (D.identity disk.old) (D.moments disk.old) }

    ensures taken { OnOk result (TakesEach maker.now block recalculation.old recalculation.new tags.old tags.new
        (D.moments disk.old) (D.moments disk.new)) }

    ensures cause { HasCause (D.faults disk.old) (D.faults disk.new) result }

    ensures store { IsStore tags.new (D.identity disk.new) (D.moments disk.new) }
    ensures places { tags.new.geometry ≡ tags.old.geometry }
    ensures geometry { recalculation.new.awaiting.geometry ≡ recalculation.old.awaiting.geometry }
    ensures identity { D.identity disk.new ≡ D.identity disk.old }

    ensures through { StandsTaking maker.now block recalculation.old tags.old
        (D.moments disk.old) (D.moments disk.new) }
    ensures writes { EachSince (OnlyAdds (λ sector x. HoldsTag tags.old.geometry sector))
        (D.moments disk.old) (D.moments disk.new) }
{
    let region = recalculation.awaiting.region_of(block);
    if recalculation.awaiting.awaits(region) {
        return recalculation
            .awaiting
            .recalc_region(disk, tags, maker, region);
    }
    Ok(())
}
