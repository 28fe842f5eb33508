//! The regions that are left to be recalculated.
ghost use Rattle.std.specs.Prelude.{◌≡◌, ◌<◌, ◌*◌, ℕ, false, IfOk, OnErr, OnOk};
ghost use Rattle.disk_model.specs.Causes.{HasCause};
ghost use Rattle.image_model.specs.Geometry.{regions};
ghost use Rattle.device_model.specs.Regions.{with_region};
ghost use Rattle.dirty_bitmap.specs.Regions.{has_region};
ghost use Rattle.recalculation.specs.Awaiting.{IsLeft};
ghost use Rattle.recalculation.specs.RegionCalls.{AddsIn, GivesIn, TakesIn, left_in};
ghost use Rattle.recalculation.specs.Rest.{StaysButTags};
ghost use Rattle.recalculation.specs.Run.{HasBuffer};
ghost use Rattle.recalculation.specs.Taking.{FitsPlaces};

use crate::block_run::BlockRun;
use crate::places::Places;
use crate::taking::take_region;
use dirty_bitmap::RegionSet;
use hmac_tag::TagMaker;
use sector_disk::{Disk, Failed, Memory};
use std::alloc::Global;
use tag_store::Tags;

/// The regions that are left, and room for blocks of one.
#[derive(Drop)]
pub(crate) struct Left {
    pub(crate) set: RegionSet,
    run: BlockRun,
}

impl Left {
    /// Takes room for the regions of a set.
    ///
    /// # Errors
    ///
    /// - `Memory`: there is none for it.
    pub(crate) fn of(alloc: Global, set: RegionSet) -> Result<Left, Memory>
        ensures set { IfOk result (λ left. left.set ≡ set) }
        ensures buffer { IfOk result (λ left. HasBuffer left.run) }
    {
        let run = BlockRun::new(alloc)?;
        Ok(Left { set, run })
    }

    /// Recalculates a region, where it is left. Then it is not any more.
    ///
    /// # Errors
    ///
    /// - `Failed`: the disk failed. The region is still left, and some of its blocks may have got their tags.
    pub(crate) fn take<D: Disk>(
        &mut self,
        disk: &mut D,
        tags: &mut Tags,
        maker: &TagMaker,
        places: &Places,
        region: u64,
    ) -> Result<(), Failed>
        requires left { IsLeft places.now.geometry self.old }
        requires fits { FitsPlaces maker.now places.now tags.old (D.identity disk.old) (D.moments disk.old) }
        requires region { region < regions places.now.geometry }

        ensures done { OnOk result ((r : ℕ) → has_region self.new.set r
            ≡ with_region region false (has_region self.old.set) r) }
        ensures taken { OnOk result (TakesIn maker.now (left_in places.now self.old) region tags.old tags.new
            (D.moments disk.old) (D.moments disk.new)) }

        ensures cause { HasCause (D.faults disk.old) (D.faults disk.new) result }
        ensures err { OnErr result (self.new.set ≡ self.old.set) }
        ensures between { OnErr result (GivesIn maker.now (left_in places.now self.old) region tags.old tags.new
            (D.moments disk.old) (D.moments disk.new)) }

        ensures left { IsLeft places.now.geometry self.new }
        ensures stays { StaysButTags tags.old tags.new (D.identity disk.old) (D.identity disk.new)
            (D.moments disk.old) (D.moments disk.new) }

        ensures moments { AddsIn maker.now (left_in places.now self.old) region tags.old
            (D.moments disk.old) (D.moments disk.new) }
    {
        if !self.set.has(region) {
            return Ok(());
        }
        take_region(disk, tags, maker, places, &mut self.run, region)?;
        self.set.remove(region);
        Ok(())
    }
}
