//! What is kept beside a disk whose regions are recalculated without a bitmap, and a step of it.
ghost use Rattle.std.specs.Prelude.{◌≡◌, ◌<◌, Ok, None, IfOk, IfSome, OnErr, OnOk};
ghost use Rattle.disk_model.specs.Causes.{HasCause};
ghost use Rattle.disk_model.specs.Disk.{OnlyAdds};
ghost use Rattle.disk_model.specs.Moments.{EachSince};
ghost use Rattle.recalculation.specs.Position.{MayMove};
ghost use Rattle.recalculation.specs.Recalculation.{IsOfTagsOrHead, SettlesPosition, SettlesPositionIn, StaysOnDisk};
ghost use Rattle.recalculation.specs.Recalculation.{StepsPosition, StepsPositionIn, count_of, next_of};
ghost use Rattle.tag_store.specs.Store.{IsStore, given_tags};

use crate::awaiting::Awaiting;
use crate::position::Position;
use direct_mode::flush;
use hmac_tag::TagMaker;
use sector_disk::{Disk, Failed};
use tag_store::Tags;

/// What is kept beside a disk whose regions are recalculated without a bitmap, in journal mode and in direct mode.
#[derive(Drop)]
pub struct Recalculation {
    /// The regions that await the tags of their blocks.
    pub awaiting: Awaiting,
    /// How far sector 0 says that it is.
    pub position: Position,
}

impl Recalculation {
    /// Writes the tags back and syncs. Then it moves the position, as `Position::advance` does.
    ///
    /// # Errors
    ///
    /// - `Failed`: the disk failed. Sector 0 may have got the new fields as a candidate, once all was synced.
    pub fn settle<D: Disk>(&mut self, disk: &mut D, tags: &mut Tags) -> Result<(), Failed>
        requires same { tags.old.geometry ≡ self.old.awaiting.geometry }
        requires store { IsStore tags.old (D.identity disk.old) (D.moments disk.old) }

        ensures settled { OnOk result (SettlesPosition self.old self.new tags.old.geometry (given_tags tags.old)
            (given_tags tags.new) (D.moments disk.old) (D.moments disk.new)) }

        ensures cause { HasCause (D.faults disk.old) (D.faults disk.new) result }
        ensures err { OnErr result (self.new ≡ self.old) }

        ensures position { MayMove self.old.position }
        ensures stays { StaysOnDisk self.old self.new tags.old tags.new (D.identity disk.old)
            (D.identity disk.new) (D.moments disk.new) }

        ensures through { SettlesPositionIn self.old tags.old.geometry (given_tags tags.old)
            (D.moments disk.old) (D.moments disk.new) }
        ensures writes { EachSince (OnlyAdds (IsOfTagsOrHead tags.old.geometry))
            (D.moments disk.old) (D.moments disk.new) }
    {
        // The check sees by this that the fields may be written.
        let _ = self.position.is_set();
        flush(disk, tags)?;
        self.position.advance(disk, tags, &self.awaiting)
    }

    /// Recalculates the least region that awaits, and tells which it was; then it does what `settle` does. There is
    /// nothing to do where none awaits.
    ///
    /// # Errors
    ///
    /// - `Failed`: the disk failed. Some blocks of the region may have got their tags, and sector 0 may have got the
    ///   new fields as a candidate, once these were synced.
    pub fn step<D: Disk>(
        &mut self,
        disk: &mut D,
        tags: &mut Tags,
        maker: &TagMaker,
    ) -> Result<Option<u64>, Failed>
        requires same { tags.old.geometry ≡ self.old.awaiting.geometry }
        requires size { maker.now.size ≡ self.old.awaiting.geometry.shape.tag_size }
        requires store { IsStore tags.old (D.identity disk.old) (D.moments disk.old) }

        ensures least { IfOk result (λ r. r ≡ next_of self.old) }
        ensures taken { IfOk result (λ r. IfSome r (λ region. StepsPosition maker.now region self.old self.new
            tags.old.geometry (given_tags tags.old) (given_tags tags.new) (D.moments disk.old) (D.moments disk.new))) }
        ensures fewer { IfOk result (λ r. IfSome r (λ region. count_of self.new < count_of self.old)) }
        ensures idle { next_of self.old ≡ None
            → (result ≡ Ok None) × (disk.new ≡ disk.old) × (tags.new ≡ tags.old) × (self.new ≡ self.old) }

        ensures cause { HasCause (D.faults disk.old) (D.faults disk.new) result }

        ensures position { MayMove self.old.position }
        ensures stays { StaysOnDisk self.old self.new tags.old tags.new (D.identity disk.old)
            (D.identity disk.new) (D.moments disk.new) }

        ensures through { IfSome (next_of self.old) (λ region. StepsPositionIn maker.now region self.old
            tags.old.geometry (given_tags tags.old) (D.moments disk.old) (D.moments disk.new)) }
        ensures writes { EachSince (OnlyAdds (IsOfTagsOrHead tags.old.geometry))
            (D.moments disk.old) (D.moments disk.new) }
    {
        // The check sees by this that the fields may be written.
        let _ = self.position.is_set();
        let Some(region) = self.awaiting.next() else {
            return Ok(None);
        };
        self.awaiting.recalc_region(disk, tags, maker, region)?;
        self.settle(disk, tags)?;
        Ok(Some(region))
    }
}
