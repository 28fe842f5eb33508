//! Which entries are placed, and which sections are free then.
ghost use Rattle.std.specs.Prelude.{◌≡◌, IfOk, OnErr, OnOk};
ghost use Rattle.disk_model.specs.Causes.{HasCause};
ghost use Rattle.direct_mode.specs.CallLaws.{GivesTags};
ghost use Rattle.place_writer.specs.Cells.{StaysOnDisk};
ghost use Rattle.place_writer.specs.Moves.{GivesNext, HasPlaced, HasSettled, PlacesOnEach, SettlesOnEach};
ghost use Rattle.place_writer.specs.Moves.{StandsInPlacing, StandsInSettling, WritesNext, WritesTags};
ghost use Rattle.place_writer.specs.Placement.{IsPlacementOf};
ghost use Rattle.tag_store.specs.Store.{IsStore, given_tags};

use crate::entry::place_entry;
use crate::flushing::flush;
use crate::freeing::free_sections;
use crate::placement::{Placement, after_next, next};
use journal_ring::{Moved, Ring};
use sector_disk::{Disk, Failed};
use std::marker::Model;
use tag_store::Tags;

/// Brings the committed entries of a ring to their places, the oldest first, and frees sections.
///
/// All its calls are over one disk, ring and store of tags. Since that ring was made nobody else places its entries
/// or frees its sections.
#[derive(Drop)]
pub struct Placer {
    placement: Placement,
}

impl Model for Placer {
    ghost use Rattle.place_writer.specs.declared.placement.Placement.{Placement};

    ghost Value = { Placement };

    ghost view = { λ placer. placer.placement };
}

impl Placer {
    /// A placer for a ring of which nothing is placed.
    pub fn new() -> Placer
        ensures { result ≡ record { sections = 0; entries = 0 } }
    {
        Placer {
            placement: Placement {
                sections: 0,
                entries: 0,
            },
        }
    }

    /// Writes the oldest committed entry that is not placed to its place: its bytes by one call of the disk, and
    /// then its tag through the store. There is nothing to do where each is placed.
    ///
    /// Source: Linux, `drivers/md/dm-integrity.c`, `do_journal_write`.
    ///
    /// # Errors
    ///
    /// - `Failed`: the disk failed. Nothing more counts as placed, and each image is as a cut leaves it.
    pub fn place<D: Disk>(
        &mut self,
        disk: &mut D,
        ring: &Ring<'_>,
        tags: &mut Tags,
    ) -> Result<Moved, Failed>
        requires placement { IsPlacementOf self.old ring.now }
        requires geometry { ring.now.geometry ≡ tags.old.geometry }
        requires store { IsStore tags.old (D.identity disk.old) (D.moments disk.old) }

        ensures moved { IfOk result (λ moved. HasPlaced moved self.old self.new ring.now
            tags.old tags.new disk.old disk.new) }
        ensures placed { IfOk result (λ moved. PlacesOnEach moved self.old self.new ring.now tags.old tags.new
            (D.moments disk.old) (D.moments disk.new)) }
        ensures tags { OnOk result (GivesNext self.old ring.now tags.old tags.new
            (D.moments disk.old) (D.moments disk.new)) }

        ensures cause { HasCause (D.faults disk.old) (D.faults disk.new) result }
        ensures err { OnErr result (self.new ≡ self.old) }

        ensures placement { IsPlacementOf self.new ring.now }
        ensures stays { StaysOnDisk tags.old tags.new (D.identity disk.old) (D.identity disk.new)
            (D.moments disk.new) }

        ensures cuts { StandsInPlacing self.old ring.now tags.old (D.moments disk.old) (D.moments disk.new) }
        ensures moments { WritesNext self.old ring.now (D.moments disk.old) (D.moments disk.new) }
    {
        let Some(place) = next(self.placement, ring) else {
            return Ok(Moved::Idle);
        };
        place_entry(disk, ring, tags, place)?;
        self.placement = after_next(self.placement, ring.entries_in(place.section));
        Ok(Moved::Did)
    }

    /// Writes the tags back, syncs, and then frees each committed section of which every entry is placed. There is
    /// nothing to do where there is none.
    ///
    /// Source: Linux, `drivers/md/dm-integrity.c`, `do_journal_write`, which flushes before it frees.
    ///
    /// # Errors
    ///
    /// - `Failed`: the disk failed. Nothing is freed, and each image is as a cut leaves it.
    pub fn settle<D: Disk>(
        &mut self,
        disk: &mut D,
        ring: &mut Ring<'_>,
        tags: &mut Tags,
    ) -> Result<Moved, Failed>
        requires placement { IsPlacementOf self.old ring.old }
        requires store { IsStore tags.old (D.identity disk.old) (D.moments disk.old) }

        ensures moved { IfOk result (λ moved. HasSettled moved self.old self.new ring.old ring.new
            tags.old tags.new disk.old disk.new) }
        ensures settled { IfOk result (λ moved. SettlesOnEach moved self.old self.new ring.old ring.new
            tags.old tags.new (D.moments disk.old) (D.moments disk.new)) }
        ensures tags { OnOk result (GivesTags tags.old.geometry (given_tags tags.old) (given_tags tags.new)
            (D.moments disk.old) (D.moments disk.new)) }

        ensures cause { HasCause (D.faults disk.old) (D.faults disk.new) result }
        ensures err { OnErr result ((self.new ≡ self.old) × (ring.new ≡ ring.old)) }

        ensures placement { IsPlacementOf self.new ring.new }
        ensures geometry { ring.new.geometry ≡ ring.old.geometry }
        ensures stays { StaysOnDisk tags.old tags.new (D.identity disk.old) (D.identity disk.new)
            (D.moments disk.new) }
        ensures unread { D.reads disk.new ≡ D.reads disk.old }

        ensures cuts { StandsInSettling self.old ring.old tags.old (D.moments disk.old) (D.moments disk.new) }
        ensures moments { WritesTags self.old ring.old tags.old (D.moments disk.old) (D.moments disk.new) }
    {
        if self.placement.sections == 0 {
            return Ok(Moved::Idle);
        }
        flush(disk, tags)?;
        free_sections(ring, self.placement.sections);
        self.placement.sections = 0;
        Ok(Moved::Did)
    }
}
