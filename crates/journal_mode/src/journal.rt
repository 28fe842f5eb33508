//! A journal in use, and the calls of a device over it.
ghost use Rattle.std.specs.Prelude.{◌≡◌, ◌↔◌, ◌⊎◌, [], ◌*◌, ◌<◌, Some, true, is_some, length, IfOk, IsOk, OnErr, OnOk};
ghost use Rattle.disk_model.specs.Causes.{HasCause};
ghost use Rattle.disk_model.specs.Disk.{OnlyAdds};
ghost use Rattle.disk_model.specs.Moments.{EachSince};
ghost use Rattle.image_model.specs.Geometry.{journal_sectors};
ghost use Rattle.image_model.specs.Section.{Entry};
ghost use Rattle.journal_laws.specs.Device.{IsJournalOf};
ghost use Rattle.device_model.specs.Progress.{is_journaled};
ghost use Rattle.replay.specs.Cells.{StaysOnDisk};
ghost use Rattle.replay.specs.DirectModeCells.{IsBlock, IsTaggedBlock};
ghost use Rattle.journal_model.specs.Ring.{entries_of, has_room};
ghost use Rattle.journal_ring.specs.Batch.{WritesBatch};
ghost use Rattle.journal_ring.specs.Places.{entry_of};
ghost use Rattle.journal_ring.specs.RoomLaws.{HasBounds};
ghost use Rattle.replay.specs.Moves.{HasPlaced, HasSettled, WritesNext, WritesTags};
ghost use Rattle.replay.specs.Placement.{placed_in};
ghost use Rattle.tag_store.specs.Store.{IsOutForTag, IsStore};

use crate::freeing::drop_freed;
use crate::reading::{read_entry, read_placed};
use crate::room::JournalRoom;
use hmac_tag::Tag;
use journal_overlay::Overlay;
use journal_ring::{Moved, NoRoom, Ring};
use replay::{Placer, Recovered};
use sector_disk::{Disk, Failed};
use sector_pool::Run;
use std::marker::Model;
use tag_store::Tags;

/// The journal of a device: its ring, the places of the newest entries, and what places entries.
///
/// All its calls are over one disk and store of tags, which nobody else writes.
#[derive(Drop)]
pub struct Journal<'p> {
    ring: Ring<'p>,
    overlay: Overlay,
    placer: Placer,
}

impl<'p> Model for Journal<'p> {
    ghost use Rattle.journal_mode.specs.Journal.{PlacedRing, IsJournal};

    ghost Value = { PlacedRing };

    ghost view = { λ j. record { ring = j.ring; placement = j.placer } };

    ghost invariant = { λ j. IsJournal j.ring j.placer j.overlay };
}

impl<'p> Journal<'p> {
    ghost use Rattle.journal_mode.specs.Journal.{after_put, empty_journal};
    ghost use Rattle.journal_mode.specs.Standing.{IsLeftThrough, JournalStanding, StandsAs};
    ghost use Rattle.journal_mode.specs.Calls.{ClosesEach, CommitsEach, CountsEach, FlushesEach, GivesEach, KeepsEach};
    ghost use Rattle.journal_mode.specs.Calls.{PlacesAll, PlacesEach, PutsEach, ReadsEach, SettlesEach};
    ghost use Rattle.journal_mode.specs.Commits.{HasCommitted, WritesBatches, after_flush, after_one};
    ghost use Rattle.journal_mode.specs.Closing.{IsAllFree, WritesAll, WritesEntries, committed_to_place};
    ghost use Rattle.journal_mode.specs.Reads.{HasRead, newest_in};

    /// The journal of a device that has just been recovered, of which nothing is to be placed.
    pub fn new(room: JournalRoom, pool: Run<'p>, at: Recovered) -> Journal<'p>
        requires pool { length pool.bytes ≡ 512 * journal_sectors room }
        requires next { at.next < room.sections }
        requires number { at.number < 4 }

        ensures { result ≡ empty_journal room at.next at.number }
    {
        let JournalRoom { ring, overlay } = room;
        Journal {
            ring: Ring::new(ring, pool, at.next, at.number),
            overlay,
            placer: Placer::new(),
        }
    }

    /// Whether the journal holds a block: an entry of it stands in a section that is not free.
    pub fn is_journaled(&self, block: u64) -> bool
        ensures newest { result ≡ is_some (newest_in self.now.ring block) }
        ensures counted { (w : JournalStanding)
            → IsJournalOf w.format w.history w.counts w.disk self.now.ring
            → result ≡ is_journaled w.counts block }
    {
        self.overlay.newest(block).is_some()
    }

    /// Reads the bytes of a block into `out`, and tells its tag: those of its newest entry in the journal, without
    /// a call of the disk. Where there is none it reads the block in its place by one call, and gets the tag from
    /// the store.
    ///
    /// Source: Linux, `drivers/md/dm-integrity.c`, `dm_integrity_map_continue`, which looks for the block in the
    /// journal first.
    ///
    /// # Errors
    ///
    /// - `Failed`: the disk failed. What is left in the buffer is open.
    pub fn read_block<D: Disk>(
        &self,
        disk: &mut D,
        tags: &mut Tags,
        block: u64,
        out: &mut [u8],
    ) -> Result<Tag, Failed>
        requires geometry { self.now.ring.geometry ≡ tags.old.geometry }
        requires block { IsBlock tags.old.geometry block out.old }
        requires store { IsStore tags.old (D.identity disk.old) (D.moments disk.old) }

        ensures read { IfOk result (λ tag. HasRead (newest_in self.now.ring block) block out.new tag
            tags.old tags.new disk.old disk.new (D.moments disk.old)) }
        ensures cell { IfOk result (λ tag. ReadsEach self.now block out.new tag tags.old (D.moments disk.old)) }
        ensures whole { IfOk result (λ tag. GivesEach self.now block out.new tag tags.old (D.moments disk.old)) }

        ensures journaled { (entry : Entry) → newest_in self.now.ring block ≡ Some entry → IsOk result }
        ensures cause { HasCause (D.faults disk.old) (D.faults disk.new) result }

        ensures kept { KeepsEach self.now tags.old tags.new (D.moments disk.old) (D.moments disk.new) }

        ensures stays { StaysOnDisk tags.old tags.new (D.identity disk.old) (D.identity disk.new)
            (D.moments disk.new) }

        ensures moments { EachSince (OnlyAdds (IsOutForTag block tags.old))
            (D.moments disk.old) (D.moments disk.new) }
    {
        match self.overlay.newest(block) {
            Some(place) => Ok(read_entry(&self.ring, place, out)),
            None => read_placed(disk, tags, block, out),
        }
    }

    /// Puts the bytes of a block and its tag into the journal, behind all other entries. It calls no disk.
    ///
    /// # Errors
    ///
    /// - `NoRoom`: no section is open, and the next one is not free. Nothing is changed.
    pub fn put(&mut self, block: u64, bytes: &[u8], tag: &Tag) -> Result<(), NoRoom>
        requires block { IsTaggedBlock self.old.ring.geometry block bytes.now tag.now }

        ensures put { OnOk result (self.new
            ≡ after_put (entry_of self.old.ring.geometry block bytes.now tag.now) self.old) }
        ensures written { OnOk result (PutsEach block bytes.now tag.now self.old self.new) }

        ensures room { IsOk result ↔ (has_room self.old.ring ≡ true) }
        ensures counted { CountsEach self.old.ring block (IsOk result) }
        ensures err { OnErr result (self.new ≡ self.old) }
    {
        let place = self.ring.put(block, bytes, tag)?;
        self.overlay.add(block, place);
        Ok(())
    }

    /// Writes the opened sections, up to the journal's end, and syncs: their entries are committed then. There is
    /// nothing to do where no section is opened.
    ///
    /// # Errors
    ///
    /// - `Failed`: the disk failed. The journal is as it was, and each image is as a cut leaves it.
    pub fn commit<D: Disk>(&mut self, disk: &mut D, tags: &Tags) -> Result<Moved, Failed>
        requires geometry { self.old.ring.geometry ≡ tags.now.geometry }
        requires store { IsStore tags.now (D.identity disk.old) (D.moments disk.old) }

        ensures moved { IfOk result (λ moved. HasCommitted moved self.old self.new disk.old disk.new
            (D.moments disk.old) (D.moments disk.new)) }
        ensures committed { IfOk result (λ moved. CommitsEach moved self.old self.new tags.now
            (D.moments disk.old) (D.moments disk.new)) }

        ensures cause { HasCause (D.faults disk.old) (D.faults disk.new) result }
        ensures err { OnErr result (self.new ≡ self.old) }

        ensures store { OnOk result (IsStore tags.now (D.identity disk.new) (D.moments disk.new)) }
        ensures identity { D.identity disk.new ≡ D.identity disk.old }
        ensures unread { D.reads disk.new ≡ D.reads disk.old }
        // What holds of every journal.
        ensures bounds { HasBounds self.old.ring }

        ensures left { (w : JournalStanding) → StandsAs w self.old tags.now (D.moments disk.old)
            → IsLeftThrough w (D.moments disk.old) (D.moments disk.new) }
        ensures moments { WritesBatch self.old.ring (D.moments disk.old) (D.moments disk.new) }
    {
        // The store is named in the contract alone: a commit moves no tag.
        let _ = tags;
        let moved = self.ring.commit(disk)?;
        Ok(moved)
    }

    /// Commits until nothing is left to commit: a batch ends at the journal's end, so there are two at most. All
    /// that was written is flushed then.
    ///
    /// # Errors
    ///
    /// - `Failed`: the disk failed. One batch may be committed, and each image is as a cut leaves it.
    pub fn flush<D: Disk>(&mut self, disk: &mut D, tags: &Tags) -> Result<(), Failed>
        requires geometry { self.old.ring.geometry ≡ tags.now.geometry }
        requires store { IsStore tags.now (D.identity disk.old) (D.moments disk.old) }

        ensures all { OnOk result (self.new.ring.opened ≡ []) }
        ensures committed { OnOk result (self.new ≡ after_flush self.old) }
        ensures flushed { OnOk result (FlushesEach self.old self.new tags.now
            (D.moments disk.old) (D.moments disk.new)) }

        ensures cause { HasCause (D.faults disk.old) (D.faults disk.new) result }
        ensures err { OnErr result ((self.new ≡ self.old) ⊎ (self.new ≡ after_one self.old)) }

        ensures store { OnOk result (IsStore tags.now (D.identity disk.new) (D.moments disk.new)) }
        ensures identity { D.identity disk.new ≡ D.identity disk.old }
        ensures unread { D.reads disk.new ≡ D.reads disk.old }

        ensures left { (w : JournalStanding) → StandsAs w self.old tags.now (D.moments disk.old)
            → IsLeftThrough w (D.moments disk.old) (D.moments disk.new) }
        ensures moments { WritesBatches self.old (D.moments disk.old) (D.moments disk.new) }
    {
        let first = self.commit(disk, tags)?;
        let second = self.commit(disk, tags)?;
        let _ = (first, second);
        Ok(())
    }

    /// Writes the oldest committed entry that is not placed to its place: its bytes by one call of the disk, and
    /// then its tag through the store. There is nothing to do where each is placed.
    ///
    /// # Errors
    ///
    /// - `Failed`: the disk failed. Nothing more counts as placed, and each image is as a cut leaves it.
    pub fn place<D: Disk>(&mut self, disk: &mut D, tags: &mut Tags) -> Result<Moved, Failed>
        requires geometry { self.old.ring.geometry ≡ tags.old.geometry }
        requires store { IsStore tags.old (D.identity disk.old) (D.moments disk.old) }

        ensures moved { IfOk result (λ moved. HasPlaced moved self.old.placement self.new.placement
            self.old.ring tags.old tags.new disk.old disk.new) }
        ensures placed { IfOk result (λ moved. PlacesEach moved self.old self.new tags.old tags.new
            (D.moments disk.old) (D.moments disk.new)) }

        ensures cause { HasCause (D.faults disk.old) (D.faults disk.new) result }
        ensures err { OnErr result (self.new ≡ self.old) }

        ensures ring { self.new.ring ≡ self.old.ring }
        ensures stays { StaysOnDisk tags.old tags.new (D.identity disk.old) (D.identity disk.new)
            (D.moments disk.new) }

        ensures left { (w : JournalStanding) → StandsAs w self.old tags.old (D.moments disk.old)
            → IsLeftThrough w (D.moments disk.old) (D.moments disk.new) }
        ensures moments { WritesNext self.old.placement self.old.ring
            (D.moments disk.old) (D.moments disk.new) }
    {
        self.placer.place(disk, &self.ring, tags)
    }

    /// Writes the tags back, syncs, and then frees each committed section of which every entry is placed: a read of
    /// a block in it takes what is placed then. There is nothing to do where there is no such section.
    ///
    /// # Errors
    ///
    /// - `Failed`: the disk failed. Nothing is freed, and each image is as a cut leaves it.
    pub fn settle<D: Disk>(&mut self, disk: &mut D, tags: &mut Tags) -> Result<Moved, Failed>
        requires geometry { self.old.ring.geometry ≡ tags.old.geometry }
        requires store { IsStore tags.old (D.identity disk.old) (D.moments disk.old) }

        ensures moved { IfOk result (λ moved. HasSettled moved self.old.placement self.new.placement
            self.old.ring self.new.ring tags.old tags.new disk.old disk.new) }
        ensures settled { IfOk result (λ moved. SettlesEach moved self.old self.new tags.old tags.new
            (D.moments disk.old) (D.moments disk.new)) }

        ensures cause { HasCause (D.faults disk.old) (D.faults disk.new) result }
        ensures err { OnErr result (self.new ≡ self.old) }

        ensures store { IsStore tags.new (D.identity disk.new) (D.moments disk.new) }
        ensures geometry { (tags.new.geometry ≡ tags.old.geometry)
            × (self.new.ring.geometry ≡ self.old.ring.geometry) }
        ensures identity { D.identity disk.new ≡ D.identity disk.old }
        ensures unread { D.reads disk.new ≡ D.reads disk.old }

        ensures left { (w : JournalStanding) → StandsAs w self.old tags.old (D.moments disk.old)
            → IsLeftThrough w (D.moments disk.old) (D.moments disk.new) }
        ensures moments { WritesTags self.old.placement self.old.ring tags.old
            (D.moments disk.old) (D.moments disk.new) }
    {
        let oldest = self.ring.oldest();
        let moved = self.placer.settle(disk, &mut self.ring, tags)?;
        drop_freed(&mut self.overlay, &self.ring, oldest);
        Ok(moved)
    }

    /// Places every committed entry.
    ///
    /// # Errors
    ///
    /// - `Failed`: the disk failed. The first of them may be placed, and each image is as a cut leaves it.
    fn place_all<D: Disk>(&mut self, disk: &mut D, tags: &mut Tags) -> Result<(), Failed>
        requires geometry { self.old.ring.geometry ≡ tags.old.geometry }
        requires store { IsStore tags.old (D.identity disk.old) (D.moments disk.old) }

        ensures all { OnOk result (placed_in self.new.placement self.new.ring
            ≡ length (entries_of self.new.ring.committed)) }
        ensures placed { OnOk result (PlacesAll self.old self.new tags.old tags.new
            (D.moments disk.old) (D.moments disk.new)) }

        ensures cause { HasCause (D.faults disk.old) (D.faults disk.new) result }

        ensures ring { self.new.ring ≡ self.old.ring }
        ensures stays { StaysOnDisk tags.old tags.new (D.identity disk.old) (D.identity disk.new)
            (D.moments disk.new) }

        ensures left { (w : JournalStanding) → StandsAs w self.old tags.old (D.moments disk.old)
            → IsLeftThrough w (D.moments disk.old) (D.moments disk.new) }
        ensures moments { WritesEntries self.old.ring.geometry (committed_to_place self.old)
            (D.moments disk.old) (D.moments disk.new) }
    {
        'entries: loop {
            let moved = self.place(disk, tags)?;
            match moved {
                Moved::Did => {}
                Moved::Idle => return Ok(()),
            }
        }
    }

    /// Commits all, places all, and settles: every section is free then, and each image has the content in its
    /// places.
    ///
    /// # Errors
    ///
    /// - `Failed`: the disk failed. Any part of it may have been done, and each image is as a cut leaves it.
    pub fn close<D: Disk>(&mut self, disk: &mut D, tags: &mut Tags) -> Result<(), Failed>
        requires geometry { self.old.ring.geometry ≡ tags.old.geometry }
        requires store { IsStore tags.old (D.identity disk.old) (D.moments disk.old) }

        ensures free { OnOk result (IsAllFree self.new.ring) }
        ensures closed { OnOk result (ClosesEach self.old self.new tags.old tags.new
            (D.moments disk.old) (D.moments disk.new)) }

        ensures cause { HasCause (D.faults disk.old) (D.faults disk.new) result }

        ensures store { OnOk result (IsStore tags.new (D.identity disk.new) (D.moments disk.new)) }
        ensures geometry { (tags.new.geometry ≡ tags.old.geometry)
            × (self.new.ring.geometry ≡ self.old.ring.geometry) }
        ensures identity { D.identity disk.new ≡ D.identity disk.old }

        ensures left { (w : JournalStanding) → StandsAs w self.old tags.old (D.moments disk.old)
            → IsLeftThrough w (D.moments disk.old) (D.moments disk.new) }
        ensures moments { WritesAll self.old (D.moments disk.old) (D.moments disk.new) }
    {
        self.flush(disk, tags)?;
        self.place_all(disk, tags)?;
        let moved = self.settle(disk, tags)?;
        let _ = moved;
        Ok(())
    }
}
