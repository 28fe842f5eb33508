//! The ring of the journal's sections: entries are put, read and freed.
ghost use Rattle.std.specs.Prelude.{◌≡◌, [], Some, slice_get, ◌↔◌, ◌+◌, ◌*◌, ◌^◌, ◌<◌, ◌≤◌, true, length, IfOk, IsOk, IsTrue, OnOk, OnErr};
ghost use Rattle.disk_model.specs.Causes.{HasCause};
ghost use Rattle.disk_model.specs.Disk.{EachImage};
ghost use Rattle.disk_model.specs.Identity.{HasSectors};
ghost use Rattle.disk_model.specs.Moments.{EachMoment, HasNow};
ghost use Rattle.image_model.specs.Geometry.{initial, journal_sectors, section_at};
ghost use Rattle.commit_id.specs.Shape.{as_shape, IsShape};
ghost use Rattle.image_model.specs.Section.{Entry};
ghost use Rattle.journal_section.specs.View.{view_of as entry_view};
ghost use Rattle.journal_model.specs.JournaledDisk.{JournaledDisk, IsCutOf, IsSound, StandsFor};
ghost use Rattle.journal_model.specs.Ring.{empty_ring, has_open_section, has_room, with_commit, with_put, HasFreeSection, IsRingOf};

use crate::committing::write_batch;
use crate::marks::{Marks, batch, committed, next, next_number, position, wrap};
use crate::pieces::Pieces;
use crate::room::RingRoom;
use commit_id::Shape;
use hmac_tag::Tag;
use image_model::EntryPlace;
use journal_section::{EntryView, block_bytes, entry};
use sector_disk::{Disk, Failed};
use sector_pool::Run;
use std::marker::Model;
use thiserror::Error;

/// No section takes one more entry.
#[derive(Clone, Copy, Debug, PartialEq, Eq, Error)]
#[error("no section takes one more entry")]
pub struct NoRoom;

/// Whether a step had something to do.
#[derive(Clone, Copy, Debug, PartialEq, Eq)]
pub enum Moved {
    /// It did.
    Did,
    /// There was nothing to do.
    Idle,
}

/// The sections of a journal, in memory.
#[derive(Drop)]
pub struct Ring<'p> {
    pool: Pieces<'p>,
    counts: Vec<u64>,
    marks: Marks,
}

impl<'p> Model for Ring<'p> {
    ghost use Rattle.journal_model.specs.Ring.{JournalRing};

    ghost Value = { JournalRing };

    ghost use Rattle.journal_ring.specs.Ring.{view_of, IsRing};

    ghost view = { λ ring. view_of ring.pool.geometry ring.pool.bytes ring.marks };

    ghost invariant = { λ ring. IsRing ring.pool.geometry ring.pool.bytes ring.counts.items ring.marks };
}

impl<'p> Ring<'p> {
    ghost use Rattle.journal_ring.specs.Ring.{with_entry, with_open, with_section};
    ghost use Rattle.journal_ring.specs.Batch.{after_move, next_entries, HasCommitted, HasMoved, WritesBatch};
    ghost use Rattle.journal_ring.specs.declared.ring.Moved.TheVariants.{Did, Idle};
    ghost use Rattle.journal_ring.specs.Places.{entries_at, entry_of, is_committed, is_free, next_place};
    ghost use Rattle.journal_ring.specs.Places.{oldest_at, oldest_of, with_free};
    ghost use Rattle.journal_ring.specs.RoomLaws.{HasBounds};

    /// The ring over a journal of which nothing is to be placed: the next section to be written is `next`, under
    /// `number`.
    ///
    /// Own: the metadata sectors of a section and the data sectors of each of its entries are runs of their own while
    /// it takes entries.
    pub fn new(room: RingRoom, pool: Run<'p>, next: u64, number: u8) -> Ring<'p>
        requires pool { length pool.bytes ≡ 512 * journal_sectors room }
        requires next { next < room.sections }
        requires number { number < 4 }

        ensures { result ≡ empty_ring room next number }
    {
        let RingRoom {
            geometry,
            counts,
            before,
            behind,
        } = room;
        let marks = Marks {
            first: next,
            committed: 0,
            opened: 0,
            number,
            closed: true,
        };
        Ring {
            pool: Pieces::new(geometry, pool, before, behind),
            counts,
            marks,
        }
    }

    /// Puts a block's bytes and its tag as an entry behind all others, and tells its place.
    ///
    /// Source: Linux, `drivers/md/dm-integrity.c`, `dm_integrity_map_continue`.
    ///
    /// # Errors
    ///
    /// - `NoRoom`: no section is open, and the next one is not free. Nothing is changed.
    pub fn put(&mut self, block: u64, bytes: &[u8], tag: &Tag) -> Result<EntryPlace, NoRoom>
        requires block { block * self.old.geometry.shape.spb < 2 ^ 48 }
        requires bytes { length bytes.now ≡ 512 * self.old.geometry.shape.spb }
        requires tag { length tag.now ≡ self.old.geometry.shape.tag_size }

        ensures place { IfOk result (λ place. place ≡ next_place (with_open self.old)) }
        ensures put { OnOk result (self.new
            ≡ with_put (entry_of self.old.geometry block bytes.now tag.now) self.old) }

        ensures room { IsOk result ↔ (has_room self.old ≡ true) }
        ensures err { OnErr result (self.new ≡ self.old) }
    {
        let sector = block * self.pool.shape().spb;
        self.make_open()?;
        Ok(self.put_last(sector, bytes, tag))
    }

    /// What an entry of the ring tells beside its block's bytes.
    pub fn view(&self, place: EntryPlace) -> EntryView
        requires section { place.section < self.now.geometry.sections }
        requires entry { place.entry < length (entries_at self.now place.section) }

        ensures { (entry : Entry) → slice_get (entries_at self.now place.section) place.entry ≡ Some entry
            → result ≡ entry_view entry }
    {
        let shape = self.pool.shape();
        let metadata = self.pool.metadata(place.section);
        match entry(shape, metadata, place.entry) {
            Some(view) => view,
            None => unreachable!(),
        }
    }

    /// Puts the bytes of an entry's block into `out`.
    pub fn content(&self, place: EntryPlace, out: &mut [u8])
        requires section { place.section < self.now.geometry.sections }
        requires entry { place.entry < length (entries_at self.now place.section) }
        requires out { length out.old ≡ 512 * self.now.geometry.shape.spb }

        ensures { (entry : Entry) → slice_get (entries_at self.now place.section) place.entry ≡ Some entry
            → out.new ≡ entry.bytes }
    {
        let shape = self.pool.shape();
        let metadata = self.pool.metadata(place.section);
        let parts = self.pool.data(place.section, place.entry);
        block_bytes(shape, metadata, parts, place.entry, out);
    }

    /// Whether the section of an entry is committed.
    pub fn committed(&self, place: EntryPlace) -> bool
        requires section { place.section < self.now.geometry.sections }

        ensures { result ≡ is_committed self.now place.section }
    {
        let sections = self.pool.sections();
        position(sections, self.marks, place.section) < self.marks.committed
    }

    /// Makes the oldest section free, which is committed. Sections are freed in the order of the ring.
    pub fn free(&mut self, section: u64)
        requires committed { 1 ≤ length self.old.committed }
        requires section { section ≡ oldest_at self.old }

        ensures { self.new ≡ with_free self.old }
    {
        self.counts[section as usize] = 0;
        self.marks.first = wrap(self.pool.sections(), self.marks.first + 1);
        self.marks.committed -= 1;
    }

    /// Whether a section is free.
    pub fn is_free(&self, section: u64) -> bool
        requires section { section < self.now.geometry.sections }

        ensures { result ≡ is_free self.now section }
    {
        let sections = self.pool.sections();
        self.marks.committed + self.marks.opened <= position(sections, self.marks, section)
    }

    /// How many entries a section has, none where it is free.
    pub fn entries_in(&self, section: u64) -> u64
        requires section { section < self.now.geometry.sections }

        ensures { result ≡ length (entries_at self.now section) }
    {
        self.counts[section as usize]
    }

    /// The oldest section that is not free. None where all are.
    pub fn oldest(&self) -> Option<u64>
        ensures oldest { result ≡ oldest_of self.now }

        // What holds of every ring.
        ensures bounds { HasBounds self.now }
    {
        if self.marks.committed + self.marks.opened == 0 {
            return None;
        }
        Some(self.marks.first)
    }

    /// How many sections the ring has.
    pub fn sections(&self) -> u64
        ensures { result ≡ self.now.geometry.sections }
    {
        self.pool.sections()
    }

    /// What a section of it looks like.
    pub fn shape(&self) -> Shape
        ensures shape { as_shape result ≡ self.now.geometry.shape }
        ensures is_shape { IsShape result }
    {
        self.pool.shape()
    }

    /// Whether the last opened section takes one more entry.
    fn has_open_section(&self) -> bool
        ensures { result ≡ has_open_section self.now }
    {
        let Marks {
            first,
            committed,
            opened,
            closed,
            ..
        } = self.marks;
        if closed || opened == 0 {
            return false;
        }
        let last = wrap(self.pool.sections(), first + (committed + opened - 1));
        self.counts[last as usize] < self.pool.shape().entries
    }

    /// Opens the next section, which is free.
    fn open_section(&mut self)
        requires { HasFreeSection self.old }

        ensures section { self.new ≡ with_section self.old }
        ensures is_open { has_open_section self.new ≡ true }
    {
        let sections = self.pool.sections();
        let Marks {
            first,
            committed,
            opened,
            number,
            ..
        } = self.marks;
        let next = wrap(sections, first + committed);
        let number = if next + opened < sections {
            number
        } else {
            next_number(number)
        };
        let section = wrap(sections, first + (committed + opened));
        self.pool.open(section, number);
        self.marks.opened = opened + 1;
        self.marks.closed = false;
    }

    /// Opens the next section where none is open.
    ///
    /// # Errors
    ///
    /// - `NoRoom`: it is not free.
    fn make_open(&mut self) -> Result<(), NoRoom>
        ensures open { OnOk result (self.new ≡ with_open self.old) }
        ensures is_open { OnOk result (has_open_section self.new ≡ true) }

        ensures room { IsOk result ↔ (has_room self.old ≡ true) }
        ensures err { OnErr result (self.new ≡ self.old) }
    {
        if self.has_open_section() {
            return Ok(());
        }
        if !self.has_free_section() {
            return Err(NoRoom);
        }
        self.open_section();
        Ok(())
    }

    /// Puts an entry into the last section, which is open.
    fn put_last(&mut self, sector: u64, bytes: &[u8], tag: &Tag) -> EntryPlace
        requires open { has_open_section self.old ≡ true }
        requires sector { sector < 2 ^ 48 }
        requires bytes { length bytes.now ≡ 512 * self.old.geometry.shape.spb }
        requires tag { length tag.now ≡ self.old.geometry.shape.tag_size }

        ensures place { result ≡ next_place self.old }
        ensures put { let entry : Entry = record { sector = sector; bytes = bytes.now; tag = tag.now } in
            self.new ≡ with_entry entry self.old }
    {
        let sections = self.pool.sections();
        let Marks {
            first,
            committed,
            opened,
            ..
        } = self.marks;
        let section = wrap(sections, first + (committed + opened - 1));
        let entry = self.counts[section as usize];
        self.pool.put(section, entry, sector, bytes, tag);
        self.counts[section as usize] = entry + 1;
        EntryPlace { section, entry }
    }

    /// Whether the section behind the last one is free.
    fn has_free_section(&self) -> bool
        ensures { IsTrue result ↔ HasFreeSection self.now }
    {
        self.marks.committed + self.marks.opened < self.pool.sections()
    }

    /// The sector of the disk where the next batch begins.
    fn batch_at(&self) -> u64
        ensures { result ≡ section_at self.now.geometry self.now.next }
    {
        let next = next(self.pool.sections(), self.marks);
        self.pool.section_at(next)
    }

    /// Takes the next batch for committed.
    fn move_on(&mut self)
        ensures { self.new ≡ with_commit self.old }
    {
        self.marks = committed(self.pool.sections(), self.marks);
    }

    /// Writes the opened sections, up to the journal's end, and syncs. No entry goes into them any more.
    ///
    /// Source: Linux, `drivers/md/dm-integrity.c`, `integrity_commit`. Own: a batch does not cross the journal's
    /// end.
    ///
    /// # Errors
    ///
    /// - `Failed`: the disk failed. The ring is as it was, and each sector of the batch has its new bytes as a
    ///   candidate, or not.
    pub fn commit<D: Disk>(&mut self, disk: &mut D) -> Result<Moved, Failed>
        requires disk { HasSectors (initial self.old.geometry) (D.identity disk.old) }

        ensures moved { IfOk result (λ moved. (moved ≡ Idle) ↔ (self.old.opened ≡ [])) }
        ensures ring { IfOk result (λ moved. self.new ≡ after_move moved self.old) }
        ensures written { IfOk result (λ moved.
            HasMoved moved self.old (D.moments disk.old) (D.moments disk.new)) }
        ensures committed { IfOk result (λ moved. moved ≡ Did
            → (d : JournaledDisk) → IsSound d → IsRingOf self.old d
            → HasNow (StandsFor d) (D.moments disk.old)
            → HasCommitted d self.old self.new (D.moments disk.new)) }
        ensures idle { IfOk result (λ moved. moved ≡ Idle → disk.new ≡ disk.old) }

        ensures cause { HasCause (D.faults disk.old) (D.faults disk.new) result }
        ensures err { OnErr result (self.new ≡ self.old) }

        ensures identity { D.identity disk.new ≡ D.identity disk.old }
        ensures unread { D.reads disk.new ≡ D.reads disk.old }

        ensures cuts { (d : JournaledDisk) → IsRingOf self.old d → HasNow (StandsFor d) (D.moments disk.old)
            → EachMoment (D.moments disk.old) (D.moments disk.new)
            (EachImage (IsCutOf d (next_entries self.old))) }
        ensures moments { WritesBatch self.old (D.moments disk.old) (D.moments disk.new) }
    {
        if self.marks.opened == 0 {
            return Ok(Moved::Idle);
        }
        let at = self.batch_at();
        let total = self.pool.sections();
        let from = next(total, self.marks);
        let count = batch(total, self.marks);
        write_batch(disk, at, &mut self.pool, from, count)?;
        self.move_on();
        Ok(Moved::Did)
    }
}
