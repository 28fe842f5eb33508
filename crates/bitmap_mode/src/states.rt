//! The states of the regions of a device in bitmap mode, and the calls of a device over them.
ghost use Rattle.std.specs.Prelude.{◌≡◌, ◌⊎◌, ◌+◌, ◌-◌, ◌<◌, ◌≤◌, ℕ, List};
ghost use Rattle.std.specs.Prelude.{Ok, None, false, true, find, is_some, IfOk, IfSome, OnErr, OnOk};
ghost use Rattle.std.specs.List.{range_with_len};
ghost use Rattle.disk_model.specs.Causes.{HasCause};
ghost use Rattle.disk_model.specs.Disk.{Content, OnlyAdds, Reads, newest_only};
ghost use Rattle.disk_model.specs.Identity.{IsBound};
ghost use Rattle.disk_model.specs.Moments.{EachSince, HasNow, IsChangedBy};
ghost use Rattle.image_model.specs.Geometry.{IsGeometry, bitmap_sectors, data_at, journal_sectors, layout_of};
ghost use Rattle.image_model.specs.Geometry.{region_of, regions};
ghost use Rattle.device_model.specs.Regions.{clean_all, least_region, recalculated_region, with_region, written_back};
ghost use Rattle.place_model.specs.Format.{DiskFormat};
ghost use Rattle.buffer_cache.specs.Cached.{HasNoMark, written_back as tags_written};
ghost use Rattle.bitmap_model.specs.Steps.{after_flush, with_clear};
ghost use Rattle.direct_laws.specs.CallLaws.{AddsTags};
ghost use Rattle.bitmap_laws.specs.CallLaws.{AddsBits};
ghost use Rattle.direct_mode.specs.Cells.{IsBlock, IsTaggedBlock};
ghost use Rattle.dirty_bitmap.specs.Bits.{bits_of};
ghost use Rattle.dirty_bitmap.specs.Faults.{HasBitsCause};
ghost use Rattle.recalculation.specs.Places.{TellsAreas};
ghost use Rattle.recalculation.specs.Rest.{KeepsRest};
ghost use Rattle.tag_store.specs.Store.{IsMarkedTags, IsStore, given_tags};

use crate::RegionSpan;
use crate::cells::{flush_cells, read_cell, write_cell};
use crate::marking::{clear_bit, set_bit};
use crate::resting::rest_all;
use crate::spans::end_of_held;
use dirty_bitmap::{Bits, BitsFault, RegionSet};
use hmac_tag::{Tag, TagMaker};
use image_model::Super;
use layout::Geometry;
use recalculation::Awaiting;
use sector_disk::{Disk, Failed, Memory};
use std::alloc::Global;
use std::marker::Model;
use tag_store::Tags;

/// What a device in bitmap mode keeps of its regions, beside its store of tags: whose bit is set on the disk, which
/// await the tags of their blocks, and which are fresh, that is, had a write of data or tags since the last flush.
///
/// All its calls are over one disk and store of tags, which nobody else writes. It takes all its memory when it is
/// made.
#[derive(Drop)]
pub struct RegionStates {
    geometry: Geometry,
    bits: Bits,
    awaiting: Awaiting,
    fresh: RegionSet,
    /// The regions whose bit is set, that do not await and are not fresh.
    to_clean: RegionSet,
}

impl Model for RegionStates {
    ghost use Rattle.bitmap_mode.specs.States.{IsStates, States};

    ghost Value = { States };

    ghost view = { λ s. record { geometry = s.geometry; bits = s.bits; awaiting = s.awaiting; fresh = s.fresh } };

    ghost invariant = { λ s. IsStates s.geometry s.bits s.awaiting s.fresh s.to_clean };
}

impl RegionStates {
    ghost use Rattle.bitmap_mode.specs.Cleaning.{ClearsBitOf, has_block_in, is_held, is_in_span, may_be_cleaned};
    ghost use Rattle.bitmap_mode.specs.Closing.{Closes, IsClosedInPart, IsOfClose, IsOfCleared, LeavesCleared};
    ghost use Rattle.bitmap_mode.specs.Closing.{MayClose, StandsInClearing};
    ghost use Rattle.bitmap_mode.specs.Reading.{AddsToRead, IsTagToRead, IsTaken, LeavesToRead, MayReadBlock};
    ghost use Rattle.bitmap_mode.specs.Reading.{ReadsBlock, StandsInTaking, TakesRegion, TakesToRead, tags_taken};
    ghost use Rattle.bitmap_mode.specs.Standing.{AreOpened, HasNoBits, Leaves, StandsIn};
    ghost use Rattle.bitmap_mode.specs.States.{HasCounts, MayHaveCounts, counts_cleaned, counts_of, counts_opened};
    ghost use Rattle.bitmap_mode.specs.States.{counts_taken, counts_written, least_awaiting, may_be_clean};
    ghost use Rattle.bitmap_mode.specs.Staying.{FitsDisk, StaysButBits, StaysOnDisk};
    ghost use Rattle.bitmap_mode.specs.Writing.{IsOfMarkedBlock, MayWriteBlock, WritesBlock};

    /// The regions of an image that is opened, behind the first sync: each whose bit is set awaits. It makes one call
    /// of the disk, and writes nothing.
    ///
    /// # Errors
    ///
    /// - `Memory`: there is none for a bit of each region, four times over, or for the 64 KiB of a recalculation.
    /// - `Disk`: the disk failed.
    pub fn load<D: Disk>(
        alloc: Global,
        disk: &mut D,
        fields: &Super,
        geometry: Geometry,
    ) -> Result<RegionStates, BitsFault>
        requires bound { IsBound (D.identity disk.old).name }
        requires places { IsGeometry geometry (D.identity disk.old).sectors }
        requires fits { bitmap_sectors geometry ≤ journal_sectors geometry }
        requires fields { TellsAreas fields.now }
        requires layout { geometry ≡ layout_of fields.now }

        ensures geometry { IfOk result (λ states. states.geometry ≡ geometry) }
        ensures opened { IfOk result (λ states. (d : DiskFormat) → d.geometry ≡ geometry
            → AreOpened d states (D.moments disk.old)) }

        ensures cause { HasBitsCause (D.faults disk.old) (D.faults disk.new) result }

        ensures identity { D.identity disk.new ≡ D.identity disk.old }
        ensures kept { D.moments disk.new ≡ D.moments disk.old }
    {
        let bits = Bits::load(alloc, disk, geometry)?;
        let states = RegionStates::opened(alloc, fields, geometry, bits)?;
        Ok(states)
    }

    /// The regions of an image that has a bitmap in which no bit is set: none awaits, and none is fresh. No disk is
    /// called.
    ///
    /// # Errors
    ///
    /// - `Memory`: there is none for a bit of each region, three times over.
    pub fn none(alloc: Global, fields: &Super, geometry: Geometry) -> Result<RegionStates, Memory>
        requires fits { bitmap_sectors geometry ≤ journal_sectors geometry }
        requires fields { TellsAreas fields.now }
        requires layout { geometry ≡ layout_of fields.now }

        ensures geometry { IfOk result (λ states. states.geometry ≡ geometry) }
        ensures counts { IfOk result (λ states. HasCounts states geometry (counts_opened (λ region. false))) }
        ensures opened { IfOk result (λ states. (d : DiskFormat) (moments : List Content) → d.geometry ≡ geometry
            → HasNow (HasNoBits d) moments → AreOpened d states moments) }
    {
        let bits = Bits::none(alloc, geometry)?;
        RegionStates::opened(alloc, fields, geometry, bits)
    }

    /// Whether a region awaits.
    pub fn some_await(&self) -> bool
        ensures { result ≡ is_some (least_awaiting self.now) }
    {
        self.awaiting.next().is_some()
    }

    /// The regions that await, alone: each of their blocks does.
    pub fn into_awaiting(self) -> Awaiting
        ensures awaiting { result ≡ self.awaiting }
        ensures first { result.first ≡ 0 }
        ensures geometry { result.geometry ≡ self.geometry }
    {
        self.awaiting
    }

    /// Writes a block: the bit of its region is set and synced, where it is clear, and then its bytes are written by
    /// one call, and its tag is put. Then all is flushed, where that is asked. A region that awaits still does.
    ///
    /// Source: Linux, `drivers/md/dm-integrity.c`, `integrity_metadata` and `bitmap_flush_work`.
    ///
    /// # Errors
    ///
    /// - `Failed`: the disk failed. The bit may be set and the block written in any part, but no part of it before the
    ///   bit.
    pub fn write_block<D: Disk>(
        &mut self,
        disk: &mut D,
        tags: &mut Tags,
        block: u64,
        bytes: &[u8],
        tag: &Tag,
        is_flushed: bool,
    ) -> Result<(), Failed>
        requires same { tags.old.geometry ≡ self.old.geometry }
        requires block { IsTaggedBlock self.old.geometry block bytes.now tag.now }
        requires store { IsStore tags.old (D.identity disk.old) (D.moments disk.old) }

        ensures written { OnOk result (WritesBlock block bytes.now tag.now is_flushed self.old self.new
            tags.old tags.new (D.moments disk.old) (D.moments disk.new)) }
        ensures counts { OnOk result (HasCounts self.new self.old.geometry
            (counts_written is_flushed block self.old)) }

        ensures cause { HasCause (D.faults disk.old) (D.faults disk.new) result }
        ensures err { OnErr result (MayHaveCounts self.new self.old (counts_written false block self.old)) }

        ensures stays { StaysOnDisk self.old self.new tags.old tags.new
            (D.identity disk.old) (D.identity disk.new) (D.moments disk.new) }

        ensures through { MayWriteBlock block bytes.now tag.now self.old tags.old
            (D.moments disk.old) (D.moments disk.new) }
        ensures moments { EachSince (OnlyAdds (IsOfMarkedBlock self.old block bytes.now))
            (D.moments disk.old) (D.moments disk.new) }
    {
        self.write_marked(disk, tags, block, bytes, tag)?;
        if is_flushed {
            return self.flush(disk, tags);
        }
        Ok(())
    }

    /// Reads the bytes of a block, and gets the tag that is stored for it. Where its region awaits, that is
    /// recalculated first.
    ///
    /// # Errors
    ///
    /// - `Failed`: the disk failed. What is left in the buffer is open. Some blocks of a region that awaits may have
    ///   got their tags.
    pub fn read_block<D: Disk>(
        &mut self,
        disk: &mut D,
        tags: &mut Tags,
        maker: &TagMaker,
        block: u64,
        out: &mut [u8],
    ) -> Result<Tag, Failed>
        requires fits { FitsDisk maker.now self.old tags.old (D.identity disk.old) (D.moments disk.old) }
        requires block { IsBlock self.old.geometry block out.old }

        ensures read { OnOk result (HasNow (Reads (data_at self.old.geometry block) out.new) (D.moments disk.old)) }
        ensures tag { IfOk result (λ tag. IsTagToRead maker.now self.old block tags.old tag (D.moments disk.old)) }
        ensures cell { IfOk result (λ tag. ReadsBlock maker.now block out.new tag self.old self.new
            tags.old tags.new (D.moments disk.old) (D.moments disk.new)) }
        ensures counts { let g = self.old.geometry in OnOk result
            (HasCounts self.new g (counts_taken (region_of g block) self.old)) }

        ensures cause { HasCause (D.faults disk.old) (D.faults disk.new) result }
        ensures err { OnErr result (MayHaveCounts self.new self.old
            (counts_taken (region_of self.old.geometry block) self.old)) }

        ensures stays { StaysOnDisk self.old self.new tags.old tags.new
            (D.identity disk.old) (D.identity disk.new) (D.moments disk.new) }
        ensures rest { KeepsRest tags.old tags.new (D.moments disk.old) (D.moments disk.new) }

        ensures through { MayReadBlock maker.now block self.old tags.old (D.moments disk.old) (D.moments disk.new) }
        ensures moments { AddsToRead maker.now self.old (region_of self.old.geometry block) tags.old
            (D.moments disk.old) (D.moments disk.new) }
    {
        let region = self.geometry.region_of(block);
        self.take_to_read(disk, tags, maker, region)?;
        read_cell(disk, tags, block, out)
    }

    /// Writes the tags back, and syncs. No region is fresh then.
    ///
    /// # Errors
    ///
    /// - `Failed`: the disk failed. Nothing more is flushed, and each region is fresh that was.
    pub fn flush<D: Disk>(&mut self, disk: &mut D, tags: &mut Tags) -> Result<(), Failed>
        requires same { tags.old.geometry ≡ self.old.geometry }
        requires store { IsStore tags.old (D.identity disk.old) (D.moments disk.old) }

        ensures flushed { OnOk result (Leaves (λ d. after_flush d) self.old self.new tags.old tags.new
            (D.moments disk.old) (D.moments disk.new)) }
        ensures synced { OnOk result (IsChangedBy (λ c. newest_only (tags_written tags.old.sectors c))
            (D.moments disk.old) (D.moments disk.new)) }
        ensures unmarked { OnOk result (HasNoMark tags.new.sectors) }
        ensures counts { OnOk result (HasCounts self.new self.old.geometry (written_back (counts_of self.old))) }

        ensures cause { HasCause (D.faults disk.old) (D.faults disk.new) result }
        ensures err { OnErr result (self.new ≡ self.old) }

        ensures stays { StaysOnDisk self.old self.new tags.old tags.new
            (D.identity disk.old) (D.identity disk.new) (D.moments disk.new) }
        ensures unread { D.reads disk.new ≡ D.reads disk.old }

        ensures through { StandsIn (λ d. d) self.old tags.old (D.moments disk.old) (D.moments disk.new) }
        ensures moments { EachSince (OnlyAdds (IsMarkedTags tags.old)) (D.moments disk.old) (D.moments disk.new) }
    {
        flush_cells(disk, tags)?;
        rest_all(
            &self.bits,
            &self.awaiting,
            &mut self.fresh,
            &mut self.to_clean,
        );
        Ok(())
    }

    /// The regions of `count` blocks from block `first` on: none, where there is no block.
    pub fn span_of(&self, first: u64, count: u64) -> RegionSpan
        requires { first + count ≤ self.now.geometry.blocks }

        ensures { (region : ℕ) → is_in_span result region ≡ has_block_in self.now.geometry first count region }
    {
        if count == 0 {
            return RegionSpan { first: 0, end: 0 };
        }
        // The check sees by this how many blocks there are at most.
        let _ = self.geometry.blocks();
        let last = first + count - 1;
        RegionSpan {
            first: self.geometry.region_of(first),
            end: self.geometry.region_of(last) + 1,
        }
    }

    /// The least region whose bit may be cleared: it is set, the region neither awaits nor is fresh, and none of these
    /// spans has it. Each span is passed at most once, and what lies between is found by words.
    pub fn least_to_clean(&self, held: &[RegionSpan]) -> Option<u64>
        ensures { result ≡ least_region (regions self.now.geometry)
            (may_be_cleaned (counts_of self.now) (is_held held.now)) }
    {
        let mut from = 0;
        'spans: while let Some(region) = self.next_to_clean(from) {
            match end_of_held(held, region) {
                None => return Some(region),
                Some(end) => from = end,
            }
        }
        None
    }

    /// Clears the bit of a region that needs none. It is not synced.
    ///
    /// # Errors
    ///
    /// - `Failed`: the disk failed. In memory the bit is as it was; an image may have it, or not.
    pub fn clean<D: Disk>(&mut self, disk: &mut D, tags: &Tags, region: u64) -> Result<(), Failed>
        requires same { tags.now.geometry ≡ self.old.geometry }
        requires region { region < regions self.old.geometry }
        requires rests { may_be_clean (counts_of self.old) region ≡ true }
        requires store { IsStore tags.now (D.identity disk.old) (D.moments disk.old) }

        ensures cleaned { OnOk result (Leaves (λ d. with_clear d region) self.old self.new tags.now tags.now
            (D.moments disk.old) (D.moments disk.new)) }
        ensures cleared { OnOk result (ClearsBitOf self.old.bits self.old.geometry region tags.now
            (D.moments disk.old) (D.moments disk.new)) }
        ensures counts { OnOk result (HasCounts self.new self.old.geometry (counts_cleaned region self.old)) }

        ensures cause { HasCause (D.faults disk.old) (D.faults disk.new) result }
        ensures err { OnErr result (HasCounts self.new self.old.geometry (counts_of self.old)) }

        ensures stays { StaysButBits self.old self.new tags.now
            (D.identity disk.old) (D.identity disk.new) (D.moments disk.new) }

        ensures through { StandsIn (λ d. with_clear d region) self.old tags.now
            (D.moments disk.old) (D.moments disk.new) }
        ensures moments { AddsBits self.old.geometry (with_region region false (bits_of self.old.bits))
            (D.moments disk.old) (D.moments disk.new) }
    {
        clear_bit(disk, &mut self.bits, tags, region)?;
        self.to_clean.remove(region);
        Ok(())
    }

    /// Recalculates the least region that awaits, and tells which it was. There is nothing to do where none does.
    ///
    /// # Errors
    ///
    /// - `Failed`: the disk failed. The region awaits still, and some of its blocks may have got their tags.
    pub fn recalculate<D: Disk>(
        &mut self,
        disk: &mut D,
        tags: &mut Tags,
        maker: &TagMaker,
    ) -> Result<Option<u64>, Failed>
        requires fits { FitsDisk maker.now self.old tags.old (D.identity disk.old) (D.moments disk.old) }

        ensures least { IfOk result (λ r. r ≡ least_awaiting self.old) }
        ensures taken { IfOk result (λ r. IfSome r (λ region. IsTaken maker.now region self.old self.new
            tags.old tags.new (D.moments disk.old) (D.moments disk.new))) }
        ensures counts { IfOk result (λ r. IfSome r (λ region. HasCounts self.new self.old.geometry
            (recalculated_region region (counts_of self.old)))) }
        ensures idle { least_awaiting self.old ≡ None
            → (result ≡ Ok None) × (disk.new ≡ disk.old) × (tags.new ≡ tags.old) × (self.new ≡ self.old) }

        ensures cause { HasCause (D.faults disk.old) (D.faults disk.new) result }
        ensures err { OnErr result (self.new ≡ self.old) }

        ensures stays { StaysOnDisk self.old self.new tags.old tags.new
            (D.identity disk.old) (D.identity disk.new) (D.moments disk.new) }
        ensures rest { KeepsRest tags.old tags.new (D.moments disk.old) (D.moments disk.new) }

        ensures through { StandsInTaking maker.now self.old tags.old (D.moments disk.old) (D.moments disk.new) }
        ensures moments { IfSome (least_awaiting self.old) (λ region. AddsToRead maker.now self.old region tags.old
            (D.moments disk.old) (D.moments disk.new)) }
    {
        let Some(region) = self.awaiting.next() else {
            return Ok(None);
        };
        self.take(disk, tags, maker, region)?;
        Ok(Some(region))
    }

    /// Flushes all, clears the bit of each region that does not await, and syncs.
    ///
    /// Source: Linux, `drivers/md/dm-integrity.c`, `dm_integrity_postsuspend`. Own: a region that awaits keeps its bit.
    ///
    /// # Errors
    ///
    /// - `Failed`: the disk failed. Some of the bits may be cleared, once all was flushed.
    pub fn close<D: Disk>(&mut self, disk: &mut D, tags: &mut Tags) -> Result<(), Failed>
        requires same { tags.old.geometry ≡ self.old.geometry }
        requires store { IsStore tags.old (D.identity disk.old) (D.moments disk.old) }

        ensures closed { OnOk result (Closes self.old self.new tags.old tags.new
            (D.moments disk.old) (D.moments disk.new)) }
        ensures counts { OnOk result (HasCounts self.new self.old.geometry
            (clean_all (written_back (counts_of self.old)))) }

        ensures cause { HasCause (D.faults disk.old) (D.faults disk.new) result }
        ensures err { OnErr result ((self.new ≡ self.old)
            ⊎ IsClosedInPart self.old.geometry (written_back (counts_of self.old)) (counts_of self.new)) }

        ensures stays { StaysOnDisk self.old self.new tags.old tags.new
            (D.identity disk.old) (D.identity disk.new) (D.moments disk.new) }

        ensures through { MayClose self.old tags.old (D.moments disk.old) (D.moments disk.new) }
        ensures moments { EachSince (OnlyAdds (IsOfClose self.old tags.old)) (D.moments disk.old) (D.moments disk.new) }
    {
        self.flush(disk, tags)?;
        self.clean_all(disk, tags)?;
        disk.sync()
    }

    /// Writes a block, as `write_block` does without a flush. Its region is fresh then.
    ///
    /// # Errors
    ///
    /// - `Failed`: the disk failed.
    fn write_marked<D: Disk>(
        &mut self,
        disk: &mut D,
        tags: &mut Tags,
        block: u64,
        bytes: &[u8],
        tag: &Tag,
    ) -> Result<(), Failed>
        requires same { tags.old.geometry ≡ self.old.geometry }
        requires block { IsTaggedBlock self.old.geometry block bytes.now tag.now }
        requires store { IsStore tags.old (D.identity disk.old) (D.moments disk.old) }

        ensures written { OnOk result (WritesBlock block bytes.now tag.now false self.old self.new
            tags.old tags.new (D.moments disk.old) (D.moments disk.new)) }
        ensures counts { OnOk result (HasCounts self.new self.old.geometry (counts_written false block self.old)) }

        ensures cause { HasCause (D.faults disk.old) (D.faults disk.new) result }
        ensures err { OnErr result (MayHaveCounts self.new self.old (counts_written false block self.old)) }

        ensures stays { StaysOnDisk self.old self.new tags.old tags.new
            (D.identity disk.old) (D.identity disk.new) (D.moments disk.new) }

        ensures through { MayWriteBlock block bytes.now tag.now self.old tags.old
            (D.moments disk.old) (D.moments disk.new) }
        ensures moments { EachSince (OnlyAdds (IsOfMarkedBlock self.old block bytes.now))
            (D.moments disk.old) (D.moments disk.new) }
    {
        let region = self.geometry.region_of(block);
        set_bit(disk, &mut self.bits, tags, region)?;
        self.to_clean.remove(region);
        self.fresh.insert(region);
        write_cell(disk, tags, block, bytes, tag)
    }

    /// Recalculates a region that awaits. It is fresh then, and does not await any more.
    ///
    /// # Errors
    ///
    /// - `Failed`: the disk failed. Some of its blocks may have got their tags.
    fn take<D: Disk>(
        &mut self,
        disk: &mut D,
        tags: &mut Tags,
        maker: &TagMaker,
        region: u64,
    ) -> Result<(), Failed>
        requires fits { FitsDisk maker.now self.old tags.old (D.identity disk.old) (D.moments disk.old) }
        requires region { region < regions self.old.geometry }
        requires awaits { (counts_of self.old).awaiting region ≡ true }

        ensures taken { OnOk result (TakesRegion maker.now self.old region tags.old tags.new
            (D.moments disk.old) (D.moments disk.new)) }
        ensures counts { OnOk result (HasCounts self.new self.old.geometry
            (recalculated_region region (counts_of self.old))) }

        ensures cause { HasCause (D.faults disk.old) (D.faults disk.new) result }
        ensures err { OnErr result (self.new ≡ self.old) }

        ensures stays { StaysOnDisk self.old self.new tags.old tags.new
            (D.identity disk.old) (D.identity disk.new) (D.moments disk.new) }
        ensures rest { KeepsRest tags.old tags.new (D.moments disk.old) (D.moments disk.new) }

        ensures moments { AddsTags self.old.geometry (given_tags tags.old)
            (tags_taken maker.now self.old region tags.old) (D.moments disk.old) (D.moments disk.new) }
    {
        self.awaiting.recalc_region(disk, tags, maker, region)?;
        self.fresh.insert(region);
        Ok(())
    }

    /// Recalculates a region where it awaits.
    ///
    /// # Errors
    ///
    /// - `Failed`: the disk failed. Some of its blocks may have got their tags.
    fn take_to_read<D: Disk>(
        &mut self,
        disk: &mut D,
        tags: &mut Tags,
        maker: &TagMaker,
        region: u64,
    ) -> Result<(), Failed>
        requires fits { FitsDisk maker.now self.old tags.old (D.identity disk.old) (D.moments disk.old) }
        requires region { region < regions self.old.geometry }

        ensures taken { OnOk result (TakesToRead maker.now self.old region tags.old tags.new
            (D.moments disk.old) (D.moments disk.new)) }
        ensures stands { OnOk result (LeavesToRead maker.now region self.old self.new tags.old tags.new
            (D.moments disk.old) (D.moments disk.new)) }
        ensures counts { OnOk result (HasCounts self.new self.old.geometry (counts_taken region self.old)) }

        ensures cause { HasCause (D.faults disk.old) (D.faults disk.new) result }
        ensures err { OnErr result (self.new ≡ self.old) }

        ensures stays { StaysOnDisk self.old self.new tags.old tags.new
            (D.identity disk.old) (D.identity disk.new) (D.moments disk.new) }
        ensures rest { KeepsRest tags.old tags.new (D.moments disk.old) (D.moments disk.new) }

        ensures through { StandsInTaking maker.now self.old tags.old (D.moments disk.old) (D.moments disk.new) }
        ensures moments { AddsToRead maker.now self.old region tags.old (D.moments disk.old) (D.moments disk.new) }
    {
        if self.awaiting.awaits(region) {
            return self.take(disk, tags, maker, region);
        }
        Ok(())
    }

    /// The regions of an image with these bits: each whose bit is set awaits, and none is fresh.
    ///
    /// # Errors
    ///
    /// - `Memory`: there is none for a bit of each region, three times over, or for the 64 KiB of a recalculation.
    fn opened(
        alloc: Global,
        fields: &Super,
        geometry: Geometry,
        bits: Bits,
    ) -> Result<RegionStates, Memory>
        requires fits { bitmap_sectors geometry ≤ journal_sectors geometry }
        requires fields { TellsAreas fields.now }
        requires layout { geometry ≡ layout_of fields.now }
        requires bits { bits.geometry ≡ geometry }

        ensures geometry { IfOk result (λ states. states.geometry ≡ geometry) }
        ensures counts { IfOk result (λ states. HasCounts states geometry (counts_opened (bits_of bits))) }
    {
        let awaiting = Awaiting::of(alloc, fields, &geometry, Some(&bits))?;
        let fresh = RegionSet::none(alloc, geometry.regions())?;
        let to_clean = fresh.copy(alloc)?;
        Ok(RegionStates {
            geometry,
            bits,
            awaiting,
            fresh,
            to_clean,
        })
    }

    /// The least region not below `from` whose bit is set, and that needs none.
    fn next_to_clean(&self, from: u64) -> Option<u64>
        ensures { result ≡ find (may_be_clean (counts_of self.now))
            (range_with_len from (regions self.now.geometry - from)) }
    {
        self.to_clean.next(from)
    }

    /// Clears the bit of each region that does not await, where none is fresh. It is not synced.
    ///
    /// # Errors
    ///
    /// - `Failed`: the disk failed. Some of the bits may be cleared.
    fn clean_all<D: Disk>(&mut self, disk: &mut D, tags: &Tags) -> Result<(), Failed>
        requires same { tags.now.geometry ≡ self.old.geometry }
        requires rested { (region : ℕ) → region < regions self.old.geometry
            → (counts_of self.old).fresh region ≡ false }
        requires store { IsStore tags.now (D.identity disk.old) (D.moments disk.old) }

        ensures cleaned { OnOk result (LeavesCleared self.old self.new tags.now
            (D.moments disk.old) (D.moments disk.new)) }
        ensures counts { OnOk result (HasCounts self.new self.old.geometry (clean_all (counts_of self.old))) }

        ensures cause { HasCause (D.faults disk.old) (D.faults disk.new) result }
        ensures err { OnErr result (IsClosedInPart self.old.geometry (counts_of self.old) (counts_of self.new)) }

        ensures stays { StaysButBits self.old self.new tags.now
            (D.identity disk.old) (D.identity disk.new) (D.moments disk.new) }

        ensures through { StandsInClearing self.old tags.now (D.moments disk.old) (D.moments disk.new) }
        ensures moments { EachSince (OnlyAdds (IsOfCleared self.old.geometry (counts_of self.old)))
            (D.moments disk.old) (D.moments disk.new) }
    {
        let mut from = 0;
        'regions: while let Some(region) = self.next_to_clean(from) {
            self.clean(disk, tags, region)?;
            from = region + 1;
        }
        Ok(())
    }
}
