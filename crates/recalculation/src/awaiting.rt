//! The regions that await.
ghost use Rattle.std.specs.Prelude.{◌≡◌, ◌<◌, ◌≤◌, ◌*◌, ℕ, None, false, Some, option_map, IfOk, IfSome};
ghost use Rattle.std.specs.Prelude.{◌&&◌, nat_lt, IsOk, OnErr, OnOk};
ghost use Rattle.disk_model.specs.Causes.{HasCause};
ghost use Rattle.image_model.specs.Geometry.{layout_of, region_of, regions};
ghost use Rattle.device_model.specs.Regions.{least_region, with_region};
ghost use Rattle.bitmap_laws.specs.CallLaws.{AreSameBits};
ghost use Rattle.recalculate_laws.specs.Position.{region_end, region_start};
ghost use Rattle.dirty_bitmap.specs.Bits.{RegionBits};
ghost use Rattle.tag_store.specs.Store.{IsStore};
ghost use Rattle.recalculation.specs.Awaiting.{IsOpening, NoneAwaits, awaiting_of};
ghost use Rattle.recalculation.specs.Places.{TellsAreas};
ghost use Rattle.recalculation.specs.RegionCalls.{AddsIn, GivesIn, TakesIn};
ghost use Rattle.recalculation.specs.Rest.{StaysInPlace};

use crate::left::Left;
use crate::places::Places;
use dirty_bitmap::{Bits, RegionSet};
use hmac_tag::TagMaker;
use image_model::{RECALCULATING, Super};
use layout::Geometry;
use sector_disk::{Disk, Failed, Memory};
use std::alloc::Global;
use std::marker::Model;
use tag_store::Tags;

/// The regions that await the tags of their blocks, and which blocks of these do.
///
/// All its calls are over one disk. It takes all its memory when it is made: a bit for each region and 64 KiB, where a
/// region awaits, and none else.
///
/// Source: Linux, `drivers/md/dm-integrity.c`, `integrity_recalc`. Own: with a bitmap the bits alone decide.
#[derive(Drop)]
pub struct Awaiting {
    places: Places,
    /// The regions that await, if any did at opening.
    left: Option<Left>,
}

impl Model for Awaiting {
    ghost use Rattle.std.specs.Prelude.{option_map};
    ghost use Rattle.recalculation.specs.Awaiting.{AwaitingRegions, IsAwaiting};

    ghost Value = { AwaitingRegions };

    ghost view = { λ awaiting. record {
      geometry = awaiting.places.geometry;
      first = awaiting.places.first;
      left = option_map (λ left. left.set) awaiting.left;
    } };

    ghost invariant = { λ awaiting. IsAwaiting awaiting.places awaiting.left };
}

impl Awaiting {
    /// The regions that await when an image is opened. With a bitmap its bits alone decide. Without one each region
    /// awaits that has a block with a sector at or above `recalc_sector`, where `RECALCULATING` is set.
    ///
    /// # Errors
    ///
    /// - `Memory`: there is none for a bit for each region, or for the 64 KiB.
    pub fn of(
        alloc: Global,
        fields: &Super,
        geometry: &Geometry,
        bits: Option<&Bits>,
    ) -> Result<Awaiting, Memory>
        requires fields { TellsAreas fields.now }
        requires geometry { geometry.now ≡ layout_of fields.now }
        requires bits { IfSome bits (λ b. b.now.geometry ≡ geometry.now) }

        ensures opening { IfOk result (IsOpening fields.now geometry.now (option_map (λ b. b.now) bits.entry)) }
        ensures none { NoneAwaits fields.now geometry.now (option_map (λ b. b.now) bits.entry) → IsOk result }
    {
        match bits {
            Some(bits) => Awaiting::by_bits(alloc, fields, geometry, bits),
            None => Awaiting::by_position(alloc, fields, geometry),
        }
    }

    /// The least region that awaits.
    pub fn next(&self) -> Option<u64>
        ensures { result ≡ least_region (regions self.now.geometry) (awaiting_of self.now) }
    {
        match &self.left {
            Some(left) => left.set.next(0),
            None => None,
        }
    }

    /// Whether the region awaits.
    pub fn awaits(&self, region: u64) -> bool
        requires { region < regions self.now.geometry }

        ensures { result ≡ awaiting_of self.now region }
    {
        match &self.left {
            Some(left) => left.set.has(region),
            None => false,
        }
    }

    /// The region of a block.
    pub fn region_of(&self, block: u64) -> u64
        requires { block < self.now.geometry.blocks }

        ensures { result ≡ region_of self.now.geometry block }
    {
        self.places.geometry.region_of(block)
    }

    /// Recalculates a region: each of its blocks that awaits gets the tag of the bytes in its place, and no other block
    /// does. Then the region does not await any more. No data are written, nothing is synced, and every byte that no
    /// tag takes stays.
    ///
    /// # Errors
    ///
    /// - `Failed`: the disk failed. The regions await that did, and some blocks of this one may have got their tags,
    ///   the last of them in part.
    pub fn recalc_region<D: Disk>(
        &mut self,
        disk: &mut D,
        tags: &mut Tags,
        maker: &TagMaker,
        region: u64,
    ) -> Result<(), Failed>
        requires region { region < regions self.old.geometry }
        requires same { tags.old.geometry ≡ self.old.geometry }
        requires size { maker.now.size ≡ self.old.geometry.shape.tag_size }
        requires store { IsStore tags.old (D.identity disk.old) (D.moments disk.old) }

        ensures done { OnOk result (AreSameBits self.old.geometry (awaiting_of self.new)
            (with_region region false (awaiting_of self.old))) }
        ensures taken { OnOk result (TakesIn maker.now self.old region tags.old tags.new
            (D.moments disk.old) (D.moments disk.new)) }

        ensures cause { HasCause (D.faults disk.old) (D.faults disk.new) result }
        ensures err { OnErr result (self.new ≡ self.old) }
        ensures between { OnErr result (GivesIn maker.now self.old region tags.old tags.new
            (D.moments disk.old) (D.moments disk.new)) }

        ensures stays { StaysInPlace self.old self.new tags.old tags.new (D.identity disk.old) (D.identity disk.new)
            (D.moments disk.old) (D.moments disk.new) }

        ensures moments { AddsIn maker.now self.old region tags.old (D.moments disk.old) (D.moments disk.new) }
    {
        match &mut self.left {
            Some(left) => left.take(disk, tags, maker, &self.places, region),
            None => Ok(()),
        }
    }

    /// The least region that awaits and has a sector at or above sector `at` of the device.
    pub(crate) fn next_above(&self, at: u64) -> Option<u64>
        ensures { let g = self.now.geometry in result ≡ least_region (regions g)
            (λ region. awaiting_of self.now region && nat_lt at (region_end g region)) }
    {
        let Some(left) = &self.left else {
            return None;
        };
        let geometry = &self.places.geometry;
        let block = at / geometry.shape().spb;
        if block >= geometry.blocks() {
            return None;
        }
        left.set.next(geometry.region_of(block))
    }

    /// The first sector of a region of the device.
    pub(crate) fn start_of(&self, region: u64) -> u64
        requires { region < regions self.now.geometry }

        ensures { result ≡ region_start self.now.geometry region }
    {
        self.places.start_of(region)
    }

    /// The regions whose bit is set.
    ///
    /// # Errors
    ///
    /// - `Memory`: as `of` has it.
    fn by_bits(
        alloc: Global,
        fields: &Super,
        geometry: &Geometry,
        bits: &Bits,
    ) -> Result<Awaiting, Memory>
        requires fields { TellsAreas fields.now }
        requires geometry { geometry.now ≡ layout_of fields.now }
        requires bits { bits.now.geometry ≡ geometry.now }

        ensures opening { IfOk result (IsOpening fields.now geometry.now (Some bits.now)) }
        ensures none { NoneAwaits fields.now geometry.now (Some bits.now) → IsOk result }
    {
        let places = Places::of(fields, *geometry, 0);
        if bits.next_set(0).is_none() {
            return Ok(Awaiting { places, left: None });
        }
        let set = bits.regions().copy(alloc)?;
        let left = Left::of(alloc, set)?;
        Ok(Awaiting {
            places,
            left: Some(left),
        })
    }

    /// The regions with a block at or above the position.
    ///
    /// # Errors
    ///
    /// - `Memory`: as `of` has it.
    fn by_position(alloc: Global, fields: &Super, geometry: &Geometry) -> Result<Awaiting, Memory>
        requires fields { TellsAreas fields.now }
        requires geometry { geometry.now ≡ layout_of fields.now }

        ensures opening { IfOk result (IsOpening fields.now geometry.now None) }
        ensures none { NoneAwaits fields.now geometry.now None → IsOk result }
    {
        let first = fields.recalc_sector / geometry.shape().spb;
        let places = Places::of(fields, *geometry, first);
        if fields.flags & RECALCULATING == 0 || first >= geometry.blocks() {
            return Ok(Awaiting { places, left: None });
        }
        let set = RegionSet::from_region(alloc, geometry.regions(), geometry.region_of(first))?;
        let left = Left::of(alloc, set)?;
        Ok(Awaiting {
            places,
            left: Some(left),
        })
    }
}
