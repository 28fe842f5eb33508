//! A set of regions in memory.
ghost use Rattle.std.specs.Prelude.{◌≡◌, ◌*◌, ◌^◌, ◌<◌, ◌≤◌, ℕ, true, false, length, nat_le, IfOk};
ghost use Rattle.image_model.specs.Bitmap.{is_bit_set};
ghost use Rattle.device_model.specs.Regions.{with_region};
ghost use Rattle.dirty_bitmap.specs.Regions.{IsSectorOf, count_in, has_region, next_in, sector_of, set_sectors};

use crate::words::{clear_from, count_bits, next_bit, set_from};
use image_model::{GROUP_BITS, SECTOR_SIZE};
use sector_disk::Memory;
use std::alloc::Global;
use std::marker::Model;

/// The bytes of such a group.
const GROUP_SIZE: u64 = 4096;

/// A set of regions, which takes a bit for each of them. It takes all its memory when it is made.
#[derive(Drop)]
pub struct RegionSet {
    /// How many regions there are.
    size: u64,
    /// The bitmap, as it stands on a disk.
    bytes: Vec<u8>,
}

impl Model for RegionSet {
    ghost use Rattle.dirty_bitmap.specs.Regions.{IsBitmap, Regions};

    ghost Value = { Regions };

    ghost view = { λ set. record { size = set.size; bytes = set.bytes.items } };

    ghost invariant = { λ set. IsBitmap set.size set.bytes.items };
}

impl RegionSet {
    /// Makes a set of so many regions that has none of them.
    ///
    /// # Errors
    ///
    /// - `Memory`: there is none for it.
    pub fn none(alloc: Global, size: u64) -> Result<RegionSet, Memory>
        requires { size ≤ 2 ^ 48 }

        ensures size { IfOk result (λ set. set.size ≡ size) }
        ensures none { IfOk result (λ set. (region : ℕ) → has_region set region ≡ false) }
    {
        let bytes = zero_bitmap(alloc, size)?;
        Ok(RegionSet { size, bytes })
    }

    /// Makes a set of so many regions that has those from `first` on, in whole words.
    ///
    /// # Errors
    ///
    /// - `Memory`: there is none for it.
    pub fn from_region(alloc: Global, size: u64, first: u64) -> Result<RegionSet, Memory>
        requires { size ≤ 2 ^ 48 }

        ensures size { IfOk result (λ set. set.size ≡ size) }
        ensures has { IfOk result (λ set. (region : ℕ) → region < size
            → has_region set region ≡ nat_le first region) }
    {
        let mut bytes = zero_bitmap(alloc, size)?;
        set_from(bytes.as_mut_slice(), first as usize);
        Ok(RegionSet::from_bitmap(size, bytes))
    }

    /// The set that a bitmap of so many regions tells. Bits of no region are cleared.
    pub(crate) fn from_bitmap(size: u64, mut bytes: Vec<u8>) -> RegionSet
        requires few { size ≤ 2 ^ 48 }
        requires whole { length bytes.items ≡ 512 * set_sectors size }

        ensures size { result.size ≡ size }
        ensures told { (region : ℕ) → region < size → has_region result region ≡ is_bit_set bytes.items region }
    {
        clear_from(bytes.as_mut_slice(), size as usize);
        RegionSet { size, bytes }
    }

    /// Makes another set of the same regions.
    ///
    /// # Errors
    ///
    /// - `Memory`: there is none for it.
    pub fn copy(&self, alloc: Global) -> Result<RegionSet, Memory>
        ensures { IfOk result (λ set. set ≡ self.now) }
    {
        let bytes = self.bytes.as_slice().to_vec(alloc)?;
        let size = self.size;
        Ok(RegionSet { size, bytes })
    }

    /// How many regions there are.
    pub fn size(&self) -> u64
        ensures { result ≡ self.now.size }
    {
        self.size
    }

    /// Whether it has the region.
    pub fn has(&self, region: u64) -> bool
        requires { region < self.now.size }

        ensures { result ≡ has_region self.now region }
    {
        self.bytes[(region / 8) as usize] >> (region % 8) & 1 == 1
    }

    /// The least region not below `from` that it has, by a walk over words of 64 bits.
    pub fn next(&self, from: u64) -> Option<u64>
        ensures { result ≡ next_in self.now from }
    {
        match next_bit(self.bytes.as_slice(), from as usize) {
            Some(region) => Some(region as u64),
            None => None,
        }
    }

    /// How many regions it has, by a walk over words of 64 bits.
    pub fn count(&self) -> u64
        ensures { result ≡ count_in self.now }
    {
        count_bits(self.bytes.as_slice())
    }

    /// The bytes of one sector of its bitmap.
    pub(crate) fn sector(&self, sector: u64) -> &[u8]
        requires { sector < set_sectors self.now.size }

        ensures bytes { result.now ≡ sector_of self.now sector }
        ensures told { IsSectorOf self.now sector result.now }
    {
        let bytes = self.bytes.as_slice();
        let from = SECTOR_SIZE * sector as usize;
        &bytes[from..from + SECTOR_SIZE]
    }

    /// Puts a region in.
    pub fn insert(&mut self, region: u64)
        requires { region < self.old.size }

        ensures size { self.new.size ≡ self.old.size }
        ensures has { (r : ℕ) → has_region self.new r ≡ with_region region true (has_region self.old) r }
    {
        self.bytes[(region / 8) as usize] |= 1 << (region % 8);
    }

    /// Takes a region out.
    pub fn remove(&mut self, region: u64)
        requires { region < self.old.size }

        ensures size { self.new.size ≡ self.old.size }
        ensures has { (r : ℕ) → has_region self.new r ≡ with_region region false (has_region self.old) r }
    {
        self.bytes[(region / 8) as usize] &= !(1 << (region % 8));
    }
}

/// A bitmap of so many regions, all of whose bits are clear.
///
/// # Errors
///
/// - `Memory`: there is none for it.
pub(crate) fn zero_bitmap(alloc: Global, size: u64) -> Result<Vec<u8>, Memory>
    requires { size ≤ 2 ^ 48 }

    ensures whole { IfOk result (λ bytes. length bytes.items ≡ 512 * set_sectors size) }
    ensures clear { IfOk result (λ bytes. (region : ℕ) → is_bit_set bytes.items region ≡ false) }
{
    let groups = size.div_ceil(GROUP_BITS);
    let bytes = Vec::from_elem(alloc, 0, (GROUP_SIZE * groups) as usize)?;
    Ok(bytes)
}
