//! The bits of all regions, in memory and on a disk.
ghost use Rattle.std.specs.Prelude.{◌≡◌, ◌<◌, ◌≤◌, ◌-◌, ℕ, true, false, Ok, Err, IfOk, OnErr, OnOk, find};
ghost use Rattle.std.specs.List.{count_by, range_with_len};
ghost use Rattle.disk_model.specs.Causes.{HasCause};
ghost use Rattle.disk_model.specs.Disk.{HasNothingPending, last_image};
ghost use Rattle.disk_model.specs.Identity.{IsBound};
ghost use Rattle.disk_model.specs.Moments.{HasNow};
ghost use Rattle.image_model.specs.Bitmap.{is_dirty};
ghost use Rattle.image_model.specs.Geometry.{IsGeometry, bitmap_sectors, journal_sectors, regions};
ghost use Rattle.device_model.specs.Regions.{with_region};
ghost use Rattle.bitmap_model.specs.BitmapDisk.{bit_sector};
ghost use Rattle.bitmap_laws.specs.CallLaws.{AddsBits, AreSameBits, IsCleared, IsDirtied, IsNowBy};
ghost use Rattle.dirty_bitmap.specs.Bits.{AddsToSector, HoldsBitsNow, KeepsHolding, KeepsHoldingWith, StaysButBit};
ghost use Rattle.dirty_bitmap.specs.Bits.{bits_of};
ghost use Rattle.dirty_bitmap.specs.Faults.{HasBitsCause};
ghost use Rattle.dirty_bitmap.specs.declared.faults.BitsFault.TheVariants.{Memory as NoMemory};

use crate::region_set::zero_bitmap;
use crate::writing::{write_bit, write_bit_and_sync};
use crate::{BitsFault, RegionSet};
use image_model::SUPERBLOCK_SECTORS;
use layout::Geometry;
use sector_disk::{Disk, Failed, Memory};
use std::alloc::Global;
use std::marker::Model;

/// The bits of all regions of a geometry, in memory: those that are set in the bitmap of a disk.
///
/// All its calls are over one disk, of which nobody else writes a sector of the bitmap. None of them takes memory but
/// the two that make it.
#[derive(Drop)]
pub struct Bits {
    geometry: Geometry,
    set: RegionSet,
}

impl Model for Bits {
    ghost use Rattle.dirty_bitmap.specs.Bits.{IsSetOf, RegionBits};

    ghost Value = { RegionBits };

    ghost view = { λ bits. record { geometry = bits.geometry; bytes = bits.set.bytes } };

    ghost invariant = { λ bits. IsSetOf bits.geometry bits.set };
}

impl Bits {
    /// Reads the bitmap of a disk, by one call. Bits of no region are not looked at.
    ///
    /// # Errors
    ///
    /// - `Memory`: there is none for the bitmap, which has no more sectors than the journal. The disk is not called.
    /// - `Disk`: the disk failed at the read.
    pub fn load<D: Disk>(alloc: Global, disk: &mut D, geometry: Geometry) -> Result<Bits, BitsFault>
        requires bound { IsBound (D.identity disk.old).name }
        requires places { IsGeometry geometry (D.identity disk.old).sectors }
        requires fits { bitmap_sectors geometry ≤ journal_sectors geometry }

        ensures geometry { IfOk result (λ bits. bits.geometry ≡ geometry) }
        ensures loaded { IfOk result (λ bits. HasNow (λ c. AreSameBits geometry (bits_of bits)
            (is_dirty geometry (last_image c))) (D.moments disk.old)) }

        ensures memory { result ≡ Err NoMemory → disk.new ≡ disk.old }
        ensures cause { HasBitsCause (D.faults disk.old) (D.faults disk.new) result }

        ensures identity { D.identity disk.new ≡ D.identity disk.old }
        ensures kept { D.moments disk.new ≡ D.moments disk.old }

        // Where nothing is pending, every candidate has the bits.
        ensures holds { IfOk result (λ bits. HasNow HasNothingPending (D.moments disk.old)
            → HoldsBitsNow geometry (bits_of bits) (D.moments disk.new)) }
    {
        let size = geometry.regions();
        let mut bytes = zero_bitmap(alloc, size)?;
        disk.read_run(SUPERBLOCK_SECTORS, bytes.as_mut_slice())?;
        let set = RegionSet::from_bitmap(size, bytes);
        Ok(Bits { geometry, set })
    }

    /// The bits of a bitmap in which none is set.
    ///
    /// # Errors
    ///
    /// - `Memory`: there is none for the bitmap, which has no more sectors than the journal.
    pub fn none(alloc: Global, geometry: Geometry) -> Result<Bits, Memory>
        requires { bitmap_sectors geometry ≤ journal_sectors geometry }

        ensures geometry { IfOk result (λ bits. bits.geometry ≡ geometry) }
        ensures none { IfOk result (λ bits. AreSameBits geometry (bits_of bits) (λ region. false)) }
    {
        let _ = geometry.blocks();
        let set = RegionSet::none(alloc, geometry.regions())?;
        Ok(Bits { geometry, set })
    }

    /// The regions whose bits are set.
    pub fn regions(&self) -> &RegionSet
        ensures size { result.now.size ≡ regions self.now.geometry }
        ensures bytes { result.now.bytes ≡ self.now.bytes }
    {
        &self.set
    }

    /// Whether the region's bit is set.
    pub fn is_set(&self, region: u64) -> bool
        requires { region < regions self.now.geometry }

        ensures { result ≡ bits_of self.now region }
    {
        self.set.has(region)
    }

    /// The least region not below `from` whose bit is set.
    pub fn next_set(&self, from: u64) -> Option<u64>
        ensures { result ≡ find (bits_of self.now) (range_with_len from (regions self.now.geometry - from)) }
    {
        self.set.next(from)
    }

    /// How many regions have their bit set.
    pub fn count(&self) -> u64
        ensures { result ≡ count_by (bits_of self.now) (range_with_len 0 (regions self.now.geometry)) }
    {
        self.set.count()
    }

    /// Sets the region's bit, in memory and on the disk, and syncs. Where it is set no call is made.
    ///
    /// # Errors
    ///
    /// - `Failed`: the disk failed. In memory the bit is as it was, clear; an image may have it, or not.
    ///
    /// Source: Linux, `drivers/md/dm-integrity.c`, `block_bitmap_op` and `integrity_metadata`.
    pub fn make_dirty<D: Disk>(&mut self, disk: &mut D, region: u64) -> Result<(), Failed>
        requires bound { IsBound (D.identity disk.old).name }
        requires places { IsGeometry self.old.geometry (D.identity disk.old).sectors }
        requires region { region < regions self.old.geometry }

        ensures set { OnOk result (AreSameBits self.old.geometry (bits_of self.new)
            (with_region region true (bits_of self.old))) }
        ensures written { OnOk result (IsNowBy (IsDirtied self.old.geometry (bits_of self.old) region)
            (D.moments disk.old) (D.moments disk.new)) }
        ensures still { bits_of self.old region ≡ true → (result ≡ Ok tt) × (disk.new ≡ disk.old)
            × (self.new ≡ self.old) }

        ensures cause { HasCause (D.faults disk.old) (D.faults disk.new) result }
        ensures err { OnErr result (AreSameBits self.old.geometry (bits_of self.new) (bits_of self.old)) }

        ensures stays { StaysButBit self.old self.new (D.identity disk.old) (D.identity disk.new)
            (D.moments disk.old) (D.moments disk.new) }

        // Every candidate has the bit, and the other ones that were set.
        ensures holds { OnOk result (KeepsHoldingWith region self.old self.new
            (D.moments disk.old) (D.moments disk.new)) }
        ensures sector { AddsToSector (bit_sector region) (D.moments disk.old) (D.moments disk.new) }
        ensures moments { AddsBits self.old.geometry (with_region region true (bits_of self.old))
            (D.moments disk.old) (D.moments disk.new) }
    {
        let was_set = self.set.has(region);
        if was_set {
            return Ok(());
        }
        self.set.insert(region);
        match write_bit_and_sync(disk, &self.set, region) {
            Ok(()) => Ok(()),
            Err(failed) => {
                self.set.remove(region);
                Err(failed)
            }
        }
    }

    /// Clears the region's bit, in memory and on the disk. It is not synced.
    ///
    /// # Errors
    ///
    /// - `Failed`: the disk failed. In memory the bit is as it was; an image may have it, or not.
    ///
    /// Source: Linux, `drivers/md/dm-integrity.c`, `block_bitmap_op` and `bitmap_flush_work`.
    pub fn clear<D: Disk>(&mut self, disk: &mut D, region: u64) -> Result<(), Failed>
        requires bound { IsBound (D.identity disk.old).name }
        requires places { IsGeometry self.old.geometry (D.identity disk.old).sectors }
        requires region { region < regions self.old.geometry }

        ensures cleared { OnOk result (AreSameBits self.old.geometry (bits_of self.new)
            (with_region region false (bits_of self.old))) }
        ensures written { OnOk result (IsNowBy (IsCleared self.old.geometry (bits_of self.old) region)
            (D.moments disk.old) (D.moments disk.new)) }

        ensures cause { HasCause (D.faults disk.old) (D.faults disk.new) result }
        ensures err { OnErr result (AreSameBits self.old.geometry (bits_of self.new) (bits_of self.old)) }

        ensures stays { StaysButBit self.old self.new (D.identity disk.old) (D.identity disk.new)
            (D.moments disk.old) (D.moments disk.new) }

        // Reads give the bit clear, and every candidate has the other ones that were set.
        ensures holds { OnOk result (KeepsHolding self.old self.new (D.moments disk.old) (D.moments disk.new)) }
        ensures sector { AddsToSector (bit_sector region) (D.moments disk.old) (D.moments disk.new) }
        ensures moments { AddsBits self.old.geometry (with_region region false (bits_of self.old))
            (D.moments disk.old) (D.moments disk.new) }
    {
        let was_set = self.set.has(region);
        self.set.remove(region);
        match write_bit(disk, &self.set, region) {
            Ok(()) => Ok(()),
            Err(failed) => {
                if was_set {
                    self.set.insert(region);
                }
                Err(failed)
            }
        }
    }
}
