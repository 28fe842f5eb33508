//! The layout that the fields of a superblock give, whatever the disk.
ghost use Rattle.std.specs.Prelude.{◌≡◌, ◌*◌, ◌+◌, ◌^◌, ◌<◌, ◌≤◌, ℕ, Err, IfErr, IfOk, if◌then◌else◌};
ghost use Rattle.std.specs.Result.{result_map_both};
ghost use Rattle.image_model.specs.Faults.{ok_unless};
ghost use Rattle.image_model.specs.Geometry.{area_at, best_provided, data_at, geometry_of, initial, journal_sectors, layout_of, section_at, sector_at, size_faults, tag_at, tag_run_of};
ghost use Rattle.image_model.specs.Superblock.{has_flag, HasLayout, IsAccepted};
ghost use Rattle.layout.specs.Layout.{as_geometry, FitsADisk, IsLayout, IsWithinLimits};

use crate::regions::bitmap_sectors_for;
use commit_id::Shape;
use image_model::{
    BytePlace, DIRTY_BITMAP, FIXED_PADDING, GeomFault, MOST_JOURNAL_SECTORS, MOST_SECTORS,
    SECTOR_SIZE, SUPERBLOCK_SECTORS, Super,
};

/// What the tags of an area take a multiple of under `FIXED_PADDING`, in bytes.
///
/// Source: Linux, `drivers/md/dm-integrity.c`, `calculate_device_limits`.
const FIXED_PAD: u64 = 4096;

/// What they take a multiple of without it, in bytes.
///
/// Own: as the kernel has it where an area is large enough, see `docs/DECISIONS.md`.
const LEGACY_PAD: u64 = 131072;

/// What the provided sectors are a multiple of.
///
/// Source: Linux, `drivers/md/dm-integrity.c`, `initialize_superblock`.
pub(crate) const PROVIDED_STEP: u64 = 8;

/// What every place follows from.
#[derive(Clone, Copy, Debug)]
pub(crate) struct Layout {
    pub(crate) shape: Shape,
    /// How many sections the journal has.
    pub(crate) sections: u64,
    /// How many data sectors an area has.
    pub(crate) interleave: u64,
    /// How many sectors of tags stand before them.
    pub(crate) tag_run: u64,
    /// How many blocks the device has.
    pub(crate) blocks: u64,
    /// A region has 2^`log2_region` blocks.
    pub(crate) log2_region: u8,
}

impl Layout {
    /// The layout of these fields.
    pub(crate) fn of(fields: Super) -> Layout
        requires fields { HasLayout fields }

        ensures layout { as_geometry result ≡ layout_of fields }
        ensures is_layout { IsLayout result }
    {
        Layout {
            shape: Shape::of(fields.log2_spb, fields.tag_size as u8),
            sections: fields.sections as u64,
            interleave: 1 << fields.log2_interleave,
            tag_run: tag_run(fields),
            blocks: fields.provided >> fields.log2_spb,
            log2_region: fields.log2_region,
        }
    }

    /// The layout of these fields, where the disk has this many sectors.
    ///
    /// # Errors
    ///
    /// The first that holds:
    ///
    /// - `DeviceTooLarge`: the disk has more than 2^48 sectors.
    /// - `JournalTooLarge`: the journal has more than 2^20.
    pub(crate) fn on_disk(fields: Super, disk_sectors: u64) -> Result<Layout, GeomFault>
        requires fields { HasLayout fields }

        ensures within { IfOk result
            (λ layout. IsWithinLimits fields disk_sectors (as_geometry layout)) }
        ensures is_layout { IfOk result (λ layout. IsLayout layout) }
        ensures fault { let g = layout_of fields in
            IfErr result (λ fault. Err fault ≡ ok_unless (size_faults g disk_sectors) g) }
    {
        let layout = Layout::of(fields);
        if disk_sectors > MOST_SECTORS {
            let have = disk_sectors;
            return Err(GeomFault::DeviceTooLarge { have });
        }
        let sectors = layout.journal_sectors();
        if sectors > MOST_JOURNAL_SECTORS {
            return Err(GeomFault::JournalTooLarge { sectors });
        }
        Ok(layout)
    }

    /// The layout of accepted fields, where the disk has room for it.
    ///
    /// # Errors
    ///
    /// The first that holds:
    ///
    /// - `DeviceTooLarge`, `JournalTooLarge`: as `on_disk` tells them.
    /// - `TooSmall`: the last data sector is not on the disk.
    /// - `BitmapTooLarge`: the flag for a bitmap is set, and it needs more sectors than the journal
    ///   has.
    pub(crate) fn with_room(fields: Super, disk_sectors: u64) -> Result<Layout, GeomFault>
        requires fields { IsAccepted fields }

        ensures told { result_map_both as_geometry (λ fault. fault) result
            ≡ geometry_of fields disk_sectors }
        ensures is_layout { IfOk result (λ layout. IsLayout layout) }
    {
        let layout = Layout::on_disk(fields, disk_sectors)?;
        let have = disk_sectors;
        let need = layout.sector_at(fields.provided - 1) + 1;
        if have < need {
            return Err(GeomFault::TooSmall { have, need });
        }
        let have = layout.journal_sectors();
        let need = bitmap_sectors_for(layout.blocks, layout.log2_region);
        if fields.flags & DIRTY_BITMAP != 0 && have < need {
            return Err(GeomFault::BitmapTooLarge { need, have });
        }
        Ok(layout)
    }

    /// How many sectors the journal has.
    pub(crate) fn journal_sectors(self) -> u64
        requires layout { IsLayout self }

        ensures { result ≡ journal_sectors (as_geometry self) }
    {
        self.sections * self.shape.sectors
    }

    /// The first sector behind the journal.
    pub(crate) fn initial(self) -> u64
        requires layout { IsLayout self }

        ensures { result ≡ initial (as_geometry self) }
    {
        SUPERBLOCK_SECTORS + self.journal_sectors()
    }

    /// The sector of the disk where a section of the journal begins.
    pub(crate) fn section_at(self, section: u64) -> u64
        requires layout { IsLayout self }
        requires section { section < self.sections }

        ensures { result ≡ section_at (as_geometry self) section }
    {
        SUPERBLOCK_SECTORS + section * self.shape.sectors
    }

    /// The sector of the disk where an area begins: first its tags, then its data.
    pub(crate) fn area_at(self, area: u64) -> u64
        requires layout { IsLayout self }
        requires fits { area_at (as_geometry self) area < 2 ^ 64 }

        ensures { result ≡ area_at (as_geometry self) area }
    {
        self.initial() + area * (self.tag_run + self.interleave)
    }

    /// The sector of the disk that holds a sector of the device.
    #[tactic(auto, unfolding(image_model::specs::Geometry::sector_at))]
    pub(crate) fn sector_at(self, sector: u64) -> u64
        requires layout { IsLayout self }
        requires fits { sector_at (as_geometry self) sector < 2 ^ 64 }

        ensures { result ≡ sector_at (as_geometry self) sector }
    {
        let area = self.area_at(sector / self.interleave);
        area + self.tag_run + sector % self.interleave
    }

    /// The sector of the disk where the data of a block begin.
    #[tactic(auto, unfolding(image_model::specs::Geometry::data_at))]
    pub(crate) fn data_at(self, block: u64) -> u64
        requires layout { FitsADisk self }
        requires block { block < self.blocks }

        ensures { result ≡ data_at (as_geometry self) block }
    {
        self.sector_at(block * self.shape.spb)
    }

    /// The sector of the disk where the tag of a block begins, and the byte in it.
    #[tactic(auto, unfolding(image_model::specs::Geometry::tag_at, image_model::specs::Geometry::tag_offset))]
    pub(crate) fn tag_at(self, block: u64) -> BytePlace
        requires layout { FitsADisk self }
        requires block { block < self.blocks }

        ensures { result ≡ tag_at (as_geometry self) block }
    {
        let sector = block * self.shape.spb;
        let byte = sector % self.interleave / self.shape.spb * self.shape.tag;
        let area = self.area_at(sector / self.interleave);
        let sector_size = SECTOR_SIZE as u64;
        BytePlace {
            sector: area + byte / sector_size,
            byte: byte % sector_size,
        }
    }

    /// The most sectors, a multiple of 8, that have their data on a disk of so many: those of whole
    /// areas, and of one cut short.
    #[tactic(auto, unfolding(image_model::specs::Geometry::best_provided))]
    pub(crate) fn best_provided(self, disk_sectors: u64) -> u64
        requires layout { IsLayout self }
        requires disk_sectors { disk_sectors ≤ 2 ^ 48 }

        ensures { result ≡ best_provided (as_geometry self) disk_sectors }
    {
        let space = disk_sectors.saturating_sub(self.initial());
        let area = self.tag_run + self.interleave;
        let last = (space % area).saturating_sub(self.tag_run);
        (space / area * self.interleave + last) / PROVIDED_STEP * PROVIDED_STEP
    }
}

/// How many sectors the tags of an area take.
fn tag_run(fields: Super) -> u64
    requires fields { HasLayout fields }

    ensures { result ≡ tag_run_of fields }
{
    let blocks = 1 << (fields.log2_interleave - fields.log2_spb);
    (blocks * fields.tag_size as u64).next_multiple_of(padding(fields.flags)) / SECTOR_SIZE as u64
}

/// What the tags of an area take a multiple of under these flags, in bytes.
fn padding(flags: u32) -> u64
    ensures { result ≡ (if has_flag FIXED_PADDING flags then 4096 else 131072) }
{
    if flags & FIXED_PADDING != 0 {
        FIXED_PAD
    } else {
        LEGACY_PAD
    }
}
