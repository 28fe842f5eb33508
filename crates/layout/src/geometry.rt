//! The geometry of an image: where the journal, the tags and the data lie, and which blocks make a
//! region.
//!
//! A `Geometry` is made only where no two things overlap and all lie on the disk (`Geometry::new`,
//! `apart`). So each place is computed without a test, and fits its number.
ghost use Rattle.std.specs.Prelude.{◌≡◌, ◌<◌, ◌^◌, IfOk};
ghost use Rattle.image_model.specs.Geometry.{bitmap_sectors, data_at, fitting_log2_region, geometry_of, initial, IsGeometry, region_of, regions, section_at, tag_at};
ghost use Rattle.image_model.specs.GeometryLaws.{IsFitting, LiesApart};
ghost use Rattle.image_model.specs.Grid.{blank_bound};
ghost use Rattle.image_model.specs.Superblock.{IsAccepted};
ghost use Rattle.commit_id.specs.Shape.{as_shape, IsShape};

use crate::layout::Layout;
use crate::regions::{bitmap_sectors_for, fitting_log2_region, region_of, regions_for};
use commit_id::Shape;
use image_model::{BytePlace, GeomFault, Super};
use std::marker::Model;

/// Where all that an image has lies on its disk.
///
/// Source: Linux, `Documentation/admin-guide/device-mapper/dm-integrity.rst`, the layout of the
/// device.
#[derive(Clone, Copy, Debug)]
pub struct Geometry {
    layout: Layout,
}

impl Model for Geometry {
    ghost use Rattle.image_model.specs.Geometry.{Geometry};
    ghost use Rattle.layout.specs.Layout.{as_geometry, as_layout, FitsADisk, as_layout-as_geometry};

    ghost Value = { Geometry };

    ghost view = { λ geometry. as_geometry geometry.layout };

    ghost invariant = { λ geometry. FitsADisk geometry.layout };

    ghost inverse = { λ g. record { layout = as_layout g } };

    ghost inverse_ok = { λ geometry fits i. record {
      layout = as_layout-as_geometry geometry.layout fits i;
    } };
}

impl Geometry {
    /// The geometry of accepted fields on a disk of so many sectors.
    ///
    /// # Errors
    ///
    /// The first that holds:
    ///
    /// - `DeviceTooLarge`: the disk has more than 2^48 sectors.
    /// - `JournalTooLarge`: the journal has more than 2^20 sectors.
    /// - `TooSmall`: the last data sector is not on the disk.
    /// - `BitmapTooLarge`: the flag for a bitmap is set, and it needs more sectors than the journal
    ///   has.
    ///
    /// Source: Linux, `drivers/md/dm-integrity.c`, `dm_integrity_ctr`.
    pub fn new(fields: &Super, disk_sectors: u64) -> Result<Geometry, GeomFault>
        requires fields { IsAccepted fields.now }

        ensures told { result
            ≡ geometry_of fields.now disk_sectors }
        ensures geometry { IfOk result (λ g. IsGeometry g disk_sectors) }

        // No two parts of the image overlap, and each is on the disk.
        ensures apart { IfOk result (λ g. LiesApart g disk_sectors) }
    {
        let layout = Layout::with_room(*fields, disk_sectors)?;
        Ok(Geometry { layout })
    }

    /// How many blocks the device has.
    pub fn blocks(&self) -> u64
        ensures blocks { result ≡ self.now.blocks }

        // What holds of every geometry, whatever its disk.
        ensures geometry { IsGeometry self.now (2 ^ 48) }
    {
        self.layout.blocks
    }

    /// How many sections the journal has.
    pub fn sections(&self) -> u64
        ensures { result ≡ self.now.sections }
    {
        self.layout.sections
    }

    /// What a section of the journal looks like.
    pub fn shape(&self) -> Shape
        ensures shape { as_shape result ≡ self.now.shape }
        ensures is_shape { IsShape result }
    {
        self.layout.shape
    }

    /// How many sectors of tags stand before the data of an area.
    pub fn tag_run(&self) -> u64
        ensures { result ≡ self.now.tag_run }
    {
        self.layout.tag_run
    }

    /// The first sector behind the journal.
    pub fn initial(&self) -> u64
        ensures { result ≡ initial self.now }
    {
        self.layout.initial()
    }

    /// The sector of the disk where a section of the journal begins.
    ///
    /// Source: Linux, `drivers/md/dm-integrity.c`, `rw_journal`.
    pub fn section_at(&self, section: u64) -> u64
        requires section { section < self.now.sections }

        ensures { result ≡ section_at self.now section }
    {
        self.layout.section_at(section)
    }

    /// The sector of the disk where the data of a block begin.
    ///
    /// Source: Linux, `drivers/md/dm-integrity.c`, `get_data_sector`.
    pub fn data_at(&self, block: u64) -> u64
        requires block { block < self.now.blocks }

        ensures { result ≡ data_at self.now block }
    {
        self.layout.data_at(block)
    }

    /// The sector of the disk where the tag of a block begins, and the byte in it. A tag may end in
    /// the next sector.
    ///
    /// Source: Linux, `drivers/md/dm-integrity.c`, `get_metadata_sector_and_offset`.
    pub fn tag_at(&self, block: u64) -> BytePlace
        requires block { block < self.now.blocks }

        ensures { result ≡ tag_at self.now block }
    {
        self.layout.tag_at(block)
    }

    /// How many regions the device has.
    pub fn regions(&self) -> u64
        ensures { result ≡ regions self.now }
    {
        regions_for(self.layout.blocks, self.layout.log2_region)
    }

    /// The region of a block.
    pub fn region_of(&self, block: u64) -> u64
        requires block { block < self.now.blocks }

        ensures { result ≡ region_of self.now block }
    {
        region_of(block, self.layout.log2_region)
    }

    /// How many sectors a bitmap of the regions takes.
    pub fn bitmap_sectors(&self) -> u64
        ensures { result ≡ bitmap_sectors self.now }
    {
        bitmap_sectors_for(self.layout.blocks, self.layout.log2_region)
    }

    /// The least `log2_region`, not below the given one, with which the bitmap fits the journal.
    pub fn fitting_log2_region(&self) -> u8
        ensures log2_region { result ≡ fitting_log2_region self.now }
        ensures fitting { IsFitting self.now result }
    {
        let journal = self.layout.journal_sectors();
        fitting_log2_region(self.layout.blocks, self.layout.log2_region, journal)
    }

    /// How many sectors a bitmap that fits the journal would take. Among so many first ones of the journal
    /// a zero sector may be a blank one.
    #[tactic(auto, unfolding(image_model::specs::Grid::blank_bound))]
    pub fn blank_bound(&self) -> u64
        ensures { result ≡ blank_bound self.now }
    {
        bitmap_sectors_for(self.layout.blocks, self.fitting_log2_region())
    }
}
