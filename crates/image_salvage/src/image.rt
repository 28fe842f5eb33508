//! What is kept of an image that is salvaged, beside its disk.
ghost use Rattle.std.specs.Prelude.{◌≡◌, length, IfErr, IfOk, OnErr};
ghost use Rattle.disk_model.specs.Causes.{HasCause};
ghost use Rattle.disk_model.specs.Identity.{IsBound};
ghost use Rattle.hmac_tag.specs.TagMaker.{key_of};
ghost use Rattle.image_refusal.specs.Calls.{HasCallCause};
ghost use Rattle.image_salvage.specs.Refusing.{HasNoFault, TellsFault};
ghost use Rattle.image_salvage.specs.Salvaged.{IsSalvageOf, IsSameSalvage, block_size, blocks_of};
ghost use Rattle.image_salvage.specs.Telling.{GivesBytes, TellsNext, told_behind};

use crate::Verdict;
use crate::reading::{read_block, tag_maker};
use hmac_tag::{Hash, TagMaker};
use image_format::{ImageFormat, read_format};
use image_model::SECTOR_SIZE;
use image_refusal::{CallFault, HeadFault};
use sector_disk::{Disk, Failed};
use sector_window::SectorWindow;
use std::alloc::Global;
use std::marker::Model;

/// How many sectors are read for tags at once: 64 KiB, and one that the last tag may end in.
///
/// Own: behind 64 KiB a larger read is no faster.
const TAG_WINDOW: u64 = 129;

/// How many are read for blocks.
///
/// Own: 256 KiB.
const BLOCK_WINDOW: u64 = 512;

/// What is kept of an image that is salvaged. It takes all its memory when it is opened.
#[derive(Drop)]
pub(crate) struct SalvagedImage {
    format: ImageFormat,
    maker: TagMaker,
    /// How many of its blocks were told: the number of the next one.
    told: u64,
    tags: SectorWindow,
    blocks: SectorWindow,
}

impl Model for SalvagedImage {
    ghost use Rattle.image_salvage.specs.Salvaged.{Salvaged};

    ghost Value = { Salvaged };

    ghost view = { λ image. record {
      format = image.format;
      rule = image.maker;
      told = image.told;
      tags = image.tags;
      blocks = image.blocks;
    } };
}

impl SalvagedImage {
    /// Opens the image of a disk, of which no block was told yet. Its first sector alone is read.
    ///
    /// # Errors
    ///
    /// The first that holds:
    ///
    /// - `Disk`: the disk failed at the read.
    /// - `Super`, `Geom`: the first sector is refused.
    /// - `Memory`: there is none for what is read.
    pub(crate) fn open<D: Disk>(
        alloc: Global,
        disk: &mut D,
        hash: Hash,
    ) -> Result<SalvagedImage, CallFault<HeadFault>>
        requires { IsBound (D.identity disk.old).name }

        ensures image { IfOk result (λ image. IsSalvageOf image (D.identity disk.new) (D.moments disk.new)) }
        ensures key { IfOk result (λ image. image.rule.key ≡ key_of hash) }
        ensures told { IfOk result (λ image. image.told ≡ 0) }
        ensures accepted { IfOk result (λ image. HasNoFault (D.identity disk.old).sectors (D.moments disk.old)) }

        ensures refused { IfErr result (TellsFault (D.identity disk.old).sectors (D.moments disk.old)) }
        ensures cause { HasCallCause (D.faults disk.old) (D.faults disk.new) result }

        ensures identity { D.identity disk.new ≡ D.identity disk.old }
        ensures kept { D.moments disk.new ≡ D.moments disk.old }
    {
        let format = read_format(disk)?;
        let maker = tag_maker(&format, hash);
        let tags = SectorWindow::new(alloc, TAG_WINDOW)?;
        let blocks = SectorWindow::new(alloc, BLOCK_WINDOW)?;
        Ok(SalvagedImage {
            format,
            maker,
            told: 0,
            tags,
            blocks,
        })
    }

    /// How many blocks the device has.
    pub(crate) fn blocks(&self) -> u64
        ensures { result ≡ blocks_of self.now }
    {
        self.format.geometry.blocks()
    }

    /// How many bytes a block has.
    pub(crate) fn block_size(&self) -> usize
        ensures { result ≡ block_size self.now }
    {
        SECTOR_SIZE * self.format.geometry.shape().spb as usize
    }

    /// Tells the next block, as `Salvage::next` does.
    ///
    /// # Errors
    ///
    /// - `Failed`: the disk failed at a read.
    pub(crate) fn next<D: Disk>(
        &mut self,
        disk: &mut D,
        bytes: &mut [u8],
    ) -> Result<Option<Verdict>, Failed>
        requires image { IsSalvageOf self.old (D.identity disk.old) (D.moments disk.old) }
        requires bytes { length bytes.old ≡ block_size self.old }

        ensures verdict { IfOk result (TellsNext self.old (D.identity disk.old).sectors (D.moments disk.old)) }
        ensures bytes { IfOk result (λ answer. GivesBytes self.old (D.identity disk.old).sectors (D.moments disk.old)
            answer bytes.old bytes.new) }
        ensures told { IfOk result (λ answer. self.new.told ≡ told_behind answer self.old.told) }

        ensures cause { HasCause (D.faults disk.old) (D.faults disk.new) result }
        ensures err { OnErr result ((self.new.told ≡ self.old.told) × (bytes.new ≡ bytes.old)) }

        ensures image { IsSalvageOf self.new (D.identity disk.new) (D.moments disk.new) }
        ensures same { IsSameSalvage self.old self.new }
        ensures identity { D.identity disk.new ≡ D.identity disk.old }
        ensures kept { D.moments disk.new ≡ D.moments disk.old }
    {
        let block = self.told;
        if block >= self.format.geometry.blocks() {
            return Ok(None);
        }
        let verdict = read_block(
            disk,
            &self.format,
            &self.maker,
            &mut self.tags,
            &mut self.blocks,
            block,
            bytes,
        )?;
        self.told = block + 1;
        Ok(Some(verdict))
    }
}
