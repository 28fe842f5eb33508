//! An image that is checked: it is opened once, and asked for its bad blocks in order.
ghost use Rattle.std.specs.Prelude.{◌≡◌, ◌<◌, IfOk};
ghost use Rattle.disk_model.specs.Causes.{HasCause};
ghost use Rattle.disk_model.specs.Disk.{last_image};
ghost use Rattle.disk_model.specs.Identity.{IsBound};
ghost use Rattle.disk_model.specs.Moments.{HasNow};
ghost use Rattle.hmac_tag.specs.TagMaker.{key_of};
ghost use Rattle.image_format.specs.Format.{IsFormat, IsReadNow};
ghost use Rattle.image_refusal.specs.Calls.{HasCallCause};
ghost use Rattle.check_model.specs.Faults.{TellsFault, TellsJournalFault, fault_for, journal_fault_for};
ghost use Rattle.image_check.specs.Checked.{IsCheckOf, IsSameCheck, awaiting_at, bad_at, bad_behind};

use crate::judging::judge_placed;
use crate::opening::{read_journal, tag_maker};
use crate::passing::{count_awaiting, is_passed};
use crate::{Bad, What};
use hmac_tag::{Hash, TagMaker};
use image_format::{ImageFormat, read_format};
use image_refusal::{CallFault, OpenFault};
use journal_reading::NewestEntries;
use sector_disk::{Disk, Failed};
use sector_window::SectorWindow;
use std::alloc::Global;
use std::marker::Model;

/// How many sectors are read for tags at once: 64 KiB, and one that the last tag may end in.
///
/// Own: behind 64 KiB a larger read is no faster.
const TAG_WINDOW: u64 = 129;

/// How many are read for blocks.
///
/// Own: 256 KiB.
const BLOCK_WINDOW: u64 = 512;

/// How many are read for the bits of regions.
///
/// Own: 64 KiB.
const BITMAP_WINDOW: u64 = 128;

/// An image that is checked. It takes all its memory when it is opened.
///
/// All its calls are over one disk, which nobody else writes.
#[derive(Drop)]
pub struct CheckedImage {
    format: ImageFormat,
    maker: TagMaker,
    what: What,
    /// Which blocks have an entry in the journal, where that is looked at.
    journal: Option<NewestEntries>,
    tags: SectorWindow,
    blocks: SectorWindow,
    bits: SectorWindow,
}

impl Model for CheckedImage {
    ghost use Rattle.image_check.specs.Checked.{Checked};

    ghost Value = { Checked };

    ghost view = { λ image. record {
      format = image.format;
      rule = image.maker;
      what = image.what;
      journal = image.journal;
      tags = image.tags;
      blocks = image.blocks;
      bits = image.bits;
    } };
}

impl CheckedImage {
    /// Opens an image: its format is read and judged, and its journal where that is looked at. Nothing is written.
    ///
    /// # Errors
    ///
    /// The first that holds:
    ///
    /// - `Head`: the first sector is refused.
    /// - `Journal`: the journal is refused, where it is looked at.
    /// - `Disk`: the disk failed at a read.
    /// - `Memory`: there is none for the journal, or for what is read.
    pub fn open<D: Disk>(
        alloc: Global,
        disk: &mut D,
        hash: Hash,
        what: What,
    ) -> Result<CheckedImage, CallFault<OpenFault>>
        requires { IsBound (D.identity disk.old).name }

        ensures image { IfOk result (λ image. IsCheckOf image (D.identity disk.new) (D.moments disk.new)) }
        ensures what { IfOk result (λ image. image.what ≡ what) }
        ensures key { IfOk result (λ image. image.rule.key ≡ key_of hash) }

        ensures refused { TellsFault result (fault_for what (key_of hash) (D.identity disk.old).sectors)
            (D.moments disk.old) }
        ensures cause { HasCallCause (D.faults disk.old) (D.faults disk.new) result }

        ensures identity { D.identity disk.new ≡ D.identity disk.old }
        ensures kept { D.moments disk.new ≡ D.moments disk.old }
    {
        let format = read_format(disk)?;
        CheckedImage::in_format(alloc, disk, format, hash, what)
    }

    /// Opens an image in this format, which is its own.
    ///
    /// # Errors
    ///
    /// - `Journal`, `Disk`, `Memory`: as `open` has them.
    fn in_format<D: Disk>(
        alloc: Global,
        disk: &mut D,
        format: ImageFormat,
        hash: Hash,
        what: What,
    ) -> Result<CheckedImage, CallFault<OpenFault>>
        requires bound { IsBound (D.identity disk.old).name }
        requires format { IsFormat (D.identity disk.old).sectors format }
        requires reads { HasNow (IsReadNow (key_of hash) (D.identity disk.old).sectors format) (D.moments disk.old) }

        ensures image { IfOk result (λ image. IsCheckOf image (D.identity disk.new) (D.moments disk.new)) }
        ensures what { IfOk result (λ image. image.what ≡ what) }
        ensures key { IfOk result (λ image. image.rule.key ≡ key_of hash) }

        ensures refused { TellsJournalFault result (journal_fault_for what (key_of hash) format) (D.moments disk.old) }
        ensures cause { HasCallCause (D.faults disk.old) (D.faults disk.new) result }

        ensures identity { D.identity disk.new ≡ D.identity disk.old }
        ensures kept { D.moments disk.new ≡ D.moments disk.old }
    {
        let maker = tag_maker(&format, hash);
        let journal = read_journal(alloc, disk, &format, &maker, what)?;
        let tags = SectorWindow::new(alloc, TAG_WINDOW)?;
        let blocks = SectorWindow::new(alloc, BLOCK_WINDOW)?;
        let bits = SectorWindow::new(alloc, BITMAP_WINDOW)?;
        Ok(CheckedImage {
            format,
            maker,
            what,
            journal,
            tags,
            blocks,
            bits,
        })
    }

    /// How many blocks the device has.
    pub fn blocks(&self) -> u64
        ensures { result ≡ self.now.format.geometry.blocks }
    {
        self.format.geometry.blocks()
    }

    /// The first bad block that is not before `from`, if there is one. Blocks are read in runs, and in calls that go
    /// on behind the block that was told last each block is hashed once.
    ///
    /// # Errors
    ///
    /// - `Failed`: the disk failed at a read. The call may be made again.
    pub fn next_bad<D: Disk>(&mut self, disk: &mut D, from: u64) -> Result<Option<Bad>, Failed>
        requires image { IsCheckOf self.old (D.identity disk.old) (D.moments disk.old) }

        ensures bad { IfOk result (λ answer. HasNow (λ c. answer
            ≡ bad_behind self.old (D.identity disk.old).sectors (last_image c) from) (D.moments disk.old)) }

        ensures cause { HasCause (D.faults disk.old) (D.faults disk.new) result }

        ensures image { IsCheckOf self.new (D.identity disk.new) (D.moments disk.new) }
        ensures same { IsSameCheck self.old self.new }
        ensures identity { D.identity disk.new ≡ D.identity disk.old }
        ensures kept { D.moments disk.new ≡ D.moments disk.old }
    {
        for block in from..self.blocks() {
            if let Some(bad) = self.judge(disk, block)? {
                return Ok(Some(bad));
            }
        }
        Ok(None)
    }

    /// Judges a block: it is told where its stored tag is not that of its bytes. Blocks and tags are read in runs, so
    /// that whoever judges the blocks in order reads each of them once.
    ///
    /// # Errors
    ///
    /// - `Failed`: the disk failed at a read. The call may be made again.
    pub fn judge<D: Disk>(&mut self, disk: &mut D, block: u64) -> Result<Option<Bad>, Failed>
        requires image { IsCheckOf self.old (D.identity disk.old) (D.moments disk.old) }
        requires block { block < self.old.format.geometry.blocks }

        ensures bad { IfOk result (λ answer. HasNow (λ c. answer
            ≡ bad_at self.old (D.identity disk.old).sectors (last_image c) block) (D.moments disk.old)) }

        ensures cause { HasCause (D.faults disk.old) (D.faults disk.new) result }

        ensures image { IsCheckOf self.new (D.identity disk.new) (D.moments disk.new) }
        ensures same { IsSameCheck self.old self.new }
        ensures identity { D.identity disk.new ≡ D.identity disk.old }
        ensures kept { D.moments disk.new ≡ D.moments disk.old }
    {
        let passed = is_passed(
            disk,
            &self.format,
            self.what,
            &self.journal,
            &mut self.bits,
            block,
        )?;
        if passed {
            return Ok(None);
        }
        judge_placed(
            disk,
            &self.format.geometry,
            &self.maker,
            &mut self.tags,
            &mut self.blocks,
            block,
        )
    }

    /// How many blocks await their tags, whatever is judged. With a bitmap these are the blocks of dirty regions, and
    /// it is read in runs. Without one they are those that are to be recalculated, whatever the journal has of them.
    ///
    /// # Errors
    ///
    /// - `Failed`: the disk failed at a read. The call may be made again.
    pub fn count_awaiting<D: Disk>(&mut self, disk: &mut D) -> Result<u64, Failed>
        requires image { IsCheckOf self.old (D.identity disk.old) (D.moments disk.old) }

        ensures awaiting { IfOk result (λ count. HasNow (λ c. count
            ≡ awaiting_at self.old (D.identity disk.old).sectors (last_image c)) (D.moments disk.old)) }

        ensures cause { HasCause (D.faults disk.old) (D.faults disk.new) result }

        ensures image { IsCheckOf self.new (D.identity disk.new) (D.moments disk.new) }
        ensures same { IsSameCheck self.old self.new }
        ensures identity { D.identity disk.new ≡ D.identity disk.old }
        ensures kept { D.moments disk.new ≡ D.moments disk.old }
    {
        count_awaiting(disk, &self.format, &mut self.bits)
    }
}
