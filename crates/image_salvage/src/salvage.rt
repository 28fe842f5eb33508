//! A salvage: an image is opened once, and told block by block.
ghost use Rattle.std.specs.Prelude.{◌≡◌, length, IfErr, IfOk, OnErr};
ghost use Rattle.disk_model.specs.Causes.{HasCause};
ghost use Rattle.disk_model.specs.Identity.{IsBound};
ghost use Rattle.hmac_tag.specs.TagMaker.{key_of};
ghost use Rattle.image_refusal.specs.Calls.{HasRefusalCause};
ghost use Rattle.image_salvage.specs.Refusing.{HasNoFault, TellsFault};
ghost use Rattle.image_salvage.specs.Salvaged.{IsSalvageOf, IsSameSalvage, LeavesDisk, block_size, blocks_of};
ghost use Rattle.image_salvage.specs.Telling.{GivesBytes, TellsNext, told_behind};

use crate::image::SalvagedImage;
use crate::{Refused, Verdict};
use hmac_tag::Hash;
use sector_disk::{Disk, Failed};
use std::alloc::Global;

/// What can still be read of an image, block by block, over a disk that it is lent until it gives that back. It writes
/// nothing, and takes all its memory when it is opened.
#[derive(Drop)]
pub struct Salvage<'d, D: Disk> {
    pub(crate) disk: &'d mut D,
    pub(crate) image: SalvagedImage,
}

impl<'d, D: Disk> Salvage<'d, D> {
    /// Opens the image of a disk, whose tags are made by this hash. Its first sector alone is read: no journal and no bitmap
    /// is looked at.
    ///
    /// # Errors
    ///
    /// The disk comes back. The first that holds:
    ///
    /// - `Disk`: the disk failed at the read.
    /// - `Super`: the superblock is refused. A disk without a sector has no magic.
    /// - `Geom`: the disk has no room for what the superblock tells.
    /// - `Memory`: there is none for what is read.
    pub fn open(
        alloc: Global,
        disk: &'d mut D,
        hash: Hash,
    ) -> Result<Salvage<'d, D>, Refused<'d, D>>
        requires { IsBound (D.identity disk.old).name }

        ensures image { IfOk result (λ s. IsSalvageOf s.image (D.identity s.disk.now) (D.moments s.disk.now)) }
        ensures key { IfOk result (λ s. s.image.rule.key ≡ key_of hash) }
        ensures told { IfOk result (λ s. s.image.told ≡ 0) }
        ensures accepted { IfOk result (λ s. HasNoFault (D.identity disk.old).sectors (D.moments disk.old)) }
        ensures passed { IfOk result (λ s. D.faults s.disk.now ≡ D.faults disk.old) }
        ensures leaves { IfOk result (λ s. LeavesDisk (D.identity disk.old) (D.identity s.disk.now)
            (D.moments disk.old) (D.moments s.disk.now)) }
        ensures same_disk { IfOk result (λ s. s.disk.ghost_name ≡ disk.entry.ghost_name) }

        ensures refused { IfErr result (λ r. TellsFault (D.identity disk.old).sectors (D.moments disk.old) r.fault) }
        ensures cause { IfErr result (λ r. HasRefusalCause (D.faults disk.old) (D.faults r.disk.now) r.fault) }
        ensures err { IfErr result (λ r. LeavesDisk (D.identity disk.old) (D.identity r.disk.now)
            (D.moments disk.old) (D.moments r.disk.now)) }
        ensures same_disk_back { IfErr result (λ r. r.disk.ghost_name ≡ disk.entry.ghost_name) }
    {
        match SalvagedImage::open(alloc, disk, hash) {
            Ok(image) => Ok(Salvage { disk, image }),
            Err(fault) => Err(Refused { fault, disk }),
        }
    }

    /// How many blocks the device has.
    pub fn blocks(&self) -> u64
        ensures { result ≡ blocks_of self.now.image }
    {
        self.image.blocks()
    }

    /// How many bytes a block has.
    pub fn block_size(&self) -> usize
        ensures { result ≡ block_size self.now.image }
    {
        self.image.block_size()
    }

    /// Tells the next block, in order from the first, each once: its number and both of its tags. What stands in its place
    /// comes to `bytes`. Behind the last block it tells none, and `bytes` are as they were. Tags and blocks are read in runs,
    /// each by one call of the disk, and no memory is taken.
    ///
    /// # Errors
    ///
    /// - `Failed`: the disk failed at a read. Nothing was told, `bytes` are as they were, and the call may be made again.
    pub fn next(&mut self, bytes: &mut [u8]) -> Result<Option<Verdict>, Failed>
        requires image { IsSalvageOf self.old.image (D.identity self.old.disk.now) (D.moments self.old.disk.now) }
        requires bytes { length bytes.old ≡ block_size self.old.image }

        ensures verdict { IfOk result (TellsNext self.old.image (D.identity self.old.disk.now).sectors
            (D.moments self.old.disk.now)) }
        ensures bytes { IfOk result (λ answer. GivesBytes self.old.image (D.identity self.old.disk.now).sectors
            (D.moments self.old.disk.now) answer bytes.old bytes.new) }
        ensures told { IfOk result (λ answer. self.new.image.told ≡ told_behind answer self.old.image.told) }

        ensures cause { HasCause (D.faults self.old.disk.now) (D.faults self.new.disk.now) result }
        ensures err { OnErr result ((self.new.image.told ≡ self.old.image.told) × (bytes.new ≡ bytes.old)) }

        ensures image { IsSalvageOf self.new.image (D.identity self.new.disk.now) (D.moments self.new.disk.now) }
        ensures same { IsSameSalvage self.old.image self.new.image }
        ensures identity { D.identity self.new.disk.now ≡ D.identity self.old.disk.now }
        ensures kept { D.moments self.new.disk.now ≡ D.moments self.old.disk.now }
        ensures same_disk { self.new.disk.ghost_name ≡ self.old.disk.ghost_name }
    {
        self.image.next(self.disk, bytes)
    }

    /// Gives the disk back as it is.
    pub fn give_back(self) -> &'d mut D
        ensures same_disk { result.ghost_name ≡ self.entry.disk.ghost_name }
        ensures disk { result.now ≡ self.entry.disk.now }
    {
        let Salvage { disk, image } = self;
        drop(image);
        disk
    }
}
