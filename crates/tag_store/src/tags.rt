//! The store.
ghost use Rattle.std.specs.Prelude.{◌≡◌, ◌*◌, ◌<◌, length, IfOk, OnErr, OnOk};
ghost use Rattle.disk_model.specs.Causes.{HasCause};
ghost use Rattle.disk_model.specs.Disk.{AddsSome, OnlyAdds, Reads, with_run};
ghost use Rattle.disk_model.specs.Moments.{EachSince, HasNow, IsChangedBy};
ghost use Rattle.image_model.specs.Geometry.{data_at};
ghost use Rattle.buffer_cache.specs.Cache.{sectors_of};
ghost use Rattle.buffer_cache.specs.Cached.{HasNoMark, IsAmidWriteBack, IsWrittenBack, written_back};
ghost use Rattle.tag_store.specs.Store.{IsOfPut, IsOutForTag, IsStore, KeepsButTag, KeepsStore, KeepsTags, StoresFirst, StoresTag, given_tags};

use crate::spans::{read_span, write_span};
use buffer_cache::Cache;
use hmac_tag::Tag;
use layout::Geometry;
use sector_disk::{Disk, Failed};
use std::marker::Model;

/// The blocks of a device and their tags, in their places on a disk, with a cache for the sectors of tags.
///
/// All its calls are over one disk, of which nobody else writes a sector of tags. None of them answers want of memory.
#[derive(Drop)]
pub struct Tags {
    geometry: Geometry,
    cache: Cache,
}

impl Model for Tags {
    ghost use Rattle.buffer_cache.specs.Cache.{sectors_of};
    ghost use Rattle.tag_store.specs.Store.{Store};

    ghost Value = { Store };

    ghost view = { λ tags. record { geometry = tags.geometry; sectors = sectors_of tags.cache } };
}

impl Tags {
    /// Makes a store for these places, over what the cache holds.
    pub fn new(geometry: Geometry, cache: Cache) -> Tags
        ensures { result ≡ record { geometry = geometry; sectors = sectors_of cache } }
    {
        Tags { geometry, cache }
    }

    /// The same tags under another geometry, whose blocks and tags lie in the same places.
    pub fn under(self, geometry: Geometry) -> Tags
        ensures { result ≡ record { geometry = geometry; sectors = self.sectors } }
    {
        let Tags { cache, .. } = self;
        Tags { geometry, cache }
    }

    /// Reads the tag of a block.
    ///
    /// The sectors of tags that go out of memory for it are written first, where they were changed. So nothing is
    /// written where no tag is still to be.
    ///
    /// # Errors
    ///
    /// - `Failed`: the disk failed. The store gives what it gave before, and what was not written is still to be.
    pub fn get<D: Disk>(&mut self, disk: &mut D, block: u64) -> Result<Tag, Failed>
        requires block { block < self.old.geometry.blocks }
        requires store { IsStore self.old (D.identity disk.old) (D.moments disk.old) }

        ensures tag { IfOk result (λ tag. HasNow (λ c. tag ≡ given_tags self.old c block)
            (D.moments disk.old)) }

        ensures cause { HasCause (D.faults disk.old) (D.faults disk.new) result }

        ensures store { IsStore self.new (D.identity disk.new) (D.moments disk.new) }
        ensures keeps { KeepsStore self.old self.new (D.moments disk.old) (D.moments disk.new) }
        ensures identity { D.identity disk.new ≡ D.identity disk.old }

        ensures moments { EachSince (OnlyAdds (IsOutForTag block self.old))
            (D.moments disk.old) (D.moments disk.new) }
        ensures unwritten { HasNoMark self.old.sectors → D.moments disk.new ≡ D.moments disk.old }
    {
        let at = self.geometry.tag_at(block);
        let size = self.geometry.shape().tag as usize;
        let mut bytes = [0; 32];
        read_span(
            disk,
            &mut self.cache,
            at.sector,
            at.byte as usize,
            &mut bytes[..size],
        )?;
        Ok(Tag::from_bytes(&bytes[..size]))
    }

    /// Puts the tag of a block. It is not written yet.
    ///
    /// The sectors of tags that go out of memory for it are written first, where they were changed.
    ///
    /// # Errors
    ///
    /// - `Failed`: the disk failed. Of a tag that stands in two sectors the part in the first may have been put, and
    ///   all else is as before.
    pub fn put<D: Disk>(&mut self, disk: &mut D, block: u64, tag: &Tag) -> Result<(), Failed>
        requires block { block < self.old.geometry.blocks }
        requires size { length tag.now ≡ self.old.geometry.shape.tag_size }
        requires store { IsStore self.old (D.identity disk.old) (D.moments disk.old) }

        ensures stored { OnOk result (StoresTag block tag.now self.old self.new
            (D.moments disk.old) (D.moments disk.new)) }

        ensures cause { HasCause (D.faults disk.old) (D.faults disk.new) result }
        ensures err { OnErr result (StoresFirst block tag.now self.old self.new
            (D.moments disk.old) (D.moments disk.new)) }

        ensures store { IsStore self.new (D.identity disk.new) (D.moments disk.new) }
        ensures keeps { KeepsButTag block self.old self.new }
        ensures identity { D.identity disk.new ≡ D.identity disk.old }

        ensures moments { EachSince (λ start. OnlyAdds (IsOfPut block tag.now self.old start) start)
            (D.moments disk.old) (D.moments disk.new) }
    {
        let at = self.geometry.tag_at(block);
        write_span(
            disk,
            &mut self.cache,
            at.sector,
            at.byte as usize,
            tag.bytes(),
        )
    }

    /// Reads the bytes of a block, by one call of the disk.
    ///
    /// # Errors
    ///
    /// - `Failed`: the disk failed. Then what is left in the buffer is open.
    pub fn read_block<D: Disk>(
        &self,
        disk: &mut D,
        block: u64,
        out: &mut [u8],
    ) -> Result<(), Failed>
        requires block { block < self.now.geometry.blocks }
        requires size { length out.old ≡ 512 * self.now.geometry.shape.spb }
        requires store { IsStore self.now (D.identity disk.old) (D.moments disk.old) }

        ensures read { OnOk result (HasNow (Reads (data_at self.now.geometry block) out.new)
            (D.moments disk.old)) }

        ensures cause { HasCause (D.faults disk.old) (D.faults disk.new) result }

        ensures store { IsStore self.now (D.identity disk.new) (D.moments disk.new) }
        ensures identity { D.identity disk.new ≡ D.identity disk.old }
        ensures kept { D.moments disk.new ≡ D.moments disk.old }
    {
        disk.read_run(self.geometry.data_at(block), out)
    }

    /// Writes the bytes of a block, by one call of the disk.
    ///
    /// # Errors
    ///
    /// - `Failed`: the disk failed. Any of the block's sectors may have got its bytes as a candidate.
    pub fn write_block<D: Disk>(&self, disk: &mut D, block: u64, bytes: &[u8]) -> Result<(), Failed>
        requires block { block < self.now.geometry.blocks }
        requires size { length bytes.now ≡ 512 * self.now.geometry.shape.spb }
        requires store { IsStore self.now (D.identity disk.old) (D.moments disk.old) }

        ensures written { OnOk result (IsChangedBy (with_run (data_at self.now.geometry block) bytes.now)
            (D.moments disk.old) (D.moments disk.new)) }

        ensures cause { HasCause (D.faults disk.old) (D.faults disk.new) result }

        ensures store { IsStore self.now (D.identity disk.new) (D.moments disk.new) }
        ensures tags { KeepsTags self.now (D.moments disk.old) (D.moments disk.new) }
        ensures identity { D.identity disk.new ≡ D.identity disk.old }
        ensures unread { D.reads disk.new ≡ D.reads disk.old }

        ensures moments { EachSince (AddsSome (data_at self.now.geometry block) bytes.now)
            (D.moments disk.old) (D.moments disk.new) }
    {
        disk.write_run(self.geometry.data_at(block), bytes)
    }

    /// Writes the tags that were put and are not written yet. Nothing is synced.
    ///
    /// # Errors
    ///
    /// - `Failed`: the disk failed. The store gives what it gave before, and what was not written is still to be.
    pub fn write_back<D: Disk>(&mut self, disk: &mut D) -> Result<(), Failed>
        requires store { IsStore self.old (D.identity disk.old) (D.moments disk.old) }

        ensures written { OnOk result (IsChangedBy (written_back self.old.sectors)
            (D.moments disk.old) (D.moments disk.new)) }
        ensures unmarked { OnOk result (IsWrittenBack self.old.sectors self.new.sectors
            (D.moments disk.old) (D.moments disk.new)) }

        ensures cause { HasCause (D.faults disk.old) (D.faults disk.new) result }

        ensures store { IsStore self.new (D.identity disk.new) (D.moments disk.new) }
        ensures keeps { KeepsStore self.old self.new (D.moments disk.old) (D.moments disk.new) }
        ensures identity { D.identity disk.new ≡ D.identity disk.old }
        ensures unread { D.reads disk.new ≡ D.reads disk.old }

        ensures moments { EachSince (IsAmidWriteBack self.old.sectors)
            (D.moments disk.old) (D.moments disk.new) }
        ensures unwritten { HasNoMark self.old.sectors → D.moments disk.new ≡ D.moments disk.old }
    {
        self.cache.write_back(disk)
    }
}
