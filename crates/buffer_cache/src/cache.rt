//! The cache.
ghost use Rattle.std.specs.Prelude.{◌≡◌, ◌+◌, ◌≤◌, length, vec_capacity, IfOk, OnErr, OnOk};
ghost use Rattle.disk_model.specs.Causes.{HasCause};
ghost use Rattle.disk_model.specs.Disk.{OnlyAdds};
ghost use Rattle.disk_model.specs.Identity.{IsBound};
ghost use Rattle.disk_model.specs.Moments.{EachSince, HasNow, IsChangedBy};
ghost use Rattle.buffer_cache.specs.Cached.{Changes, HasNoMark, IsAmidWriteBack, IsOfDisk, IsPiece, IsPutOut, IsWrittenBack, Keeps, cached, piece_of, written_back};
ghost use Rattle.buffer_cache.specs.HeldSectors.{HoldsAlso, HoldsNoMore, no_sectors};

use crate::HeldSectors;
use crate::bringing::bring;
use crate::copying::copy_piece;
use crate::written_back::{list_marked, write_each};
use lru::LruCache;
use sector_disk::{Disk, Failed, Memory};
use std::alloc::Global;
use std::num::NonZeroUsize;

/// A cache of sectors of a disk, bounded in memory.
///
/// All its calls are over one disk, of which nobody else writes a sector that it holds. After `new` it asks for memory
/// only where another sector comes in, and goes on by a buffer of its own where there is none.
#[derive(Drop)]
pub struct Cache {
    sectors: HeldSectors,
    // Room for a list of all sectors that are held.
    ascending: Vec<u64>,
    ghost room: { sectors.recent.cap + 1 ≤ vec_capacity ascending },
}

impl Cache {
    ghost use Rattle.buffer_cache.specs.Cache.{sectors_of};

    /// Makes a cache for so many sectors, 1 to 65536, that holds none.
    ///
    /// # Errors
    ///
    /// - `Memory`: there is none for it.
    pub fn new(alloc: Global, slots: u64) -> Result<Cache, Memory>
        requires low { 1 ≤ slots }
        requires high { slots ≤ 65536 }

        ensures { IfOk result (λ cache. sectors_of cache ≡ no_sectors slots) }
    {
        let cap = NonZeroUsize::new(slots as usize).unwrap();
        let recent = LruCache::new(alloc, cap)?;
        let ascending = Vec::with_capacity(alloc, slots as usize + 1)?;
        Ok(Cache {
            sectors: HeldSectors {
                recent,
                scratch: None,
            },
            ascending,
        })
    }

    /// Reads a piece of sector `at`, which begins at byte `from` of it.
    ///
    /// The least recently used sector may go out for it, and is written first where it is marked. So nothing is written
    /// where no sector is marked.
    ///
    /// # Errors
    ///
    /// - `Failed`: the disk failed. The cache gives what it gave before, and what was not written is still marked.
    pub fn read_at<D: Disk>(
        &mut self,
        disk: &mut D,
        at: u64,
        from: usize,
        out: &mut [u8],
    ) -> Result<(), Failed>
        requires bound { IsBound (D.identity disk.old).name }
        requires piece { IsPiece at from (length out.old) (D.identity disk.old).sectors }
        requires cache { IsOfDisk (sectors_of self.old) (D.identity disk.old) (D.moments disk.old) }

        ensures read { OnOk result (HasNow (λ c. out.new
            ≡ piece_of from (length out.old) (cached (sectors_of self.old) c at)) (D.moments disk.old)) }

        ensures cause { HasCause (D.faults disk.old) (D.faults disk.new) result }

        ensures cache { IsOfDisk (sectors_of self.new) (D.identity disk.new) (D.moments disk.new) }
        ensures keeps { Keeps (sectors_of self.old) (sectors_of self.new)
            (D.moments disk.old) (D.moments disk.new) }
        ensures held { HoldsAlso at (sectors_of self.old) (sectors_of self.new) }
        ensures identity { D.identity disk.new ≡ D.identity disk.old }

        ensures moments { EachSince (OnlyAdds (IsPutOut at (sectors_of self.old)))
            (D.moments disk.old) (D.moments disk.new) }
        ensures unwritten { HasNoMark (sectors_of self.old) → D.moments disk.new ≡ D.moments disk.old }
    {
        bring(disk, &mut self.sectors, at)?;
        copy_piece(&self.sectors, at, from, out);
        Ok(())
    }

    /// Changes a piece of sector `at`, which begins at byte `from` of it, and marks the sector.
    ///
    /// It is not written yet. The least recently used sector may go out for it, as in `read_at`.
    ///
    /// # Errors
    ///
    /// - `Failed`: the disk failed. The cache gives what it gave before, and what was not written is still marked.
    pub fn write_at<D: Disk>(
        &mut self,
        disk: &mut D,
        at: u64,
        from: usize,
        bytes: &[u8],
    ) -> Result<(), Failed>
        requires bound { IsBound (D.identity disk.old).name }
        requires piece { IsPiece at from (length bytes.now) (D.identity disk.old).sectors }
        requires cache { IsOfDisk (sectors_of self.old) (D.identity disk.old) (D.moments disk.old) }

        ensures written { OnOk result (Changes at from bytes.now
            (sectors_of self.old) (sectors_of self.new) (D.moments disk.old) (D.moments disk.new)) }

        ensures cause { HasCause (D.faults disk.old) (D.faults disk.new) result }
        ensures err { OnErr result (Keeps (sectors_of self.old) (sectors_of self.new)
            (D.moments disk.old) (D.moments disk.new)) }

        ensures cache { IsOfDisk (sectors_of self.new) (D.identity disk.new) (D.moments disk.new) }
        ensures held { HoldsAlso at (sectors_of self.old) (sectors_of self.new) }
        ensures identity { D.identity disk.new ≡ D.identity disk.old }

        ensures moments { EachSince (OnlyAdds (IsPutOut at (sectors_of self.old)))
            (D.moments disk.old) (D.moments disk.new) }
    {
        bring(disk, &mut self.sectors, at)?;
        self.sectors.put_piece(at, from, bytes);
        Ok(())
    }

    /// Writes each marked sector, in ascending order, and no other one. Nothing is synced.
    ///
    /// # Errors
    ///
    /// - `Failed`: the disk failed. The cache gives what it gave before, and what was not written is still marked.
    pub fn write_back<D: Disk>(&mut self, disk: &mut D) -> Result<(), Failed>
        requires bound { IsBound (D.identity disk.old).name }
        requires cache { IsOfDisk (sectors_of self.old) (D.identity disk.old) (D.moments disk.old) }

        ensures written { OnOk result (IsChangedBy (written_back (sectors_of self.old))
            (D.moments disk.old) (D.moments disk.new)) }
        ensures unmarked { OnOk result (IsWrittenBack (sectors_of self.old) (sectors_of self.new)
            (D.moments disk.old) (D.moments disk.new)) }

        ensures cause { HasCause (D.faults disk.old) (D.faults disk.new) result }

        ensures cache { IsOfDisk (sectors_of self.new) (D.identity disk.new) (D.moments disk.new) }
        ensures keeps { Keeps (sectors_of self.old) (sectors_of self.new)
            (D.moments disk.old) (D.moments disk.new) }
        ensures held { HoldsNoMore (sectors_of self.old) (sectors_of self.new) }
        ensures identity { D.identity disk.new ≡ D.identity disk.old }
        ensures unread { D.reads disk.new ≡ D.reads disk.old }

        ensures moments { EachSince (IsAmidWriteBack (sectors_of self.old))
            (D.moments disk.old) (D.moments disk.new) }
        ensures unwritten { HasNoMark (sectors_of self.old) → D.moments disk.new ≡ D.moments disk.old }
    {
        list_marked(&self.sectors, &mut self.ascending);
        write_each(disk, &mut self.sectors, &self.ascending)
    }
}
