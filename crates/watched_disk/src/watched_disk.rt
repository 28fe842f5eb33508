//! A disk under a watcher.
ghost use Rattle.std.specs.Prelude.{◌≡◌};

use crate::Watcher;
use sector_disk::{Counted, Disk, Failed, Named};

/// A disk whose calls are reported to a watcher, once each is done.
#[derive(Drop)]
pub struct WatchedDisk<D: Disk + Drop, W: Watcher + Drop> {
    disk: D,
    watcher: W,
}

impl<D: Disk + Drop, W: Watcher + Drop> WatchedDisk<D, W> {
    /// Puts a disk under a watcher. It calls neither.
    pub fn new(disk: D, watcher: W) -> WatchedDisk<D, W>
        ensures { result ≡ record { disk = disk; watcher = watcher } }
    {
        WatchedDisk { disk, watcher }
    }

    /// The disk under the watcher.
    pub fn disk(&self) -> &D
        ensures { result.now ≡ self.now.disk }
    {
        &self.disk
    }

    /// The watcher, as it is after the calls so far.
    pub fn watcher(&self) -> &W
        ensures { result.now ≡ self.now.watcher }
    {
        &self.watcher
    }
}

impl<D: Disk + Drop, W: Watcher + Drop> Counted for WatchedDisk<D, W> {
    ghost faults = { λ watched. D.faults watched.disk };
}

impl<D: Disk + Drop, W: Watcher + Drop> Named for WatchedDisk<D, W> {
    ghost binding = { λ watched. D.binding watched.disk };

    ghost tells_same = { λ name a b. D.tells_same name a.disk b.disk };

    fn bind(&mut self, name: &str) -> Result<(), Failed> {
        self.disk.bind(name)?;
        self.watcher.has_bound(self.disk.sectors());
        Ok(())
    }

    fn bind_to_read(&mut self, name: &str) -> Result<(), Failed> {
        self.disk.bind_to_read(name)?;
        self.watcher.has_bound(self.disk.sectors());
        Ok(())
    }
}

impl<D: Disk + Drop, W: Watcher + Drop> Disk for WatchedDisk<D, W> {
    ghost identity = { λ watched. D.identity watched.disk };

    ghost moments = { λ watched. D.moments watched.disk };

    ghost reads = { λ d. D.reads d.disk };

    ghost named = { λ watched name. D.named watched.disk name };

    fn sectors(&self) -> u64 {
        self.disk.sectors()
    }

    fn read_run(&mut self, at: u64, buffer: &mut [u8]) -> Result<(), Failed> {
        self.disk.read_run(at, buffer)?;
        self.watcher.has_read(at, buffer);
        Ok(())
    }

    fn write_run(&mut self, at: u64, bytes: &[u8]) -> Result<(), Failed> {
        self.disk.write_run(at, bytes)?;
        self.watcher.has_written(at, bytes);
        Ok(())
    }

    fn sync(&mut self) -> Result<(), Failed> {
        self.disk.sync()?;
        self.watcher.has_synced();
        Ok(())
    }

    ghost reads_an_image = { λ watched c told. D.reads_an_image watched.disk c told };

    ghost whole_sectors = { λ watched c sector x told low has. D.whole_sectors watched.disk c sector x told low has };

    ghost identity_name = { λ watched. D.identity_name watched.disk };

    ghost named_if_bound = { λ watched name bound. D.named_if_bound watched.disk name bound };

    ghost same_named = { λ name a b c same told. D.same_named name a.disk b.disk c same told };
}
