//! A disk of which no sync is made, and whose writes can be left out too.
ghost use Rattle.std.specs.Prelude.{◌≡◌, ⊤, []};
ghost use Rattle.std.proofs.Common.{ap};
ghost use Rattle.std.proofs.lemmas.Option.{none-some};
ghost use Rattle.disk_model.specs.Identity.{NamedDisk};

use sector_disk::{Counted, Disk, Failed, Named};

/// A disk that hands reads on, and writes where they are wanted, but no sync. It tells nothing of its content.
#[derive(Drop)]
pub struct Unsynced<D: Disk + Drop> {
    disk: D,
    /// Whether writes are handed on.
    writes: bool,
}

impl<D: Disk + Drop> Unsynced<D> {
    /// Leaves out the syncs of a disk, and its writes where they are not wanted.
    pub fn new(disk: D, writes: bool) -> Unsynced<D>
        ensures { result ≡ record { disk = disk; writes = writes } }
    {
        Unsynced { disk, writes }
    }
}

impl<D: Disk + Drop> Counted for Unsynced<D> {
    ghost faults = { λ d. D.faults d.disk };
}

impl<D: Disk + Drop> Named for Unsynced<D> {
    ghost binding = { λ d. D.binding d.disk };

    ghost tells_same = { λ name a b. ⊤ };

    fn bind(&mut self, name: &str) -> Result<(), Failed> {
        self.disk.bind(name)
    }
}

impl<D: Disk + Drop> Disk for Unsynced<D> {
    ghost identity = { λ d. D.identity d.disk };

    ghost moments = { λ d. [] };

    ghost reads = { λ d. D.reads d.disk };

    ghost named = { λ d name. record { sectors = (D.named d.disk name).sectors; moments = [] } };

    fn sectors(&self) -> u64 {
        self.disk.sectors()
    }

    fn read_run(&mut self, at: u64, buffer: &mut [u8]) -> Result<(), Failed> {
        self.disk.read_run(at, buffer)
    }

    fn write_run(&mut self, at: u64, bytes: &[u8]) -> Result<(), Failed> {
        if self.writes {
            self.disk.write_run(at, bytes)
        } else {
            Ok(())
        }
    }

    fn sync(&mut self) -> Result<(), Failed> {
        Ok(())
    }

    ghost reads_an_image = { λ disk c told. absurd (none-some c told) };

    ghost whole_sectors = { λ disk c sector x told low has. absurd (none-some c told) };

    ghost identity_name = { λ disk. D.identity_name disk.disk };

    ghost named_if_bound = { λ disk name bound.
        ap (λ (n : NamedDisk). let m : NamedDisk = record { sectors = n.sectors; moments = [] } in m)
        (D.named_if_bound disk.disk name bound) };

    ghost same_named = { λ name a b c same told. absurd (none-some c told) };
}
