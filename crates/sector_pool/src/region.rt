//! A region of memory.
ghost use Rattle.std.specs.Prelude.{◌≡◌, ◌*◌, [], length, replicate, OnOk, OnErr};

use crate::run::Run;
use disk_model::{Memory, SECTOR_SIZE};
use std::alloc::Global;
use std::marker::Model;

/// Memory for sectors, none at first. All of it is handed out as one run.
#[derive(Drop)]
pub struct Region {
    memory: Option<Vec<u8>>,
}

impl Model for Region {
    ghost use Rattle.std.specs.Prelude.{List, ℕ};

    ghost Value = { List ℕ };

    ghost use Rattle.sector_pool.specs.Region.{bytes_of, HasWholeSectors};

    ghost view = { λ region. bytes_of region.memory };

    ghost invariant = { λ region. HasWholeSectors region.memory };
}

impl Region {
    /// A region of no sectors. It takes no memory.
    pub fn new() -> Region
        ensures { result ≡ [] }
    {
        Region { memory: None }
    }

    /// Gives the region this many sectors of zeros, in place of those that it had.
    ///
    /// # Errors
    ///
    /// - `Memory`: there is none for so many. The region is as it was.
    pub fn reserve(&mut self, alloc: Global, sectors: u64) -> Result<(), Memory>
        ensures sectors { OnOk result (self.new ≡ replicate (sectors * 512) 0) }

        ensures err { OnErr result (self.new ≡ self.old) }
    {
        if sectors > u64::MAX / SECTOR_SIZE as u64 {
            return Err(Memory);
        }
        let memory = Vec::from_elem(alloc, 0u8, (sectors * SECTOR_SIZE as u64) as usize)?;
        self.memory = Some(memory);
        Ok(())
    }

    /// All of the region's sectors. It copies nothing.
    pub fn whole(&mut self) -> Run<'_>
        ensures place { result.place ≡ 0 }
        ensures bytes { result.bytes ≡ self.old }
    {
        match &mut self.memory {
            Some(memory) => Run::over(memory.as_mut_slice()),
            None => Run::over(&mut []),
        }
    }
}
