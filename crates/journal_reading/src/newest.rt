//! Which entry of a journal is the newest of each block.
ghost use Rattle.std.specs.Prelude.{◌≡◌, ◌==◌, ℕ, None, OnOk, Some, if◌then◌else◌};
ghost use Rattle.journal_reading.specs.Newest.{newest_in};

use sector_disk::Memory;
use std::alloc::Global;
use std::collections::HashMap;
use std::marker::Model;

/// Of each block that has an entry its newest one, by its number among the entries that count, from 0 on. What they
/// take grows with the blocks that have one.
#[derive(Drop)]
pub struct NewestEntries {
    by_block: HashMap<u64, u64>,
}

impl Model for NewestEntries {
    ghost use Rattle.std.specs.Prelude.{List, ℕ};

    ghost Value = { List (ℕ × ℕ) };

    ghost view = { λ n. n.by_block.entries };
}

impl NewestEntries {
    /// None. It takes no memory.
    pub(crate) fn new(alloc: Global) -> NewestEntries
        ensures { (b : ℕ) → newest_in result b ≡ None }
    {
        NewestEntries {
            by_block: HashMap::new(alloc),
        }
    }

    /// The number of the newest entry of a block, if it has one.
    pub fn newest(&self, block: u64) -> Option<u64>
        ensures { result ≡ newest_in self.now block }
    {
        self.by_block.get(&block).copied()
    }

    /// Makes the entry of this number the newest of a block.
    ///
    /// # Errors
    ///
    /// - `Memory`: there is none for one block more.
    pub(crate) fn put(&mut self, block: u64, number: u64) -> Result<(), Memory>
        ensures { OnOk result ((b : ℕ) → newest_in self.new b
            ≡ (if b == block then Some number else newest_in self.old b)) }
    {
        match self.by_block.insert(block, number) {
            Ok(_) => Ok(()),
            Err(_) => Err(Memory),
        }
    }
}
