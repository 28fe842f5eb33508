//! What the sectors of a journal show, one after the other: how many bear each number, where each
//! first stands, and which is the first without one.

ghost use Rattle.std.specs.Prelude.{◌≡◌, ℕ, ◌+◌, ◌*◌, ◌^◌, ◌<◌, slice_index, None};
ghost use Rattle.image_model.specs.Scan.{Grid as Journal, IsGrid, blank_number, cell_at, cell_number, found_in};
ghost use Rattle.commit_id.specs.Grid.{as_grid};
ghost use Rattle.commit_id.specs.Tally.{AddsNumber, IsPlace, IsTally, TellsUnnumbered};

use crate::grid::Grid;
use image_model::{Cell, ScanFault, SectorPlace};

/// What the first sectors of a journal show.
#[derive(Drop)]
pub(crate) struct Tally {
    /// How many of them bear each number.
    pub(crate) counts: [u64; 4],
    /// The section and the sector of the first that bears each number, where one does.
    pub(crate) firsts: [SectorPlace; 4],
    /// How many are zero ones among the bitmap's.
    pub(crate) blanks: u64,
    /// The first that bears no number.
    pub(crate) unnumbered: Option<ScanFault>,
}

impl Tally {
    /// The tally of no sector.
    pub(crate) fn new() -> Tally
        ensures { (grid : Grid) → IsTally (as_grid grid) 0 result }
    {
        Tally {
            counts: [0; 4],
            firsts: [SectorPlace {
                section: 0,
                sector: 0,
            }; 4],
            blanks: 0,
            unnumbered: None,
        }
    }

    /// The number of a blank journal, where this is the tally of one.
    pub(crate) fn blank_number(&self, grid: &Grid) -> Option<u8>
        requires grid { IsGrid (as_grid grid.now) }
        requires whole { IsTally (as_grid grid.now)
            (grid.now.sections * grid.now.sectors) self.now }

        ensures { result ≡ blank_number (as_grid grid.now) }
    {
        if self.blanks == 0 || grid.used_outside {
            return None;
        }
        let sectors = grid.cells.len() as u64;
        for number in 0..4 {
            if self.blanks + self.counts[number] == sectors {
                return Some(number as u8);
            }
        }
        None
    }

    /// Adds the next sector of the grid.
    pub(crate) fn add(&mut self, grid: &Grid, section: u64, sector: u64)
        requires grid { IsGrid (as_grid grid.now) }
        requires section { section < grid.now.sections }
        requires sector { sector < grid.now.sectors }
        requires next { IsTally (as_grid grid.now)
            (section * grid.now.sectors + sector) self.old }

        ensures { IsTally (as_grid grid.now)
            (section * grid.now.sectors + sector + 1) self.new }
    {
        let k = section * grid.sectors + sector;
        match grid.cells[k as usize] {
            Cell::Number(number) => self.add_number(section, sector, number),
            Cell::Zero => {
                self.blanks += u64::from(k < grid.bitmap);
                self.add_unnumbered(section, sector, 0);
            }
            Cell::Other(found) => self.add_unnumbered(section, sector, found),
        }
    }

    /// Adds a sector that bears `number`.
    fn add_number(&mut self, section: u64, sector: u64, number: u8)
        requires number { number < 4 }
        requires room { slice_index self.old.counts number < 2 ^ 63 }

        ensures { AddsNumber section sector number self.old self.new }
    {
        let count = self.counts[number as usize];
        if count == 0 {
            self.firsts[number as usize] = SectorPlace { section, sector };
        }
        self.counts[number as usize] = count + 1;
    }

    /// Adds a sector that bears no number, but has the id `found`.
    fn add_unnumbered(&mut self, section: u64, sector: u64, found: u64)
        ensures unnumbered { (grid : Journal) (k : ℕ) → IsPlace grid k section sector
            → cell_number (cell_at grid k) ≡ None → found ≡ found_in (cell_at grid k)
            → TellsUnnumbered grid k self.old.unnumbered
            → TellsUnnumbered grid (k + 1) self.new.unnumbered }
        ensures others { self.new ≡ record self.old { unnumbered = self.new.unnumbered } }
    {
        let fault = ScanFault::NoNumber {
            section,
            sector,
            found,
        };
        self.unnumbered = self.unnumbered.or(Some(fault));
    }
}
