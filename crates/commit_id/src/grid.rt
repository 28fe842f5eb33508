//! A journal as the scan sees it: what each of its sectors bears.

use image_model::Cell;

/// A journal as the scan sees it.
#[derive(Debug, Drop)]
pub struct Grid {
    /// The sections of the journal.
    pub sections: u64,
    /// The sectors of each section.
    pub sectors: u64,
    /// A cell for each sector, section by section.
    pub cells: Vec<Cell>,
    /// How many sectors, from the first of the journal on, a bitmap would take.
    pub bitmap: u64,
    /// Whether a used entry stands elsewhere than in the zero ones among the bitmap's sectors.
    pub used_outside: bool,
}
