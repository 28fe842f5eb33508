//! Which sectors of a journal bear its newest number.
ghost use Rattle.std.specs.Prelude.{◌≡◌, ◌<◌, length, slice_index_or};
ghost use Rattle.image_model.specs.Scan.{cell_number};
ghost use Rattle.image_model.specs.Walk.{bears};
ghost use Rattle.image_model.specs.declared.sector_cell.Cell.TheVariants.{Zero};
ghost use Rattle.journal_erasure.specs.Newest.{HasSector, is_newest};

use image_model::Cell;

/// Which sectors of a journal bear its newest number, counted from its first sector on.
#[derive(Clone, Copy, Debug)]
pub enum NewestSectors<'g> {
    /// Those whose cell has this number: a scan has seen a cell for each, section by section.
    Scanned {
        /// The cells.
        cells: &'g [Cell],
        /// The newest number.
        number: u8,
    },
    /// The first ones, so many: the journal is at rest.
    First {
        /// How many.
        count: u64,
    },
}

impl NewestSectors<'_> {
    /// Whether sector `k` of the journal bears the newest number.
    pub(crate) fn is_newest(&self, k: u64) -> bool
        requires { HasSector self.now k }

        ensures { result ≡ is_newest self.now k }
    {
        match self {
            NewestSectors::Scanned { cells, number } => has_number(cells, k, *number),
            NewestSectors::First { count } => k < *count,
        }
    }
}

/// Whether the cell of sector `k` has the number.
fn has_number(cells: &[Cell], k: u64, number: u8) -> bool
    requires { k < length cells.now }

    ensures { result ≡ bears (cell_number (slice_index_or cells.now k Zero)) number }
{
    match cells[k as usize] {
        Cell::Number(found) => found == number,
        _ => false,
    }
}
