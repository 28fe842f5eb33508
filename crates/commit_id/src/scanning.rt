//! The scan of a journal: its plan, or why it is refused.
ghost use Rattle.std.specs.Prelude.{◌≡◌, ◌*◌, Ok, Err, IfErr, IfOk};
ghost use Rattle.image_model.specs.Scan.{IsGrid, walk_of_grid};
ghost use Rattle.commit_id.specs.Grid.{as_grid};
ghost use Rattle.commit_id.specs.Spread.{IsSpread};
ghost use Rattle.commit_id.specs.Tally.{IsTally};

use crate::grid::Grid;
use crate::plan::blank_plan;
use crate::spread::Spread;
use crate::tally::Tally;
use image_model::{Plan, ScanFault};

/// The plan of the journal that the grid shows. It passes over the grid once, and takes no memory.
///
/// Own: the order of the sections, the states and the refusals.
///
/// # Errors
///
/// - `NoNumber`: a sector bears no number, and the journal is not blank.
/// - `FourNumbers`: all four numbers stand.
pub fn scan(grid: &Grid) -> Result<Plan, ScanFault>
    requires { IsGrid (as_grid grid.now) }

    ensures plan { IfOk result (λ plan.
        walk_of_grid (as_grid grid.now) ≡ Ok plan) }
    ensures fault { IfErr result (λ fault.
        walk_of_grid (as_grid grid.now) ≡ Err fault) }
{
    let (tally, spread) = survey(grid);
    if let Some(number) = tally.blank_number(grid) {
        return Ok(blank_plan(number));
    }
    if let Some(fault) = tally.unnumbered {
        return Err(fault);
    }
    match spread.newest() {
        Some(newest) => Ok(spread.plan(grid.sections, newest)),
        None => Err(ScanFault::FourNumbers {
            places: tally.firsts,
        }),
    }
}

/// The tally of all sectors of a grid, and the spread over all its sections.
fn survey(grid: &Grid) -> (Tally, Spread)
    requires grid { IsGrid (as_grid grid.now) }

    ensures tally { IsTally (as_grid grid.now) (grid.now.sections * grid.now.sectors) result.0 }
    ensures spread { IsSpread (as_grid grid.now) grid.now.sections result.1 }
{
    let mut tally = Tally::new();
    let mut spread = Spread::new();
    for section in 0..grid.sections {
        let before = tally.counts;
        for sector in 0..grid.sectors {
            tally.add(grid, section, sector);
        }
        spread.add(section, grid.sectors, &before, &tally.counts);
    }
    (tally, spread)
}
