//! Shapes, ids and scans that were worked out by hand, and journals that the Linux kernel left.
ghost use Rattle.std.specs.Prelude.{◌≡◌, ℕ, ◌<◌, IfOk, IsTrue, Some};
ghost use Rattle.image_model.specs.Scan.{IsGrid, cell_number};
ghost use Rattle.commit_id.specs.Grid.{as_grid};

use commit_id::{Cell, Grid, Plan, ScanFault, Shape, State, id, number_of, scan};
use std::alloc::Global;
use std::process::Abort;
use std::test::Fail;

/// Cells in a row, so many times.
type Run<'a> = (u64, &'a [Cell]);

const ZERO: &[Cell] = &[Cell::Zero];

const N0: &[Cell] = &[Cell::Number(0)];

const N1: &[Cell] = &[Cell::Number(1)];

const N2: &[Cell] = &[Cell::Number(2)];

const N3: &[Cell] = &[Cell::Number(3)];

/// Whether a cell has none but a commit number.
fn is_cell(cell: Cell) -> bool
    ensures { IsTrue result → (number : ℕ) → cell_number cell ≡ Some number → number < 4 }
{
    match cell {
        Cell::Number(number) => number < 4,
        _ => true,
    }
}

/// Whether the fields of a grid agree.
fn is_grid(grid: &Grid) -> bool
    ensures { IsTrue result → IsGrid (as_grid grid.now) }
{
    let sectors = grid.cells.len() as u64;
    for cell in &grid.cells {
        if !is_cell(*cell) {
            return false;
        }
    }
    grid.sections > 0
        && grid.sectors > 0
        && grid.bitmap <= sectors
        && grid.sections.checked_mul(grid.sectors) == Some(sectors)
}

/// The grid of a journal whose sectors bear these runs, and of which a bitmap would take so many. `used_outside` tells
/// whether an entry is used outside blank ones.
fn grid_of(
    alloc: Global,
    sections: u64,
    sectors: u64,
    runs: &[Run],
    bitmap: u64,
    used_outside: bool,
) -> Result<Grid, Fail>
    ensures { IfOk result (λ grid. IsGrid (as_grid grid)) }
{
    let mut cells = Vec::new(alloc);
    for (times, pattern) in runs {
        for _ in 0..*times {
            for cell in *pattern {
                cells.push(*cell)?;
            }
        }
    }
    let grid = Grid {
        sections,
        sectors,
        cells,
        bitmap,
        used_outside,
    };
    if is_grid(&grid) {
        Ok(grid)
    } else {
        Err(Fail::from("the runs make no grid"))
    }
}

#[test]
fn shapes_are_those_of_the_layout(rt: HostRuntime) {
    // Blocks of 1, 1 and 8 sectors, tags of 32, 20 and 32 bytes.
    for (log2_spb, tag, entry, per_sector, entries, sectors) in [
        (0, 32, 48, 10, 80, 88),
        (0, 20, 40, 12, 96, 104),
        (3, 32, 104, 4, 32, 264),
    ] {
        let shape = Shape {
            spb: 1 << log2_spb,
            tag: tag as u64,
            entry,
            per_sector,
            entries,
            sectors,
        };
        assert_eq!(rt; Shape::of(log2_spb, tag), shape, "tag {tag}");
    }
}

#[test]
fn ids_tell_their_place_and_their_number(rt: HostRuntime) {
    assert_eq!(rt; id(1, 5, 2), 0x3333_3332_3333_3336);
    assert_eq!(rt;
        id(1, 5, 2).to_le_bytes(),
        *b"\x36\x33\x33\x33\x32\x33\x33\x33"
    );
    // Sector 16 of the small image under the numbers 1 and 3: sector 8 of section 0.
    assert_eq!(rt;
        id(0, 8, 1).to_le_bytes(),
        *b"\x2a\x22\x22\x22\x22\x22\x22\x22"
    );
    assert_eq!(rt;
        id(0, 8, 3).to_le_bytes(),
        *b"\x4c\x44\x44\x44\x44\x44\x44\x44"
    );
    assert_eq!(rt; number_of(1, 5, 0x3333_3332_3333_3336), Some(2));
    assert_eq!(rt; number_of(1, 4, 0x3333_3332_3333_3336), None);
    assert_eq!(rt; number_of(1, 5, 0), None);
}

/// Expects what the scan answers of a journal whose sectors bear these runs, and of which none would be a bitmap's.
fn expect_scan(
    rt: &impl Abort,
    alloc: Global,
    (sections, sectors): (u64, u64),
    runs: &[Run],
    state: State,
    walk: [(u64, u64); 2],
) -> Result<(), Fail> {
    let grid = grid_of(alloc, sections, sectors, runs, 0, false)?;
    assert_eq!(rt;
        scan(&grid),
        Ok(Plan { state, walk }),
        "{sections} sections of {sectors}, {runs:?}"
    );
    Ok(())
}

#[test]
fn journals_of_the_kernel_are_walked(rt: HostRuntime) -> Result<(), Fail> {
    let rows: [(&[Run], State, [(u64, u64); 2]); 3] = [
        // Three commits, none of them placed.
        (
            &[(264, N1), (88, N0)],
            State::Rest { next: 3, number: 1 },
            [(3, 4), (0, 3)],
        ),
        // A fifth commit, to section 0 in the second lap.
        (
            &[(88, N2), (264, N1)],
            State::Rest { next: 1, number: 2 },
            [(1, 4), (0, 1)],
        ),
        // A commit in the third lap, of which every second sector was written.
        (
            &[
                (88, N3),
                (44, &[Cell::Number(2), Cell::Number(3)]),
                (176, N2),
            ],
            State::Mixed { newest: 3 },
            [(2, 4), (0, 1)],
        ),
    ];
    for (runs, state, walk) in rows {
        expect_scan(&rt, rt.alloc(), (4, 88), runs, state, walk)?;
    }
    Ok(())
}

#[test]
fn zero_sectors_are_blank_among_those_of_a_bitmap(rt: HostRuntime) -> Result<(), Fail> {
    // The runs, how many sectors a bitmap would take, whether an entry is used outside, and the number where all is
    // blank.
    let rows: [(&[Run], u64, bool, Option<u8>); 7] = [
        // A change to a bitmap of 8 sectors, cut after three of them.
        (&[(3, ZERO), (85, N3)], 8, false, Some(3)),
        // A change to a journal, cut before the bitmap's sectors are written.
        (&[(8, ZERO), (80, N0)], 8, false, Some(0)),
        // A bitmap that takes the whole journal.
        (&[(88, ZERO)], 88, false, Some(0)),
        (&[(3, ZERO), (85, N3)], 8, true, None),
        (&[(9, ZERO), (79, N0)], 8, false, None),
        (&[(3, ZERO), (84, N3), (1, N2)], 8, false, None),
        (&[(3, ZERO), (85, N3)], 0, false, None),
    ];
    for (runs, bitmap, used_outside, number) in rows {
        let grid = grid_of(rt.alloc(), 1, 88, runs, bitmap, used_outside)?;
        let told = match number {
            Some(number) => Ok(Plan {
                state: State::Blank { number },
                walk: [(0, 0), (0, 0)],
            }),
            None => Err(ScanFault::NoNumber {
                section: 0,
                sector: 0,
                found: 0,
            }),
        };
        assert_eq!(rt; scan(&grid), told, "{runs:?}, {bitmap}, {used_outside}");
    }
    Ok(())
}
