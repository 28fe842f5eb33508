//! What an erasure begins with.
ghost use Rattle.std.specs.Prelude.{◌≡◌, ◌<◌};
ghost use Rattle.image_model.specs.Walk.{later as number_later};
ghost use Rattle.journal_erasure.specs.Erasing.{erasure_at_rest, IsErasureFor};
ghost use Rattle.journal_erasure.specs.Newest.{IsScanned};

use crate::newest::NewestSectors;
use commit_id::Grid;
use image_model::COMMIT_NUMBERS;
use layout::Geometry;

/// A journal that is to be erased.
#[derive(Clone, Copy, Debug)]
pub struct Erasure<'g> {
    /// Which of its sectors bear the newest number.
    pub newest: NewestSectors<'g>,
    /// The newest number.
    pub number: u8,
    /// The section that is erased before all others: the first that would be replayed.
    pub first: u64,
}

impl<'g> Erasure<'g> {
    /// The erasure of a journal as a scan has seen it, with its newest number, and the section that is erased
    /// first: the first of the walk, or any where nothing is in the walk.
    pub fn scanned(grid: &'g Grid, number: u8, first: u64) -> Erasure<'g>
        ensures newest { IsScanned result.newest grid.now.cells.items number }
        ensures number { result.number ≡ number }
        ensures first { result.first ≡ first }
    {
        Erasure {
            newest: NewestSectors::Scanned {
                cells: &grid.cells,
                number,
            },
            number,
            first,
        }
    }

    /// The erasure of a journal at rest, of which the next section to be written is `next`, under `number`.
    pub fn at_rest(geometry: &Geometry, next: u64, number: u8) -> Erasure<'g>
        requires next { next < geometry.now.sections }
        requires number { number < 4 }

        ensures told { result ≡ erasure_at_rest geometry.now next number }
        ensures fits { IsErasureFor geometry.now result }
    {
        let begin = geometry.section_at(0);
        if next == 0 {
            Erasure {
                newest: NewestSectors::First {
                    count: geometry.initial() - begin,
                },
                number: later(3, number),
                first: next,
            }
        } else {
            Erasure {
                newest: NewestSectors::First {
                    count: geometry.section_at(next) - begin,
                },
                number,
                first: next,
            }
        }
    }
}

/// The commit number so many laps on.
///
/// Source: Linux, `drivers/md/dm-integrity.c`, `next_commit_seq`.
pub(crate) fn later(laps: u8, number: u8) -> u8
    requires laps { laps < 4 }
    requires number { number < 4 }

    ensures { result ≡ number_later laps number }
{
    (number + laps) % COMMIT_NUMBERS
}
