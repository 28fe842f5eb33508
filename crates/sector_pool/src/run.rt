//! A run of a region's sectors.
ghost use Rattle.std.specs.Prelude.{◌≡◌, ◌↔◌, ◌+◌, ◌*◌, ◌%◌, ◌^◌, ◌<◌, ◌≤◌, length, IfOk, IfErr, IsOk};
ghost use Rattle.std.specs.Borrow.{sem};
ghost use Rattle.sector_pool.specs.Run.{sectors_of, front_of, back_of, both_of, Touches};

use crate::pieces::{cut, joined};
use disk_model::SECTOR_SIZE;
use std::marker::Model;

/// Sectors of a region that lie side by side. Nobody else reads or writes them.
#[derive(Drop)]
pub struct Run<'p> {
    place: u64,
    bytes: &'p mut [u8],
}

impl<'p> Model for Run<'p> {
    ghost use Rattle.sector_pool.specs.Run.{Piece, piece_at, IsPiece};

    ghost Value = { Piece };

    ghost view = { λ run. piece_at run.place run.bytes };

    ghost invariant = { λ run. IsPiece run.place run.bytes };
}

impl<'p> Run<'p> {
    ghost use Rattle.sector_pool.specs.Lending.{LendsBytes};

    /// All sectors of a region, which are these bytes.
    pub(crate) fn over(bytes: &'p mut [u8]) -> Run<'p>
        requires bytes { length bytes.old % 512 ≡ 0 }

        ensures place { result.place ≡ 0 }
        ensures bytes { result.bytes ≡ bytes.old }
        ensures region { result.region ≡ bytes.entry.ref_ptr }
    {
        Run { place: 0, bytes }
    }

    /// The sector of the region where the run begins.
    pub fn place(&self) -> u64
        ensures { result ≡ self.now.place }
    {
        self.place
    }

    /// How many sectors the run has.
    pub fn len(&self) -> u64
        ensures len { result ≡ sectors_of self.now }

        ensures whole { length self.now.bytes ≡ sectors_of self.now * 512 }
        ensures bound { self.now.place + sectors_of self.now < 2 ^ 55 }
    {
        (self.bytes.len() / SECTOR_SIZE) as u64
    }

    /// The bytes of its sectors.
    pub fn bytes(&self) -> &[u8]
        ensures { result.now ≡ self.now.bytes }
    {
        self.bytes
    }

    /// The bytes of its sectors, to be written.
    pub fn bytes_mut(&mut self) -> &mut [u8]
        ensures* writes_back { sem 𝓛 (LendsBytes self.entry result) }
        ensures bytes { result.now ≡ self.old.bytes }
    {
        self.bytes
    }

    /// The first `k` sectors, and the others. It copies nothing.
    pub fn split(self, k: u64) -> (Run<'p>, Run<'p>)
        requires k { k ≤ sectors_of self }

        ensures front { result.0 ≡ front_of k self.entry }
        ensures back { result.1 ≡ back_of k self.entry }
    {
        let Run { place, bytes } = self;
        let (front, back) = cut(bytes, k as usize * SECTOR_SIZE);
        (
            Run {
                place,
                bytes: front,
            },
            Run {
                place: place + k,
                bytes: back,
            },
        )
    }

    /// Both as one run, where `next`, of the same region, begins where this one ends. It copies nothing.
    ///
    /// # Errors
    ///
    /// - Both as they were: `next` begins elsewhere.
    pub fn join(self, next: Run<'p>) -> Result<Run<'p>, (Run<'p>, Run<'p>)>
        requires region { next.region ≡ self.region }

        ensures run { IfOk result (λ run. run ≡ both_of self.entry next.entry) }

        ensures touching { IsOk result ↔ Touches self.entry next.entry }
        ensures err { IfErr result (λ runs. (runs.0 ≡ self.entry) × (runs.1 ≡ next.entry)) }
    {
        if next.place != self.place + self.len() {
            return Err((self, next));
        }
        let Run { place, bytes } = self;
        let Run {
            place: _,
            bytes: back,
        } = next;
        let bytes = joined(bytes, back);
        Ok(Run { place, bytes })
    }
}
