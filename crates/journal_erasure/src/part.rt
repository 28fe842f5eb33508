//! The two parts of an erasure, and the runs of neighbouring sectors that each has.
ghost use Rattle.std.specs.Prelude.{◌≡◌, ◌≤◌, ◌<◌, ℕ, true, false};
ghost use Rattle.journal_erasure.specs.Newest.{HasSector, HasSectors};
ghost use Rattle.journal_erasure.specs.Parts.{is_of_part, other_part};

use crate::newest::NewestSectors;

/// Which sectors a part of an erasure writes.
#[derive(Clone, Copy, Debug)]
pub(crate) enum Part {
    /// Those that do not bear the newest number.
    Others,
    /// Those that do.
    Newest,
}

impl Part {
    /// The part that has all other sectors.
    pub(crate) fn other(self) -> Part
        ensures { result ≡ other_part self }
    {
        match self {
            Part::Others => Part::Newest,
            Part::Newest => Part::Others,
        }
    }

    /// Whether it has sector `k` of the journal.
    fn has(self, newest: &NewestSectors, k: u64) -> bool
        requires { HasSector newest.now k }

        ensures { result ≡ is_of_part newest.now self k }
    {
        match self {
            Part::Others => !newest.is_newest(k),
            Part::Newest => newest.is_newest(k),
        }
    }

    /// The first sector from `from` on that it has, and `to` where none before that is one.
    pub(crate) fn first(self, newest: &NewestSectors, from: u64, to: u64) -> u64
        requires newest { HasSectors newest.now to }
        requires range { from ≤ to }

        ensures low { from ≤ result }
        ensures high { result ≤ to }
        ensures found { result < to → is_of_part newest.now self result ≡ true }
        ensures before { (k : ℕ) → from ≤ k → k < result → is_of_part newest.now self k ≡ false }
    {
        for k in from..to {
            if self.has(newest, k) {
                return k;
            }
        }
        to
    }
}
