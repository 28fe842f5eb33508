//! How fast sectors are read and written, while work goes on without a pause.

use std::time::Instant;

/// In milliseconds. A pause of this length ends a stretch of work: whoever types a script is not shown how far it is.
const PAUSE: u128 = 1000;

/// A stretch of work without a pause.
#[derive(Clone, Copy)]
pub(crate) struct Pace {
    began: Instant,
    looked: Instant,
    moved: u64,
}

impl Pace {
    /// A stretch begins.
    pub(crate) fn new(now: Instant) -> Pace {
        Pace {
            began: now,
            looked: now,
            moved: 0,
        }
    }

    /// So many sectors more were read or written since it was last looked at. Behind a pause a stretch begins anew.
    pub(crate) fn look(&mut self, now: Instant, moved: u64) {
        if milliseconds(self.looked, now) >= PAUSE {
            *self = Pace::new(now);
        }
        self.looked = now;
        self.moved = self.moved.saturating_add(moved);
    }

    /// How long it has gone on, in milliseconds.
    pub(crate) fn lasted(&self) -> u128 {
        milliseconds(self.began, self.looked)
    }

    /// Sectors a second.
    pub(crate) fn rate(&self) -> u64 {
        let a_second = u128::from(self.moved) * 1000 / self.lasted().max(1);
        u64::try_from(a_second).unwrap_or(u64::MAX)
    }

    /// The sectors of the stretch.
    pub(crate) fn moved(&self) -> u64 {
        self.moved
    }
}

/// The time between two moments.
pub(crate) fn milliseconds(from: Instant, to: Instant) -> u128 {
    to.duration_since(from).as_millis()
}
